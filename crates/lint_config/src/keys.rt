// Refusals, and the keys that they name.
ghost use Rattle.std.specs.Prelude.{◌≡◌, ◌∷◌, [], ◌++◌, IfOk, OnOk, IfErr};
ghost use Rattle.std.specs.String.{string_bytes};
ghost use Rattle.lint_config.specs.ConfigOf.{below};
ghost use Rattle.lint_config.specs.Keys.{rules_key, key_of, IsRefusal, IsMemory};

use crate::config::{ConfigFault, ConfigKind};
use css_text::stop::Stop;
use css_text::txt::Txt;
use std::alloc::{AllocError, AllocFailed, Global};

/// A value, or why the configuration is refused.
pub type Answer<T> = Result<T, Stop<ConfigFault>>;

/// Which rules of a configuration.
#[derive(Clone, Copy)]
pub enum Place {
    /// Those for each file.
    Base,
    /// Those of the override of this number, counted from 0.
    InOverride(usize),
}

/// A key of a configuration.
#[derive(Clone, Copy)]
pub enum Key<'n> {
    /// A key of the whole, or the whole as the empty text.
    Top(&'n str),
    OfOverride(usize),
    /// The patterns of an override.
    Files(usize),
    Rules(Place),
    OneRule(Place, &'n str),
}

/// The key of an object with rules.
fn rules_text(alloc: Global, place: Place) -> Result<String, AllocError>
    ensures { IfOk result (λ s. string_bytes s ≡ rules_key place) }
{
    match place {
        Place::Base => String::from_str(alloc, "rules"),
        Place::InOverride(n) => format!(in alloc; "overrides.{n}.rules"),
    }
}

fn rule_text(alloc: Global, place: Place, name: &str) -> Result<String, AllocError>
    ensures { IfOk result (λ s. string_bytes s ≡ below (rules_key place) name.now) }
{
    let rules = rules_text(alloc, place)?;
    format!(in alloc; "{rules}.{name}")
}

/// The text of a key.
fn text_of(alloc: Global, key: Key) -> Result<String, AllocError>
    ensures { IfOk result (λ s. string_bytes s ≡ key_of key.entry) }
{
    match key {
        Key::Top(name) => String::from_str(alloc, name),
        Key::OfOverride(n) => format!(in alloc; "overrides.{n}"),
        Key::Files(n) => format!(in alloc; "overrides.{n}.files"),
        Key::Rules(place) => rules_text(alloc, place),
        Key::OneRule(place, name) => rule_text(alloc, place, name),
    }
}

/// The refusal of a value at its key.
pub fn refused(alloc: Global, kind: ConfigKind, key: Key) -> Stop<ConfigFault>
    ensures { IsRefusal kind (key_of key.entry) result }
{
    let text = match text_of(alloc, key) {
        Ok(text) => text,
        Err(error) => return Stop::Memory(error),
    };
    match Txt::from_string(alloc, text) {
        Ok(key) => Stop::Fault(ConfigFault::Refused { kind, key }),
        Err(error) => Stop::Memory(error),
    }
}

/// Puts a value at the end of a list.
pub fn push<T: Drop>(list: &mut Vec<T>, item: T) -> Answer<()>
    ensures ok { OnOk result (list.new.items ≡ list.old.items ++ item ∷ []) }
    ensures err { IfErr result IsMemory }
{
    match list.push(item) {
        Ok(()) => Ok(()),
        Err(error) => Err(Stop::Memory(error.into())),
    }
}
