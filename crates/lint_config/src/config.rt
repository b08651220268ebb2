// The configuration of the linter.
use crate::rule::Rule;
use crate::setting::{Choice, Severity};
use css_text::txt::Txt;
use std::alloc::{AllocError, Global};
use std::marker::Model;

/// What is wrong with a value of a configuration.
#[derive(Clone, Copy, PartialEq, Eq, Debug)]
pub enum ConfigKind {
    /// It isn't of the shape that its key asks for, or the key isn't known.
    WrongShape,
    /// No rule and no pattern is set like this.
    BadOption,
    /// Configurations that extend others are not read.
    Extends,
}

/// Why bytes are no configuration.
#[derive(Drop)]
pub enum ConfigFault {
    /// They aren't JSON in UTF-8.
    BadJson,
    /// A value isn't allowed at its key. Keys are joined by dots, as `overrides.0.files`.
    Refused { kind: ConfigKind, key: Txt },
}

/// What a name of a rule is set to.
#[derive(Clone, Copy)]
pub enum Mode {
    /// Off.
    Off,
    /// On, and no rule has the name.
    Unknown,
    /// On.
    On {
        choice: Choice,
        severity: Option<Severity>,
    },
}

/// A name of a rule, and what it is set to.
#[derive(Drop)]
pub(crate) struct Named {
    pub(crate) name: String,
    pub(crate) mode: Mode,
}

/// Rules for the files of which a pattern matches the path.
#[derive(Drop)]
pub(crate) struct Override {
    pub(crate) patterns: Vec<String>,
    pub(crate) rules: Vec<Named>,
}

/// What a configuration says; what it doesn't set is none.
#[derive(Drop)]
pub(crate) struct Contents {
    pub(crate) severity: Option<Severity>,
    pub(crate) ignore: Option<bool>,
    pub(crate) needless: Option<bool>,
    pub(crate) overrides: Vec<Override>,
    pub(crate) rules: Vec<Named>,
}

impl Contents {
    ghost use Rattle.std.specs.Prelude.{◌≡◌, IfOk};
    ghost use Rattle.lint_config.specs.BuiltIn.{built_in_config};
    ghost use Rattle.lint_config.specs.ConfigOf.{no_config};
    ghost use Rattle.lint_config.specs.ConfigView.{contents_view};

    /// A configuration that sets nothing.
    pub(crate) fn new(alloc: Global) -> Contents
        ensures { contents_view result ≡ no_config }
    {
        Contents {
            severity: None,
            ignore: None,
            needless: None,
            overrides: Vec::new(alloc),
            rules: Vec::new(alloc),
        }
    }

    fn built_in(alloc: Global) -> Result<Contents, AllocError>
        ensures { IfOk result (λ c. contents_view c ≡ built_in_config) }
    {
        let name = String::from_str(alloc, Rule::BlockNoEmpty.name())?;
        let mode = Mode::On {
            choice: Choice::On,
            severity: None,
        };
        let mut contents = Contents::new(alloc);
        contents.rules.push(Named { name, mode })?;
        Ok(contents)
    }
}

/// A configuration: which rules are on, how, and for which files. What a clause sees of it is what its JSON text says.
#[derive(Drop)]
pub struct Config {
    pub(crate) contents: Contents,
}

impl Model for Config {
    ghost use Rattle.std.specs.Prelude.{IsTrue};
    ghost use Rattle.lint_config.specs.ConfigOf.{ConfigData};

    ghost Value = { ConfigData };

    ghost use Rattle.lint_config.specs.ConfigView.{contents_view};
    ghost use Rattle.lint_config.specs.Sound.{is_sound};

    ghost view = { λ c. contents_view c.contents };

    ghost invariant = { λ c. IsTrue (is_sound (contents_view c.contents)) };
}

impl Config {
    ghost use Rattle.std.specs.Prelude.{◌≡◌, Ok, IfOk};
    ghost use Rattle.lint_config.specs.BuiltIn.{built_in_text, built_in_config};
    ghost use Rattle.lint_config.specs.Reading.{IsReading};

    /// The configuration that serves where none is given: `{"rules":{"block-no-empty":true}}`. Its only error is want of
    /// memory.
    pub fn built_in(alloc: Global) -> Result<Config, AllocError>
        ensures value { IfOk result (λ c. c ≡ built_in_config) }
        ensures reading { IfOk result (λ c. IsReading built_in_text (Ok c)) }
    {
        let contents = Contents::built_in(alloc)?;
        Ok(Config { contents })
    }
}
