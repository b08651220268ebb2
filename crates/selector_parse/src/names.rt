// The kinds of simple selectors, by their texts.
ghost use Rattle.std.specs.Prelude.{◌≡◌, map};
ghost use Rattle.std.specs.Char.{to_ascii_lowercase};
ghost use Rattle.std.specs.Str.{chars};
ghost use Rattle.selector_parse.specs.Names.{spelled, is_legacy as is_legacy_of, is_logical as is_logical_of, takes_list as takes_list_of};
ghost use Rattle.selector_parse.specs.Phases.{pseudo_kind as pseudo_kind_of, kind_of as kind_of_text};
ghost use Rattle.selector_parse.specs.Worth.{is_where as is_where_of};

use crate::part::PartKind;
use css_text::scan::byte_at;

/// The name is this word in any ASCII case.
fn is_spelled(name: &[u8], word: &[u8]) -> bool
    ensures { result ≡ spelled (map to_ascii_lowercase word.now) name.now }
{
    name.eq_ignore_ascii_case(word)
}

/// A pseudo-element that one colon may begin.
#[tactic(auto, unfolding(crate::specs::Names::is_legacy))]
fn is_legacy(name: &[u8]) -> bool
    ensures { result ≡ is_legacy_of name.now }
{
    is_spelled(name, b"before")
        || is_spelled(name, b"after")
        || is_spelled(name, b"first-line")
        || is_spelled(name, b"first-letter")
}

/// A pseudo-class whose arguments are a list.
#[tactic(auto, unfolding(crate::specs::Names::is_logical))]
fn is_logical(name: &[u8]) -> bool
    ensures { result ≡ is_logical_of name.now }
{
    is_spelled(name, b"is")
        || is_spelled(name, b"not")
        || is_spelled(name, b"has")
        || is_spelled(name, b"where")
}

fn pseudo_kind(name: &[u8]) -> PartKind
    ensures { result ≡ pseudo_kind_of name.now }
{
    match name {
        [b':', ..] => PartKind::PseudoElement,
        _ if is_legacy(name) => PartKind::PseudoElement,
        _ => PartKind::PseudoClass,
    }
}

/// The kind of a simple selector.
pub fn kind_of(text: &[u8]) -> PartKind
    ensures { result ≡ kind_of_text text.now }
{
    match text {
        [b'#', ..] => PartKind::Id,
        [b'.', ..] => PartKind::Class,
        [b'[', ..] => PartKind::Attribute,
        [b'&', ..] => PartKind::Nesting,
        [b':', name @ ..] => pseudo_kind(name),
        _ => PartKind::Element,
    }
}

/// The arguments after this text are a list.
pub fn takes_list(text: &[u8]) -> bool
    ensures { result ≡ takes_list_of text.now }
{
    match text {
        [b':', name @ ..] => is_logical(name),
        _ => false,
    }
}

#[tactic(auto, unfolding(crate::specs::Worth::is_where))]
fn spells_where(text: &[u8]) -> bool
    ensures { result ≡ is_where_of text.now }
{
    match text {
        [b':', name @ ..] => is_spelled(name, b"where"),
        _ => false,
    }
}

/// The text is `:where` in any ASCII case.
pub fn is_where(text: &str) -> bool
    ensures { result ≡ is_where_of (chars text.now) }
{
    spells_where(text.as_bytes())
}

/// Arguments after this text are a list.
pub fn is_logical_class(text: &str) -> bool
    ensures { result ≡ takes_list_of (chars text.now) }
{
    takes_list(text.as_bytes())
}
