// The fields and raws of a node's text, lent.
ghost use Rattle.std.specs.Prelude.{◌≡◌, ◌∷◌, [], Option, Some, None, MatchOption, MatchResult, if◌then◌else◌};
ghost use Rattle.std.specs.Str.{chars};
ghost use Rattle.css_tree.specs.Parts.{kind_of, field_of, source_of, important_of, raw_of, block_of, before_of, block_raw, semicolon_text};

use crate::fault::TreeFault;
use css_text::txt::Txt;
use css_tree::node::{Block, Field, Kind, NodeText, Raw};

/// The kind of a node's text.
pub fn kind(text: &NodeText) -> Kind
    ensures { result ≡ kind_of text.now }
{
    match text {
        NodeText::Root { .. } => Kind::Root,
        NodeText::AtRule { .. } => Kind::AtRule,
        NodeText::Rule { .. } => Kind::Rule,
        NodeText::Declaration { .. } => Kind::Declaration,
        NodeText::Comment { .. } => Kind::Comment,
    }
}

/// A field, the clean one where it has a source; none where the kind has no such field.
pub fn field(text: &NodeText, field: Field) -> Option<&str>
    ensures { MatchOption result (field_of field text.now ≡ None) (λ s. field_of field text.now ≡ Some (chars s.now)) }
{
    match text {
        NodeText::Root { .. } => None,
        NodeText::AtRule { name, params, .. } => match field {
            Field::Name => Some(name.as_str()),
            Field::Params => Some(params.clean.as_str()),
            _ => None,
        },
        NodeText::Rule { selector, .. } => match field {
            Field::Selector => Some(selector.clean.as_str()),
            _ => None,
        },
        NodeText::Declaration {
            prop,
            value,
            important_raw,
            ..
        } => match field {
            Field::Prop => Some(prop.as_str()),
            Field::Value => Some(value.clean.as_str()),
            Field::Important => Some(important_raw.as_str()),
            _ => None,
        },
        NodeText::Comment { text, .. } => match field {
            Field::Text => Some(text.as_str()),
            _ => None,
        },
    }
}

/// A field as it was written; none where the kind has no such field.
pub fn source(text: &NodeText, field: Field) -> Option<&str>
    ensures { MatchOption result (source_of field text.now ≡ None) (λ s. source_of field text.now ≡ Some (chars s.now)) }
{
    match text {
        NodeText::AtRule { params, .. } if field == Field::Params => Some(params.source.as_str()),
        NodeText::Rule { selector, .. } if field == Field::Selector => Some(
            selector.source.as_str(),
        ),
        NodeText::Declaration { value, .. } if field == Field::Value => Some(value.source.as_str()),
        _ => self::field(text, field),
    }
}

/// Whether a declaration is marked important; none for another kind.
pub fn important(text: &NodeText) -> Option<bool>
    ensures { result ≡ important_of text.now }
{
    match text {
        NodeText::Declaration { important, .. } => Some(*important),
        _ => None,
    }
}

/// The end of a container; none for a node without a block.
pub fn block(text: &NodeText) -> Option<&Block>
    ensures { MatchOption result (block_of text.now ≡ None) (λ b. block_of text.now ≡ Some b.now) }
{
    match text {
        NodeText::Root { block, .. } => Some(block),
        NodeText::AtRule { block, .. } => block.as_ref(),
        NodeText::Rule { block, .. } => Some(block),
        NodeText::Declaration { .. } => None,
        NodeText::Comment { .. } => None,
    }
}

fn lent(text: &Option<Txt>) -> Option<&str>
    ensures { MatchOption result (text.now ≡ None) (λ s. text.now ≡ Some (chars s.now)) }
{
    match text {
        None => None,
        Some(text) => Some(text.as_str()),
    }
}

/// The text before a node, which may be absent; none where the kind has none.
pub fn before(text: &NodeText) -> Option<&str>
    ensures { MatchOption result (before_of text.now ≡ None) (λ s. before_of text.now ≡ Some (chars s.now)) }
{
    match text {
        NodeText::Root { .. } => None,
        NodeText::AtRule { before, .. } => lent(before),
        NodeText::Rule { before, .. } => lent(before),
        NodeText::Declaration { before, .. } => lent(before),
        NodeText::Comment { before, .. } => lent(before),
    }
}

// The flag of a container as a text.
fn semicolon(flag: bool) -> &'static str
    ensures { chars result.now ≡ semicolon_text flag }
{
    match flag {
        true => ";",
        false => "",
    }
}

// A raw of a container.
fn raw_of_block(block: &Block, raw: Raw) -> Result<Option<&str>, TreeFault>
    ensures { MatchResult result
        (λ o. MatchOption o (block_raw raw (Some block.now) ≡ Some None) (λ s. block_raw raw (Some block.now) ≡ Some (Some (chars s.now))))
        (λ e. (e ≡ TreeFault.WrongKind) × (block_raw raw (Some block.now) ≡ None)) }
{
    match raw {
        Raw::After => Ok(lent(&block.after)),
        Raw::Semicolon => Ok(Some(semicolon(block.semicolon))),
        _ => Err(TreeFault::WrongKind),
    }
}

fn raw_of_at_rule(text: &NodeText, raw: Raw) -> Result<Option<&str>, TreeFault>
    requires { kind_of text.now ≡ Kind.AtRule }
    ensures { MatchResult result
        (λ o. MatchOption o (raw_of raw text.now ≡ Some None) (λ s. raw_of raw text.now ≡ Some (Some (chars s.now))))
        (λ e. (e ≡ TreeFault.WrongKind) × (raw_of raw text.now ≡ None)) }
{
    match text {
        NodeText::AtRule {
            before,
            after_name,
            between,
            block,
            ..
        } => match raw {
            Raw::Before => Ok(lent(before)),
            Raw::AfterName => Ok(Some(after_name.as_str())),
            Raw::Between => Ok(Some(between.as_str())),
            _ => match block {
                Some(block) => raw_of_block(block, raw),
                None => Err(TreeFault::WrongKind),
            },
        },
        _ => unreachable!(),
    }
}

fn raw_of_rule(text: &NodeText, raw: Raw) -> Result<Option<&str>, TreeFault>
    requires { kind_of text.now ≡ Kind.Rule }
    ensures { MatchResult result
        (λ o. MatchOption o (raw_of raw text.now ≡ Some None) (λ s. raw_of raw text.now ≡ Some (Some (chars s.now))))
        (λ e. (e ≡ TreeFault.WrongKind) × (raw_of raw text.now ≡ None)) }
{
    match text {
        NodeText::Rule {
            before,
            between,
            block,
            ..
        } => match raw {
            Raw::Before => Ok(lent(before)),
            Raw::Between => Ok(Some(between.as_str())),
            _ => raw_of_block(block, raw),
        },
        _ => unreachable!(),
    }
}

fn raw_of_declaration(text: &NodeText, raw: Raw) -> Result<Option<&str>, TreeFault>
    requires { kind_of text.now ≡ Kind.Declaration }
    ensures { MatchResult result
        (λ o. MatchOption o (raw_of raw text.now ≡ Some None) (λ s. raw_of raw text.now ≡ Some (Some (chars s.now))))
        (λ e. (e ≡ TreeFault.WrongKind) × (raw_of raw text.now ≡ None)) }
{
    match text {
        NodeText::Declaration {
            before,
            between,
            important_raw,
            tail,
            ..
        } => match raw {
            Raw::Before => Ok(lent(before)),
            Raw::Between => Ok(Some(between.as_str())),
            Raw::Important => Ok(Some(important_raw.as_str())),
            Raw::Tail => Ok(Some(tail.as_str())),
            _ => Err(TreeFault::WrongKind),
        },
        _ => unreachable!(),
    }
}

fn raw_of_comment(text: &NodeText, raw: Raw) -> Result<Option<&str>, TreeFault>
    requires { kind_of text.now ≡ Kind.Comment }
    ensures { MatchResult result
        (λ o. MatchOption o (raw_of raw text.now ≡ Some None) (λ s. raw_of raw text.now ≡ Some (Some (chars s.now))))
        (λ e. (e ≡ TreeFault.WrongKind) × (raw_of raw text.now ≡ None)) }
{
    match text {
        NodeText::Comment {
            before,
            left,
            right,
            ..
        } => match raw {
            Raw::Before => Ok(lent(before)),
            Raw::Left => Ok(Some(left.as_str())),
            Raw::Right => Ok(Some(right.as_str())),
            _ => Err(TreeFault::WrongKind),
        },
        _ => unreachable!(),
    }
}

/// A raw, which may be absent; WrongKind where the kind has no such raw.
pub fn raw(text: &NodeText, raw: Raw) -> Result<Option<&str>, TreeFault>
    ensures { MatchResult result
        (λ o. MatchOption o (raw_of raw text.now ≡ Some None) (λ s. raw_of raw text.now ≡ Some (Some (chars s.now))))
        (λ e. (e ≡ TreeFault.WrongKind) × (raw_of raw text.now ≡ None)) }
{
    match text {
        NodeText::Root { block, .. } => raw_of_block(block, raw),
        NodeText::AtRule { .. } => raw_of_at_rule(text, raw),
        NodeText::Rule { .. } => raw_of_rule(text, raw),
        NodeText::Declaration { .. } => raw_of_declaration(text, raw),
        NodeText::Comment { .. } => raw_of_comment(text, raw),
    }
}
