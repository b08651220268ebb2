// Texts for fields, and whether a node's text has a field or raw already.
ghost use Rattle.std.specs.Prelude.{◌≡◌, Bool, true, false, not, IfOk, Option, Some, None};
ghost use Rattle.std.specs.Str.{chars};
ghost use Rattle.css_tree.specs.Changes.{has_field, has_raw, same_text, same_flag, is_empty_text, is_written, is_raw};
ghost use Rattle.css_tree.specs.Parts.{kind_of, block_raw};
ghost use Rattle.node_rows.specs.WrittenTexts.{text_in, IsFor, has_text};

use css_text::txt::Txt;
use css_tree::clean::clean_text;
use css_tree::node::{Block, Field, Kind, NodeText, Raw, Source};
use std::alloc::{AllocError, Global};

/// A text that is to be written into a field.
#[derive(Drop)]
pub enum Written {
    /// The text of another field.
    Plain(Txt),
    /// The text of a value, selector or params.
    Commented(Source),
}

impl Written {
    /// The text for that field: a value, selector or params also without its comments. The only error is want of memory.
    pub fn new(alloc: Global, field: Field, s: &str) -> Result<Written, AllocError>
        ensures text { IfOk result (λ w. text_in w ≡ chars s.now) }
        ensures fits { IfOk result (λ w. IsFor field w) }
    {
        let source = Txt::new(alloc, s)?;
        match field {
            Field::Value | Field::Selector | Field::Params => {
                let clean = clean_text(alloc, &source)?;
                Ok(Written::Commented(Source { source, clean }))
            }
            _ => Ok(Written::Plain(source)),
        }
    }
}

fn is_same(s: &str, text: &Txt) -> bool
    ensures { result ≡ same_text (chars s.now) text.now }
{
    text.as_str() == s
}

pub(crate) fn is_empty(s: &str) -> bool
    ensures { result ≡ is_empty_text (chars s.now) }
{
    s.is_empty()
}

// Whether the text tells the flag by being empty or not.
fn tells(s: &str, flag: bool) -> bool
    ensures { result ≡ same_flag (not (is_empty_text (chars s.now))) flag }
{
    if flag { !is_empty(s) } else { is_empty(s) }
}

// Whether the text is the field as it was written, or the field without its comments.
fn is_source(alloc: Global, s: &str, source: &Source) -> Result<bool, AllocError>
    ensures { IfOk result (λ b. b ≡ is_written (chars s.now) source.now) }
{
    if is_same(s, &source.clean) {
        return Ok(true);
    }
    if !is_same(s, &source.source) {
        return Ok(false);
    }
    let text = clean_text(alloc, &source.source)?;
    Ok(is_same(text.as_str(), &source.clean))
}

/// Whether the field has that text already, as it is written or without its comments; true where the kind has no such
/// field. The only error is want of memory, which is taken only where the field was written with comments.
pub fn has_field(alloc: Global, text: &NodeText, field: Field, s: &str) -> Result<bool, AllocError>
    ensures { IfOk result (λ b. b ≡ has_field field (chars s.now) text.now) }
{
    match text {
        NodeText::Declaration {
            prop,
            value,
            important,
            important_raw,
            ..
        } => match field {
            Field::Prop => Ok(is_same(s, prop)),
            Field::Value => is_source(alloc, s, value),
            Field::Important => Ok(is_same(s, important_raw) && tells(s, *important)),
            _ => Ok(true),
        },
        NodeText::Rule { selector, .. } => match field {
            Field::Selector => is_source(alloc, s, selector),
            _ => Ok(true),
        },
        NodeText::AtRule { name, params, .. } => match field {
            Field::Name => Ok(is_same(s, name)),
            Field::Params => is_source(alloc, s, params),
            _ => Ok(true),
        },
        NodeText::Comment { text, .. } => match field {
            Field::Text => Ok(is_same(s, text)),
            _ => Ok(true),
        },
        NodeText::Root { .. } => Ok(true),
    }
}

// Whether a raw, which may be absent, is there with that text.
fn is_there(s: &str, raw: &Option<Txt>) -> bool
    ensures { result ≡ has_text (chars s.now) raw.now }
{
    match raw {
        None => false,
        Some(text) => is_same(s, text),
    }
}

fn has_declaration_raw(text: &NodeText, raw: Raw, s: &str) -> bool
    requires { kind_of text.now ≡ Kind.Declaration }
    ensures { result ≡ has_raw raw (chars s.now) text.now }
{
    match text {
        NodeText::Declaration {
            before,
            between,
            important_raw,
            tail,
            ..
        } => match raw {
            Raw::Before => is_there(s, before),
            Raw::Between => is_same(s, between),
            Raw::Important => is_same(s, important_raw),
            Raw::Tail => is_same(s, tail),
            _ => true,
        },
        _ => unreachable!(),
    }
}

fn has_comment_raw(text: &NodeText, raw: Raw, s: &str) -> bool
    requires { kind_of text.now ≡ Kind.Comment }
    ensures { result ≡ has_raw raw (chars s.now) text.now }
{
    match text {
        NodeText::Comment {
            before,
            left,
            right,
            ..
        } => match raw {
            Raw::Before => is_there(s, before),
            Raw::Left => is_same(s, left),
            Raw::Right => is_same(s, right),
            _ => true,
        },
        _ => unreachable!(),
    }
}

fn has_block_raw(block: &Block, raw: Raw, s: &str) -> bool
    ensures { result ≡ is_raw raw (chars s.now) (block_raw raw (Some block.now)) }
{
    match raw {
        Raw::After => is_there(s, &block.after),
        Raw::Semicolon => tells(s, block.semicolon),
        _ => true,
    }
}

fn has_end_raw(block: &Option<Block>, raw: Raw, s: &str) -> bool
    ensures { result ≡ is_raw raw (chars s.now) (block_raw raw block.now) }
{
    match block {
        None => true,
        Some(block) => has_block_raw(block, raw, s),
    }
}

/// Whether the raw is there with that text already; true where the kind has no such raw.
pub fn has_raw(text: &NodeText, raw: Raw, s: &str) -> bool
    ensures { result ≡ has_raw raw (chars s.now) text.now }
{
    match text {
        NodeText::Root { block, .. } => has_block_raw(block, raw, s),
        NodeText::AtRule {
            before,
            after_name,
            between,
            block,
            ..
        } => match raw {
            Raw::Before => is_there(s, before),
            Raw::AfterName => is_same(s, after_name),
            Raw::Between => is_same(s, between),
            _ => has_end_raw(block, raw, s),
        },
        NodeText::Rule {
            before,
            between,
            block,
            ..
        } => match raw {
            Raw::Before => is_there(s, before),
            Raw::Between => is_same(s, between),
            _ => has_block_raw(block, raw, s),
        },
        NodeText::Declaration { .. } => has_declaration_raw(text, raw, s),
        NodeText::Comment { .. } => has_comment_raw(text, raw, s),
    }
}
