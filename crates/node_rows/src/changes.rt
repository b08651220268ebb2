// Another field or raw of a node's text.
ghost use Rattle.std.specs.Prelude.{◌≡◌, ◌<◌, true, false, length};
ghost use Rattle.css_tree.specs.Changes.{with_field, with_raw, block_with, some_block_with};
ghost use Rattle.css_tree.specs.Clean.{clean_of};
ghost use Rattle.css_tree.specs.Parts.{kind_of};
ghost use Rattle.node_rows.specs.Nodes.{text_of, with_text};
ghost use Rattle.node_rows.specs.WrittenTexts.{text_in, keeps_clean, IsFor};

use crate::rows::Rows;
use crate::texts::{Written, is_empty};
use css_text::txt::Txt;
use css_tree::node::{Block, Field, Kind, NodeText, Raw, Source};

// Gives the node text another field, of those that aren't kept without comments.
fn set_plain(text: &mut NodeText, field: Field, plain: Txt)
    requires { keeps_clean field ≡ false }
    ensures { text.new ≡ with_field field plain text.old }
{
    match text {
        NodeText::Declaration {
            prop,
            important,
            important_raw,
            ..
        } => match field {
            Field::Prop => *prop = plain,
            Field::Important => {
                *important = !is_empty(plain.as_str());
                *important_raw = plain;
            }
            _ => {}
        },
        NodeText::AtRule { name, .. } => {
            if let Field::Name = field {
                *name = plain;
            }
        }
        NodeText::Comment { text, .. } => {
            if let Field::Text = field {
                *text = plain;
            }
        }
        _ => {}
    }
}

// Gives the node text another field, of those that are kept without comments.
fn set_source(text: &mut NodeText, field: Field, source: Source)
    requires kept { keeps_clean field ≡ true }
    requires cleaned { source.clean ≡ clean_of source.source }
    ensures { text.new ≡ with_field field source.source text.old }
{
    match text {
        NodeText::Declaration { value, .. } => {
            if let Field::Value = field {
                *value = source;
            }
        }
        NodeText::Rule { selector, .. } => {
            if let Field::Selector = field {
                *selector = source;
            }
        }
        NodeText::AtRule { params, .. } => {
            if let Field::Params = field {
                *params = source;
            }
        }
        _ => {}
    }
}

/// Gives the node text another field. A kind that has no such field stays as it is.
pub fn set_field(text: &mut NodeText, field: Field, written: Written)
    requires { IsFor field written }
    ensures { text.new ≡ with_field field (text_in written) text.old }
{
    match field {
        Field::Value | Field::Selector | Field::Params => match written {
            Written::Commented(source) => set_source(text, field, source),
            Written::Plain(_) => unreachable!(),
        },
        _ => match written {
            Written::Commented(source) => set_plain(text, field, source.source),
            Written::Plain(plain) => set_plain(text, field, plain),
        },
    }
}

fn set_block_raw(block: &mut Block, raw: Raw, written: Txt)
    ensures { block.new ≡ block_with raw written block.old }
{
    match raw {
        Raw::After => block.after = Some(written),
        Raw::Semicolon => block.semicolon = !is_empty(written.as_str()),
        _ => {}
    }
}

fn set_end_raw(block: &mut Option<Block>, raw: Raw, written: Txt)
    ensures { block.new ≡ some_block_with raw written block.old }
{
    if let Some(block) = block {
        set_block_raw(block, raw, written);
    }
}

fn set_declaration_raw(text: &mut NodeText, raw: Raw, written: Txt)
    requires { kind_of text.old ≡ Kind.Declaration }
    ensures { text.new ≡ with_raw raw written text.old }
{
    match text {
        NodeText::Declaration {
            before,
            between,
            important_raw,
            tail,
            ..
        } => match raw {
            Raw::Before => *before = Some(written),
            Raw::Between => *between = written,
            Raw::Important => *important_raw = written,
            Raw::Tail => *tail = written,
            _ => {}
        },
        _ => unreachable!(),
    }
}

fn set_comment_raw(text: &mut NodeText, raw: Raw, written: Txt)
    requires { kind_of text.old ≡ Kind.Comment }
    ensures { text.new ≡ with_raw raw written text.old }
{
    match text {
        NodeText::Comment {
            before,
            left,
            right,
            ..
        } => match raw {
            Raw::Before => *before = Some(written),
            Raw::Left => *left = written,
            Raw::Right => *right = written,
            _ => {}
        },
        _ => unreachable!(),
    }
}

/// Gives the node text another raw. A kind that has no such raw stays as it is.
pub fn set_raw(text: &mut NodeText, raw: Raw, written: Txt)
    ensures { text.new ≡ with_raw raw written text.old }
{
    match text {
        NodeText::Root { block, .. } => set_block_raw(block, raw, written),
        NodeText::AtRule {
            before,
            after_name,
            between,
            block,
            ..
        } => match raw {
            Raw::Before => *before = Some(written),
            Raw::AfterName => *after_name = written,
            Raw::Between => *between = written,
            _ => set_end_raw(block, raw, written),
        },
        NodeText::Rule {
            before,
            between,
            block,
            ..
        } => match raw {
            Raw::Before => *before = Some(written),
            Raw::Between => *between = written,
            _ => set_block_raw(block, raw, written),
        },
        NodeText::Declaration { .. } => set_declaration_raw(text, raw, written),
        NodeText::Comment { .. } => set_comment_raw(text, raw, written),
    }
}

impl Rows {
    /// Gives the node another field, with no memory. A kind that has no such field stays as it is.
    pub fn set_field(&mut self, n: u32, field: Field, text: Written)
        requires given { n < length self.old }
        requires fits { IsFor field text }
        ensures { self.new ≡ with_text self.old n (with_field field (text_in text) (text_of self.old n)) }
    {
        let row = &mut self.items[n as usize];
        set_field(&mut row.text, field, text);
    }

    /// Gives the node another raw, with no memory. A kind that has no such raw stays as it is.
    pub fn set_raw(&mut self, n: u32, raw: Raw, text: Txt)
        requires { n < length self.old }
        ensures { self.new ≡ with_text self.old n (with_raw raw text (text_of self.old n)) }
    {
        let row = &mut self.items[n as usize];
        set_raw(&mut row.text, raw, text);
    }
}
