// The nodes of statements that are read from their bytes at once.
ghost use Rattle.std.specs.Prelude.{◌≡◌, ◌+◌, ◌<◌, ◌≤◌, ◌∷◌, [], List, IfOk};
ghost use Rattle.std.specs.Str.{chars};
ghost use Rattle.css_text.specs.Shared.{part, IsPart};
ghost use Rattle.css_tree.specs.Pieces.{Lexeme, end_of};
ghost use Rattle.css_parse.specs.Machine.{leaf_node, open_node};
ghost use Rattle.css_parse.specs.Plain.{IsPlainLeaf, IsPlainHead, IsLeafRun, IsHeadRun};
ghost use Rattle.css_parse.specs.Standing.{sheet, gap_text, IsSheet};

use crate::gap::Gap;
use crate::nodes::open_end;
use crate::plain::{PlainHead, PlainLeaf};
use crate::texts::Texts;
use css_text::lexer::Span;
use css_tree::node::{NodeText, Source};
use node_rows::node_list::NodeAt;
use std::alloc::AllocError;

/// A field without a comment, from one byte of the sheet up to another: it is clean.
#[inline(always)]
fn plain_source(texts: Texts, start: u32, end: u32) -> Result<Source, AllocError>
    requires { IsPart (sheet texts) start end }
    ensures { IfOk result (λ s. s ≡ record { source = chars (part (sheet texts.entry) start end); clean = chars (part (sheet texts.entry) start end) }) }
{
    let source = texts.part(start, end)?;
    let clean = texts.part(start, end)?;
    Ok(Source { source, clean })
}

/// A declaration behind the gap.
#[inline(always)]
pub fn plain_leaf_node(
    texts: Texts,
    parent: u32,
    gap: Gap,
    plain: &PlainLeaf,
) -> Result<NodeAt, AllocError>
    requires is_sheet { IsSheet (sheet texts) }
    requires gap { IsPart (sheet texts) gap.start gap.end }
    requires plain { IsPlainLeaf (sheet texts) gap.end plain.now }
    ensures parent { IfOk result (λ n. n.parent ≡ parent) }
    ensures node { IfOk result (λ n. (run : List Lexeme) → IsLeafRun (sheet texts.entry) gap.end plain.now run → n ≡ leaf_node parent (gap_text (sheet texts.entry) gap) run) }
{
    let colon = plain.colon as u32;
    let value = plain.value as u32;
    let end = plain.end as u32;
    let before = texts.part(gap.start, gap.end)?;
    let prop = texts.part(gap.end, colon)?;
    let between = texts.part(colon, value)?;
    let source = plain_source(texts, value, end)?;
    let important_raw = texts.part(end, plain.semicolon as u32)?;
    let tail = texts.empty()?;
    let text = NodeText::Declaration {
        before: Some(before),
        prop,
        between,
        value: source,
        important: plain.end < plain.semicolon,
        important_raw,
        tail,
    };
    let span = Span {
        start: gap.end as usize,
        end: plain.semicolon,
    };
    Ok(NodeAt { parent, text, span })
}

/// A rule behind the gap, before its end is known.
#[inline(always)]
pub fn plain_head_node(
    texts: Texts,
    parent: u32,
    gap: Gap,
    plain: &PlainHead,
) -> Result<NodeAt, AllocError>
    requires is_sheet { IsSheet (sheet texts) }
    requires gap { IsPart (sheet texts) gap.start gap.end }
    requires plain { IsPlainHead (sheet texts) gap.end plain.now }
    ensures parent { IfOk result (λ n. n.parent ≡ parent) }
    ensures node { IfOk result (λ n. (run : List Lexeme) → IsHeadRun (sheet texts.entry) gap.end plain.now run → (q : Lexeme) → q.at ≡ plain.now.brace → end_of q ≡ plain.now.brace + 1 → n ≡ open_node parent (gap_text (sheet texts.entry) gap) run q) }
{
    let end = plain.end as u32;
    let before = texts.part(gap.start, gap.end)?;
    let selector = plain_source(texts, gap.end, end)?;
    let between = texts.part(end, plain.brace as u32)?;
    let text = NodeText::Rule {
        before: Some(before),
        selector,
        between,
        block: open_end(),
    };
    let span = Span {
        start: gap.end as usize,
        end: plain.brace + 1,
    };
    Ok(NodeAt { parent, text, span })
}
