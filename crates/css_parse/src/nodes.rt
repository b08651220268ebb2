// The nodes of the parser's list, and their ends.
ghost use Rattle.std.specs.Prelude.{◌≡◌, ◌<◌, [], ◌∷◌, IfOk, length};
ghost use Rattle.css_tree.specs.Pieces.{shape, Shape as S};
ghost use Rattle.css_tree.specs.Fields.{begins_at};
ghost use Rattle.css_tree.proofs.TreeOf.{block_text as block_text_of};
ghost use Rattle.css_parse.specs.Gaps.{gap_of};
ghost use Rattle.css_parse.specs.Machine.{comment_node, leaf_node, open_node, open_end};
ghost use Rattle.css_parse.specs.Standing.{sheet, gap_text, IsBehind};

use crate::fields;
use crate::gap::Gap;
use crate::piece::{Piece, Shape};
use crate::texts::{Texts, last_end};
use css_text::lexer::Span;
use css_tree::node::{Block, NodeText};
use node_rows::node_list::NodeAt;
use std::alloc::AllocError;

/// A container's end before it is known.
pub fn open_end() -> Block
    ensures { result ≡ open_end }
{
    Block {
        semicolon: false,
        after: None,
    }
}

/// Where the pieces begin, or else that one.
fn first_start(pieces: &[Piece], piece: &Piece) -> u32
    ensures { result ≡ begins_at pieces.now piece.now }
{
    match pieces {
        [] => piece.start(),
        [first, ..] => first.start(),
    }
}

fn span(start: u32, end: u32) -> Span
    ensures { result ≡ record { start = start; end = end } }
{
    Span {
        start: start as usize,
        end: end as usize,
    }
}

/// A comment that stands by itself.
pub fn comment_node(
    texts: Texts,
    parent: u32,
    gap: Gap,
    piece: &Piece,
) -> Result<NodeAt, AllocError>
    requires comment { shape piece.now ≡ S.comment }
    requires behind { IsBehind (sheet texts) gap (piece.now ∷ []) }
    ensures { IfOk result (λ n. n ≡ comment_node parent (gap_text (sheet texts.entry) gap) piece.now) }
{
    let text = fields::comment(texts, gap, piece)?;
    let span = span(piece.start(), piece.end());
    Ok(NodeAt { parent, text, span })
}

/// A declaration, or an at-rule without a block.
#[inline(always)]
pub fn leaf_node(texts: Texts, parent: u32, gap: Gap, run: &[Piece]) -> Result<NodeAt, AllocError>
    requires some { 0 < length run.now }
    requires behind { IsBehind (sheet texts) gap run.now }
    ensures { IfOk result (λ n. n ≡ leaf_node parent (gap_text (sheet texts.entry) gap) run.now) }
{
    let word = &run[0];
    let rest = &run[1..];
    let end = last_end(word.end(), rest);
    match word.shape() {
        Shape::AtName => {
            let text = fields::at_rule(texts, gap, word, rest, None)?;
            let span = span(word.start(), end);
            Ok(NodeAt { parent, text, span })
        }
        _ => {
            let text = fields::declaration(texts, gap, word, rest)?;
            let span = span(word.hack_end(), end);
            Ok(NodeAt { parent, text, span })
        }
    }
}

/// A rule, or an at-rule with a block, before its end is known.
pub fn open_node(
    texts: Texts,
    parent: u32,
    gap: Gap,
    run: &[Piece],
    opening: &Piece,
) -> Result<NodeAt, AllocError>
    requires { IsBehind (sheet texts) gap run.now }
    ensures { IfOk result (λ n. n ≡ open_node parent (gap_text (sheet texts.entry) gap) run.now opening.now) }
{
    let text = block_text(texts, gap, run)?;
    let span = span(first_start(run, opening), opening.end());
    Ok(NodeAt { parent, text, span })
}

fn block_text(texts: Texts, gap: Gap, run: &[Piece]) -> Result<NodeText, AllocError>
    requires { IsBehind (sheet texts) gap run.now }
    ensures { IfOk result (λ t. t ≡ block_text_of (gap_of (gap_text (sheet texts.entry) gap)) run.now open_end) }
{
    match run {
        [] => fields::rule(texts, gap, run, open_end()),
        [word, rest @ ..] => match word.shape() {
            Shape::AtName => fields::at_rule(texts, gap, word, rest, Some(open_end())),
            _ => fields::rule(texts, gap, run, open_end()),
        },
    }
}
