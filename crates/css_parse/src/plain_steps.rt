// Plain statements, which the parser takes from their bytes at once.
ghost use Rattle.std.specs.Prelude.{◌≡◌, ◌+◌, ◌<◌, ◌≤◌, List, [], ◌∷◌, length, slice_range, IfOk, MatchOption};
ghost use Rattle.std.specs.Str.{chars, IsCharBoundary};
ghost use Rattle.css_tree.specs.Pieces.{Lexeme as Seen, end_of};
ghost use Rattle.css_parse.specs.Model.{model, IsUpTo};
ghost use Rattle.css_parse.specs.Plain.{IsPlainLeaf, IsPlainHead, IsLeafRun, IsHeadRun};
ghost use Rattle.css_parse.specs.PlainSteps.{leaf_next, head_next, brace};
ghost use Rattle.css_parse.specs.Standing.{sheet};
ghost use Rattle.css_parse.specs.Going.{Going};

use crate::gap::Gap;
use crate::parser::Parser;
use crate::piece::Piece;
use crate::plain::{Plain, PlainHead, PlainLeaf, statement_at};
use crate::plain_nodes::{plain_head_node, plain_leaf_node};
use crate::turn::Frame;
use css_text::lexer::PieceKind;
use css_text::scan::{byte_at, spaces_end};
use std::alloc::AllocError;

/// The `{` at that byte, as a piece.
fn brace_at<'t>(src: &'t str, at: usize) -> Piece<'t>
    requires begins { IsCharBoundary src.now at }
    requires ends { IsCharBoundary src.now (at + 1) }
    requires is_brace { slice_range src.now at (at + 1) ≡ 123 ∷ [] }
    requires short { length src.now ≤ 67108864 }
    ensures { result ≡ brace at }
{
    Piece::new(PieceKind::Single, at as u32, &src[at..at + 1])
}

impl<'t> Parser<'t> {
    /// A declaration directly behind the gap, with its `;`.
    #[inline(always)]
    fn add_plain_leaf(&mut self, plain: &PlainLeaf) -> Result<(), AllocError>
        requires idle { self.old.run ≡ [] }
        requires room { length self.old.nodes < 67108865 }
        requires known { self.old.number < length self.old.nodes }
        requires up_to { IsUpTo (sheet self.old.texts) self.old self.old.gap.end }
        requires plain { IsPlainLeaf (sheet self.old.texts) self.old.gap.end plain.now }
        requires behind { IsCharBoundary (sheet self.old.texts) (plain.now.semicolon + 1) }
        ensures model { IfOk result (λ _. (run : List Seen) → IsLeafRun (sheet self.old.texts) self.old.gap.end plain.now run → model self.new ≡ leaf_next (model self.old) run) }
        ensures up_to { IfOk result (λ _. IsUpTo (sheet self.old.texts) self.new (plain.now.semicolon + 1)) }
    {
        let node = plain_leaf_node(self.texts, self.number, self.gap, plain)?;
        self.nodes.push(node)?;
        self.semicolon = true;
        self.gap = Gap::at(plain.semicolon as u32 + 1);
        Ok(())
    }

    /// The head of a rule directly behind the gap, with its `{`.
    #[inline(always)]
    fn add_plain_head(&mut self, plain: &PlainHead, opening: Piece<'t>) -> Result<(), AllocError>
        requires idle { self.old.run ≡ [] }
        requires room { length self.old.nodes < 67108865 }
        requires known { self.old.number < length self.old.nodes }
        requires up_to { IsUpTo (sheet self.old.texts) self.old self.old.gap.end }
        requires plain { IsPlainHead (sheet self.old.texts) self.old.gap.end plain.now }
        requires opening { opening ≡ brace plain.now.brace }
        requires ending { end_of (brace plain.now.brace) ≡ plain.now.brace + 1 }
        requires behind { IsCharBoundary (sheet self.old.texts) (plain.now.brace + 1) }
        ensures model { IfOk result (λ _. (run : List Seen) → IsHeadRun (sheet self.old.texts) self.old.gap.end plain.now run → model self.new ≡ head_next (model self.old) run (brace plain.now.brace)) }
        ensures up_to { IfOk result (λ _. IsUpTo (sheet self.old.texts) self.new (plain.now.brace + 1)) }
    {
        let number = self.nodes.len() as u32;
        let node = plain_head_node(self.texts, self.number, self.gap, plain)?;
        self.nodes.push(node)?;
        self.gap = Gap::at(plain.brace as u32 + 1);
        self.frames.push(Frame {
            number: self.number,
            opening,
        })?;
        self.number = number;
        self.semicolon = false;
        Ok(())
    }

    /// Closes the open block where its `}` stands at the byte, and answers the byte behind it.
    #[inline(always)]
    fn take_close(&mut self, src: &str, at: usize) -> Result<Option<usize>, AllocError>
        requires idle { self.old.run ≡ [] }
        requires going { Going (chars src.now) src.now at self.old }
        requires short { length src.now ≤ 67108864 }
        ensures { IfOk result (λ r. MatchOption r (self.new ≡ self.old) (λ next. (at < next) × (next ≤ length src.now) × Going (chars src.now) src.now next self.new)) }
    {
        if byte_at(src.as_bytes(), at) != b'}' || self.frames.is_empty() {
            return Ok(None);
        }
        self.close_at(at as u32 + 1)?;
        Ok(Some(at + 1))
    }

    /// Takes the plain statement or the `}` of the open block that stands at the byte, where one is found.
    #[inline(always)]
    fn take_statement(&mut self, src: &'t str, at: usize) -> Result<Option<usize>, AllocError>
        requires idle { self.old.run ≡ [] }
        requires going { Going (chars src.now) src.now at self.old }
        requires short { length src.now ≤ 67108864 }
        ensures { IfOk result (λ r. MatchOption r (self.new ≡ self.old) (λ next. (at < next) × (next ≤ length src.now) × Going (chars src.now) src.now next self.new)) }
    {
        match statement_at(src.as_bytes(), at) {
            Some(Plain::Leaf(leaf)) => {
                self.add_plain_leaf(&leaf)?;
                Ok(Some(leaf.semicolon + 1))
            }
            Some(Plain::Head(head)) if self.frames.len() < 200 => {
                self.add_plain_head(&head, brace_at(src, head.brace))?;
                Ok(Some(head.brace + 1))
            }
            _ => self.take_close(src, at),
        }
    }

    /// Takes the white space at the byte into the gap, and answers where it ends.
    #[inline(always)]
    fn skip_spaces(&mut self, src: &str, at: usize) -> usize
        requires idle { self.old.run ≡ [] }
        requires going { Going (chars src.now) src.now at self.old }
        requires short { length src.now ≤ 67108864 }
        ensures going { Going (chars src.now) src.now result self.new }
        ensures idle { self.new.run ≡ [] }
        ensures order { at ≤ result }
        ensures within { result ≤ length src.now }
        ensures still { result ≡ at → self.new ≡ self.old }
    {
        let end = spaces_end(src.as_bytes(), at);
        self.gap.end = end as u32;
        end
    }

    /// Takes the white space at the byte and the plain statement or `}` behind it, where no statement is in progress, and answers the
    /// byte behind what was taken, or `None` where nothing was. After an error the parser may not be used again.
    #[inline(always)]
    pub fn take_plain(&mut self, src: &'t str, at: usize) -> Result<Option<usize>, AllocError>
        requires going { Going (chars src.now) src.now at self.old }
        requires short { length src.now ≤ 67108864 }
        ensures { IfOk result (λ r. MatchOption r (self.new ≡ self.old) (λ next. (at < next) × (next ≤ length src.now) × Going (chars src.now) src.now next self.new)) }
    {
        if !self.run.as_slice().is_empty() {
            return Ok(None);
        }
        let from = self.skip_spaces(src, at);
        match self.take_statement(src, from)? {
            Some(next) => Ok(Some(next)),
            None if at < from => Ok(Some(from)),
            None => Ok(None),
        }
    }
}
