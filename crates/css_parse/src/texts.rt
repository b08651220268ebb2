// The texts of runs of pieces.
ghost use Rattle.std.specs.Prelude.{◌≡◌, ◌≤◌, [], length, take, drop, IfOk};
ghost use Rattle.std.specs.Str.{chars};
ghost use Rattle.css_text.specs.Shared.{part, IsPart};
ghost use Rattle.css_tree.specs.Pieces.{join, is_blank, last_end};
ghost use Rattle.css_tree.specs.Clean.{clean_of};
ghost use Rattle.css_tree.proofs.Split.{solid, tail, lead, unlead};
ghost use Rattle.css_parse.specs.Standing.{sheet, AreParts};

use crate::piece::{Piece, Shape};
use css_text::txt::Txt;
use css_tree::clean::clean_text;
use css_tree::node::Source;
use std::alloc::{AllocError, Global};

/// Where the texts of nodes come from: parts of the sheet, and memory for the clean texts that differ from their sources.
#[derive(Clone, Copy)]
pub struct Texts<'t> {
    pub alloc: Global,
    pub sheet: &'t Txt,
}

impl<'t> Texts<'t> {
    /// The part of the sheet from one byte up to another.
    pub fn part(&self, start: u32, end: u32) -> Result<Txt, AllocError>
        requires { IsPart (sheet self.now) start end }
        ensures { IfOk result (λ t. t ≡ chars (part (sheet self.now) start end)) }
    {
        self.sheet.part(start, end)
    }

    /// The empty text.
    pub fn empty(&self) -> Result<Txt, AllocError>
        ensures { IfOk result (λ t. t ≡ []) }
    {
        self.part(0, 0)
    }
}

/// The byte behind pieces, or else that one.
pub fn last_end(byte: u32, pieces: &[Piece]) -> u32
    ensures { result ≡ last_end byte pieces.now }
{
    match pieces {
        [] => byte,
        [.., last] => last.end(),
    }
}

/// The text of the pieces.
pub fn text_of(texts: Texts, pieces: &[Piece]) -> Result<Txt, AllocError>
    requires { AreParts (sheet texts) pieces.now }
    ensures { IfOk result (λ t. t ≡ join pieces.now) }
{
    match pieces {
        [] => texts.empty(),
        [first, ..] => {
            let start = first.start();
            texts.part(start, last_end(start, pieces))
        }
    }
}

/// A field with this source.
pub fn source_of(alloc: Global, source: Txt) -> Result<Source, AllocError>
    ensures { IfOk result (λ s. s ≡ record { source = source; clean = clean_of source }) }
{
    let clean = clean_text(alloc, &source)?;
    Ok(Source { source, clean })
}

/// White space or a comment.
#[tactic(auto, unfolding(css_tree::specs::Pieces::is_blank))]
fn is_blank(piece: &Piece) -> bool
    ensures { result ≡ is_blank piece.now }
{
    matches!(piece.shape(), Shape::Space | Shape::Comment)
}

/// How many blanks the pieces begin with.
pub fn lead_len(pieces: &[Piece]) -> usize
    ensures front { take result pieces.now ≡ lead pieces.now }
    ensures back { drop result pieces.now ≡ unlead pieces.now }
    ensures within { result ≤ length pieces.now }
{
    for (i, piece) in pieces.iter().enumerate() {
        if !is_blank(piece) {
            return i;
        }
    }
    pieces.len()
}

/// How many pieces stand before the trailing blanks.
pub fn solid_len(pieces: &[Piece]) -> usize
    ensures front { take result pieces.now ≡ solid pieces.now }
    ensures back { drop result pieces.now ≡ tail pieces.now }
    ensures within { result ≤ length pieces.now }
{
    let mut len = pieces.len();
    while len > 0 {
        if !is_blank(&pieces[len - 1]) {
            return len;
        }
        len -= 1;
    }
    0
}
