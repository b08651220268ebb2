// The pieces of the statement or at-rule in progress.
ghost use Rattle.std.specs.Prelude.{◌≡◌, [], ◌∷◌, ◌++◌, IfOk};
ghost use Rattle.css_tree.specs.Turn.{is_custom, is_allowed};
ghost use Rattle.css_parse.specs.Head.{head_step, is_colon};
ghost use Rattle.css_parse.specs.Shapes.{named};

use crate::piece::{Piece, Shape};
use std::alloc::{AllocError, Global};
use std::marker::Model;

/// What is known of the pieces behind the first: blanks alone so far, a colon behind blanks, or another piece.
#[derive(Clone, Copy)]
pub enum Head {
    Blank,
    Colon,
    Other,
}

/// The pieces of the statement or at-rule in progress, none where nothing is.
#[derive(Drop)]
pub struct Run<'t> {
    pieces: Vec<Piece<'t>>,
    head: Head,
}

impl<'t> Model for Run<'t> {
    ghost use Rattle.std.specs.Prelude.{◌≡◌, List};
    ghost use Rattle.css_tree.specs.Pieces.{Lexeme as Seen};
    ghost use Rattle.css_parse.specs.Head.{head_of, behind};

    ghost Value = { List Seen };

    ghost view = { λ r. r.pieces.items };

    ghost invariant = { λ r. r.head ≡ head_of (behind r.pieces.items) };
}

fn head_step(head: Head, shape: Shape) -> Head
    ensures { result ≡ head_step head (named shape) }
{
    match head {
        Head::Blank => match shape {
            Shape::Space | Shape::Comment => Head::Blank,
            Shape::Colon => Head::Colon,
            _ => Head::Other,
        },
        _ => head,
    }
}

fn is_colon(head: Head) -> bool
    ensures { result ≡ is_colon head }
{
    matches!(head, Head::Colon)
}

impl<'t> Run<'t> {
    /// No pieces.
    #[tactic(auto, using(std::proofs::lemmas::Grind::common_steps, crate::proofs::Heads::head_steps), unfolding(crate::specs::Head::head_of))]
    pub fn new(alloc: Global) -> Run<'t>
        ensures { result ≡ [] }
    {
        Run {
            pieces: Vec::new(alloc),
            head: Head::Blank,
        }
    }

    /// One more piece. It fails for want of memory alone.
    #[tactic(auto, using(std::proofs::lemmas::Grind::common_steps, crate::proofs::Heads::head_steps), unfolding(crate::specs::Head::head_of))]
    pub fn push(&mut self, piece: Piece<'t>) -> Result<(), AllocError>
        ensures { IfOk result (λ _. self.new ≡ self.old ++ piece.entry ∷ []) }
    {
        let first = self.pieces.is_empty();
        let shape = piece.shape();
        self.pieces.push(piece)?;
        if !first {
            self.head = head_step(self.head, shape);
        }
        Ok(())
    }

    /// Drops the pieces, and keeps their room.
    #[tactic(auto, using(std::proofs::lemmas::Grind::common_steps, crate::proofs::Heads::head_steps), unfolding(crate::specs::Head::head_of))]
    pub fn clear(&mut self)
        ensures { self.new ≡ [] }
    {
        self.pieces.clear();
        self.head = Head::Blank;
    }

    /// The pieces in the order of the text.
    pub fn as_slice(&self) -> &[Piece<'t>]
        ensures { result.now ≡ self.now }
    {
        &self.pieces
    }

    /// They begin a custom property: a word that begins `--`, and its colon.
    #[tactic(auto, using(crate::proofs::Heads::head_steps), unfolding(css_tree::specs::Turn::is_custom))]
    pub fn is_custom(&self) -> bool
        ensures { result ≡ is_custom self.now }
    {
        match &self.pieces[..] {
            [] => false,
            [first, ..] => first.is_word() && first.begins_dashes() && is_colon(self.head)
        }
    }

    /// They may end without a block: nothing, an at-rule, or a word with its colon.
    #[tactic(auto, using(crate::proofs::Heads::head_steps), unfolding(css_tree::specs::Turn::is_allowed))]
    pub fn is_allowed(&self) -> bool
        ensures { result ≡ is_allowed self.now }
    {
        match &self.pieces[..] {
            [] => true,
            [first, ..] => match first.shape() {
                Shape::AtName => true,
                Shape::Word => is_colon(self.head),
                _ => false,
            },
        }
    }
}
