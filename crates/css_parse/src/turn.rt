// What a piece is to the statement or at-rule in progress, and the fault that it may be.
ghost use Rattle.std.specs.Prelude.{◌≡◌, ◌<◌, ◌≤◌, ℕ, List, [], reverse, length, map};
ghost use Rattle.css_tree.specs.Pieces.{Lexeme as Seen, shape};
ghost use Rattle.css_tree.specs.Turn.{Turn, awaits, idle, busy, is_custom, turn};
ghost use Rattle.css_tree.specs.Fault.{unknown, nameless, fits_by, fits_end, state};
ghost use Rattle.css_parse.specs.Shapes.{named};
ghost use Rattle.css_parse.specs.Steps.{IsStep, IsClosing, opening_of};

use crate::found::Found;
use crate::piece::{Piece, Shape};
use crate::run::Run;
use css_tree::fault::SyntaxKind;

/// What is done with a piece.
#[derive(Clone, Copy)]
pub enum Step {
    /// It is of the statement in progress, and awaits its closing piece.
    Await,
    /// It is of the statement in progress, and is what the innermost bracket awaits.
    Answer,
    /// It is of the statement in progress.
    Keep,
    /// It stands between nodes.
    Skip,
    /// It is a comment by itself.
    Comment,
    /// It ends the statement in progress.
    End,
    /// It closes a block.
    Close,
    /// It opens a block.
    Open,
}

/// A container around the open one: its number, and the `{` of the block that was opened in it.
#[derive(Drop)]
pub struct Frame<'t> {
    pub number: u32,
    pub opening: Piece<'t>,
}

fn awaits(opening: Shape, closing: Shape) -> bool
    ensures { result ≡ awaits (named opening) (named closing) }
{
    matches!(
        (opening, closing),
        (Shape::RoundOpen, Shape::RoundClose)
            | (Shape::SquareOpen, Shape::SquareClose)
            | (Shape::BraceOpen, Shape::BraceClose)
    )
}

/// With no statement in progress.
fn idle(shape: Shape) -> Step
    ensures { (p : Seen) → IsStep result (idle p (named shape)) [] p }
{
    match shape {
        Shape::Space | Shape::Semicolon => Step::Skip,
        Shape::Comment => Step::Comment,
        Shape::BraceClose => Step::Close,
        Shape::BraceOpen => Step::Open,
        Shape::RoundOpen | Shape::SquareOpen => Step::Await,
        _ => Step::Keep,
    }
}

/// What a closing bracket does.
fn close_bracket(awaited: &[Piece], shape: Shape) -> Step
    ensures { (p : Seen) → IsClosing result (reverse awaited.now) p (named shape) }
{
    match awaited {
        [] => Step::Keep,
        [.., last] => {
            if awaits(last.shape(), shape) {
                Step::Answer
            } else {
                Step::Keep
            }
        }
    }
}

/// With a statement in progress, a custom property or another.
fn busy(run: &Run, awaited: &[Piece], shape: Shape) -> Step
    ensures { (p : Seen) → IsStep result (busy (is_custom run.now) (reverse awaited.now) p (named shape)) (reverse awaited.now) p }
{
    match shape {
        Shape::RoundOpen | Shape::SquareOpen => Step::Await,
        Shape::RoundClose => close_bracket(awaited, shape),
        Shape::SquareClose => close_bracket(awaited, shape),
        Shape::BraceClose if awaited.is_empty() => Step::Close,
        Shape::BraceClose => close_bracket(awaited, shape),
        Shape::BraceOpen if run.is_custom() => Step::Await,
        Shape::BraceOpen if awaited.is_empty() => Step::Open,
        Shape::Semicolon if awaited.is_empty() => Step::End,
        _ => Step::Keep,
    }
}

/// What a piece of that shape is.
pub fn turn(run: &Run, awaited: &[Piece], form: Shape) -> Step
    requires { run.now ≡ [] → awaited.now ≡ [] }
    ensures { (p : Seen) → shape p ≡ named form → IsStep result (turn run.now (reverse awaited.now) p) (reverse awaited.now) p }
{
    if run.as_slice().is_empty() {
        idle(form)
    } else {
        busy(run, awaited, form)
    }
}

/// A statement in progress that may not end without a block.
fn unknown(run: &Run) -> Option<Found>
    ensures { result ≡ unknown run.now }
{
    match run.as_slice() {
        [] => None,
        [first, ..] => {
            if run.is_allowed() {
                None
            } else {
                Some(Found::new(SyntaxKind::UnknownWord, first.start()))
            }
        }
    }
}

/// An at-word without a name that begins an at-rule.
fn nameless(run: &[Piece], piece: &Piece) -> Option<Found>
    ensures { result ≡ nameless run.now piece.now }
{
    if !run.is_empty() {
        return None;
    }
    match piece.shape() {
        Shape::BareAt => Some(Found::new(SyntaxKind::AtRuleWithoutName, piece.start())),
        _ => None,
    }
}

/// The fault that is found first at a piece, inside so many blocks.
pub fn fits(depth: usize, run: &Run, piece: &Piece, step: Step) -> Option<Found>
    ensures { (o aw : List Seen) (t : Turn) → length o ≡ depth → IsStep step t aw piece.now → result ≡ fits_by o run.now piece.now t }
{
    match step {
        Step::Await | Step::Answer | Step::Keep => nameless(run.as_slice(), piece),
        Step::Skip | Step::Comment => None,
        Step::End => unknown(run),
        Step::Close => match unknown(run) {
            Some(fault) => Some(fault),
            None if depth == 0 => Some(Found::new(SyntaxKind::UnexpectedClose, piece.start())),
            None => None,
        },
        Step::Open if depth >= 200 => Some(Found::new(SyntaxKind::TooDeep, piece.start())),
        Step::Open => None,
    }
}

/// The fault that is found first at the end of the text.
pub fn fits_end(awaited: &[Piece], run: &Run, frames: &[Frame]) -> Option<Found>
    ensures { result ≡ fits_end (state (map opening_of (reverse frames.now)) (reverse awaited.now) run.now) }
{
    if let [first, ..] = awaited {
        return Some(Found::new(SyntaxKind::UnclosedBracket, first.start()));
    }
    if let Some(fault) = unknown(run) {
        return Some(fault);
    }
    match frames {
        [] => None,
        [.., last] => Some(Found::new(SyntaxKind::UnclosedBlock, last.opening.start())),
    }
}
