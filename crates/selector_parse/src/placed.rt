// What parsing gives, and why it stops.
use crate::part::{Args, Complex, Part};
use crate::phase::Phase;
use std::alloc::AllocError;

/// Why parsing stops: at a byte with which no list of selectors goes on, or for want of memory.
#[derive(Drop)]
pub enum Failure {
    At(usize),
    Memory(AllocError),
}

impl From<AllocError> for Failure {
    ghost use Rattle.std.specs.Prelude.{◌≡◌};
    ghost use Rattle.selector_parse.specs.declared.placed.Failure.TheVariants.{Memory};

    ghost from_gives = { λ error e. e ≡ Memory error };

    fn from(e: AllocError) -> Failure {
        Failure::Memory(e)
    }
}

/// Arguments, and the byte where they end.
#[derive(Drop)]
pub struct Arguments {
    pub args: Args,
    pub end: usize,
}

/// A part, the byte where it ends, and what may follow it.
#[derive(Drop)]
pub struct Placed {
    pub part: Part,
    pub end: usize,
    pub phase: Phase,
}

/// The parts of a complex selector, and the byte where it ends.
#[derive(Drop)]
pub struct Row {
    pub parts: Vec<Part>,
    pub end: usize,
}

/// A list, and the byte where it ends.
#[derive(Drop)]
pub struct Listed {
    pub list: Vec<Complex>,
    pub end: usize,
}
