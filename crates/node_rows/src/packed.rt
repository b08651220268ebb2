// A node's number and a span, each of which may be absent, in less memory than an option takes.
ghost use Rattle.std.specs.Prelude.{◌≡◌, ◌<◌, true, false, Some, None, MatchResult};
ghost use Rattle.node_rows.specs.Ends.{some_ended};
ghost use Rattle.node_rows.specs.Packed.{is_narrow};

use css_text::lexer::Span;
use std::alloc::AllocError;
use std::marker::Model;

// The number of a node, or none, in four bytes. Rows have at most 67,108,865 numbers, so the highest one of 32 bits is free
// to stand for none.
#[derive(Clone, Copy)]
pub(crate) struct Link {
    number: u32,
}

impl Model for Link {
    ghost use Rattle.std.specs.Prelude.{ℕ, Option};
    ghost use Rattle.std.proofs.Common.{ap};
    ghost use Rattle.node_rows.specs.Packed.{packed, unpacked, packed-unpacked};

    ghost Value = { Option ℕ };

    ghost view = { λ l. unpacked l.number };

    ghost inverse = { λ o. record { number = packed o } };

    ghost inverse_ok = { λ a h. ap (λ n. record { number = n }) (packed-unpacked a.number) };
}

const _: () = prove!(size_of::<Link>() == 4);

impl Link {
    #[inline(always)]
    pub(crate) fn none() -> Link
        ensures { result ≡ None }
    {
        Link { number: u32::MAX }
    }

    #[inline(always)]
    pub(crate) fn some(number: u32) -> Link
        requires { number < 4294967295 }
        ensures { result ≡ Some number }
    {
        Link { number }
    }

    // The number, where there is one.
    #[inline(always)]
    pub(crate) fn get(self) -> Option<u32>
        ensures { result ≡ self }
    {
        if self.number == u32::MAX {
            None
        } else {
            Some(self.number)
        }
    }
}

/// A span, or none, in eight bytes: the highest number of 32 bits as the start stands for none. A clause sees the span.
#[derive(Drop)]
pub struct PackedSpan {
    start: u32,
    end: u32,
}

impl Model for PackedSpan {
    ghost use Rattle.std.specs.Prelude.{Option};
    ghost use Rattle.css_text.specs.declared.lexer.Span.{Span};
    ghost use Rattle.node_rows.specs.Packed.{unpacked_span};

    ghost Value = { Option Span };

    ghost view = { λ s. unpacked_span s.start s.end };
}

const _: () = prove!(size_of::<PackedSpan>() == 8);

impl PackedSpan {
    /// The span in eight bytes. One whose start or end is above 4,294,967,294 counts as want of memory.
    #[inline(always)]
    pub fn new(span: Option<Span>) -> Result<PackedSpan, AllocError>
        ensures { MatchResult result (λ packed. (packed ≡ span) × (is_narrow span ≡ true)) (λ _. is_narrow span ≡ false) }
    {
        match span {
            None => Ok(PackedSpan {
                start: u32::MAX,
                end: 0,
            }),
            Some(Span { start, end }) => {
                if start >= u32::MAX as usize || end >= u32::MAX as usize {
                    return Err(AllocError);
                }
                Ok(PackedSpan {
                    start: start as u32,
                    end: end as u32,
                })
            }
        }
    }

    /// The span, where there is one.
    #[inline(always)]
    pub fn get(&self) -> Option<Span>
        ensures { result ≡ self.now }
    {
        if self.start == u32::MAX {
            None
        } else {
            Some(Span {
                start: self.start as usize,
                end: self.end as usize,
            })
        }
    }

    // Lets the span, where there is one, end there.
    #[inline(always)]
    pub(crate) fn set_end(&mut self, end: u32)
        ensures { self.new ≡ some_ended end self.old }
    {
        self.end = end;
    }
}
