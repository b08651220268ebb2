// A count and a mark, in less memory than they take beside each other.
ghost use Rattle.std.specs.Prelude.{◌≡◌, ◌<◌};
ghost use Rattle.node_rows.specs.Tally.{one_more, one_less, marked_as};

use std::marker::Model;

// The count of a node's children and its mark, in four bytes. Rows have at most 67,108,865 numbers, so a count leaves a bit of
// 32 free: the lowest one is the mark.
#[derive(Clone, Copy)]
pub(crate) struct Tally {
    bits: u32,
}

impl Model for Tally {
    ghost use Rattle.std.proofs.Common.{ap};
    ghost use Rattle.node_rows.specs.Tally.{CountAndMark, tally_of, bits_of, bits_of-tally_of};

    ghost Value = { CountAndMark };

    ghost view = { λ t. tally_of t.bits };

    ghost inverse = { λ c. record { bits = bits_of c } };

    ghost inverse_ok = { λ a h. ap (λ n. record { bits = n }) (bits_of-tally_of a.bits) };
}

const _: () = prove!(size_of::<Tally>() == 4);

impl Tally {
    #[inline(always)]
    pub(crate) fn new(count: u32, dirty: bool) -> Tally
        requires { count < 2147483648 }
        ensures { result ≡ record { count = count; dirty = dirty } }
    {
        Tally {
            bits: count * 2 + dirty as u32,
        }
    }

    #[inline(always)]
    pub(crate) fn count(self) -> u32
        ensures { result ≡ self.count }
    {
        self.bits / 2
    }

    #[inline(always)]
    pub(crate) fn is_dirty(self) -> bool
        ensures { result ≡ self.dirty }
    {
        self.bits % 2 == 1
    }

    #[inline(always)]
    pub(crate) fn add_one(&mut self)
        requires { self.old.count < 2147483647 }
        ensures { self.new ≡ one_more self.old }
    {
        self.bits += 2;
    }

    #[inline(always)]
    pub(crate) fn take_one(&mut self)
        requires { 0 < self.old.count }
        ensures { self.new ≡ one_less self.old }
    {
        self.bits -= 2;
    }

    #[inline(always)]
    pub(crate) fn set_dirty(&mut self, dirty: bool)
        ensures { self.new ≡ marked_as self.old dirty }
    {
        self.bits = self.bits / 2 * 2 + dirty as u32;
    }
}
