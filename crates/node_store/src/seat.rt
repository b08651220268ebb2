// An open cursor, as the store keeps it.
ghost use Rattle.std.specs.Prelude.{◌≡◌};

/// A cursor's container, and the last child that it has passed; none where it has passed none.
#[derive(Clone, Copy)]
pub struct Seat {
    pub(crate) container: u32,
    pub(crate) last: Option<u32>,
}
