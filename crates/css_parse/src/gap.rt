// The text since the last node.
ghost use Rattle.std.specs.Prelude.{◌≡◌};

/// The text since the last node, white space and `;`: the part of the sheet from one byte up to another.
#[derive(Clone, Copy)]
pub struct Gap {
    pub start: u32,
    pub end: u32,
}

impl Gap {
    /// The empty one at that byte.
    pub fn at(byte: u32) -> Gap
        ensures { result ≡ record { start = byte; end = byte } }
    {
        Gap {
            start: byte,
            end: byte,
        }
    }
}
