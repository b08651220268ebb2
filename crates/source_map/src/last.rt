// What the fields of a segment are relative to.
ghost use Rattle.std.specs.Prelude.{◌≡◌};
ghost use Rattle.source_map.specs.Running.{after, last_column, nothing_yet};

use crate::segment::{Origin, Segment};

/// The line, whether no segment stands on it yet, the last column on it, and the last origin.
#[derive(Clone, Copy, PartialEq, Eq, Debug)]
pub struct Last {
    pub line: u32,
    pub is_first: bool,
    pub column: u32,
    pub origin: Origin,
}

impl Last {
    /// At the text's start.
    pub fn nothing_yet() -> Last
        ensures { result ≡ nothing_yet }
    {
        Last {
            line: 0,
            is_first: true,
            column: 0,
            origin: Origin {
                source: 0,
                line: 0,
                column: 0,
            },
        }
    }

    /// The column that a column on that line is relative to.
    pub fn column_on(&self, line: u32) -> u32
        ensures { result ≡ last_column self.now line }
    {
        if self.line == line { self.column } else { 0 }
    }

    /// Behind that segment.
    pub fn after(&self, segment: &Segment) -> Last
        ensures { result ≡ after self.now segment.now }
    {
        Last {
            line: segment.line,
            is_first: false,
            column: segment.column,
            origin: segment.origin.unwrap_or(self.origin),
        }
    }
}
