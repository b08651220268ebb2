// Where lists, complex selectors and arguments end.
ghost use Rattle.std.specs.Prelude.{◌≡◌, ◌==◌, ◌&&◌, ◌≤◌, length, slice_index};
ghost use Rattle.selector_parse.specs.Reading.{is_final as is_final_of};
ghost use Rattle.selector_parse.specs.Row.{reads_blanks as reads_blanks_of, is_blank_list as is_blank_list_of, closes as closes_of, list_stops as list_stops_of, stops as stops_of};

use crate::reading::{Gap, Reading};
use crate::scan::scan;
use css_text::scan::byte_at;

/// At the index stands a `)` that closes one of so many parentheses.
pub fn closes(s: &[u8], at: usize, depth: usize) -> bool
    ensures { result ≡ closes_of s.now at depth }
{
    depth > 0 && byte_at(s, at) == b')'
}

/// A list ends at the index.
pub fn list_stops(s: &[u8], at: usize, depth: usize) -> bool
    ensures { result ≡ list_stops_of s.now at depth }
{
    at >= s.len() || closes(s, at, depth)
}

/// A complex selector ends at the index.
pub fn stops(s: &[u8], at: usize, depth: usize) -> bool
    ensures { result ≡ stops_of s.now at depth }
{
    byte_at(s, at) == b',' || list_stops(s, at, depth)
}

/// White space and comments have been read.
pub fn reads_blanks(reading: Reading) -> bool
    ensures { result ≡ reads_blanks_of reading }
{
    matches!(reading, Reading::Blank(Gap::Comments | Gap::Spaced))
}

/// From the byte `from` on stand blanks alone, up to a `)`.
pub fn is_blank_list(s: &[u8], from: usize) -> bool
    requires { from ≤ length s.now }
    ensures { result ≡ is_blank_list_of s.now from }
{
    let (end, reading) = scan(s, from, Reading::Blank(Gap::Comments));
    reads_blanks(reading) && byte_at(s, end) == b')'
}

/// A part that has been read ends at the index, and a `)` follows.
pub fn is_closed(s: &[u8], end: usize, reading: Reading) -> bool
    ensures { result ≡ (is_final_of reading && slice_index s.now end == 41) }
{
    reading.is_final() && byte_at(s, end) == b')'
}

/// The simple selector from the byte `at` to the byte `end` has arguments.
pub fn has_arguments(s: &[u8], at: usize, end: usize) -> bool
    ensures { result ≡ (slice_index s.now at == 58 && slice_index s.now end == 40) }
{
    byte_at(s, at) == b':' && byte_at(s, end) == b'('
}
