// Segments from a mappings text.
ghost use Rattle.std.specs.Prelude.{◌≡◌, ◌+◌, ◌<◌, ◌≤◌, ◌^◌, ◌∷◌, [], length};
ghost use Rattle.source_map.specs.Answers.{Answers, AnswersList, IsSlotEnd, ReadsSlot, line_behind};
ghost use Rattle.source_map.specs.Decode.{decode, is_separator, moved, moved_origin};
ghost use Rattle.source_map.specs.Running.{segment_from, segment_in};

use crate::last::Last;
use crate::segment::{MapFault, Origin, Segment};
use crate::vlq::put_numbers;
use css_text::stop::Stop;
use std::alloc::Global;

// What a field gives, from what it is relative to.
fn moved(from: u32, number: u64) -> Option<u32>
    ensures { result ≡ moved from number }
{
    let size = number / 2;
    if number % 2 == 1 {
        if size <= from as u64 {
            Some((from as u64 - size) as u32)
        } else {
            None
        }
    } else {
        let to = from as u64 + size;
        if to < 4294967296 {
            Some(to as u32)
        } else {
            None
        }
    }
}

fn moved_origin(last: Origin, source: u64, line: u64, column: u64) -> Option<Origin>
    ensures { result ≡ moved_origin last source line column }
{
    match (
        moved(last.source, source),
        moved(last.line, line),
        moved(last.column, column),
    ) {
        (Some(source), Some(line), Some(column)) => Some(Origin {
            source,
            line,
            column,
        }),
        _ => None,
    }
}

fn plain_segment(last: &Last, line: u32, column: u64) -> Option<Segment>
    ensures { result ≡ segment_from last.now line (column ∷ []) }
{
    match moved(last.column_on(line), column) {
        Some(column) => Some(Segment {
            line,
            column,
            origin: None,
        }),
        None => None,
    }
}

fn full_segment(
    last: &Last,
    line: u32,
    column: u64,
    source: u64,
    source_line: u64,
    source_column: u64,
) -> Option<Segment>
    ensures { result ≡ segment_from last.now line (column ∷ source ∷ source_line ∷ source_column ∷ []) }
{
    match (
        moved(last.column_on(line), column),
        moved_origin(last.origin, source, source_line, source_column),
    ) {
        (Some(column), Some(origin)) => Some(Segment {
            line,
            column,
            origin: Some(origin),
        }),
        _ => None,
    }
}

// The segment of one, four or five fields.
fn segment_from(last: &Last, line: u32, fields: &[u64]) -> Option<Segment>
    ensures { result ≡ segment_from last.now line fields.now }
{
    match fields {
        [column] => plain_segment(last, line, *column),
        [column, source, source_line, source_column] => full_segment(
            last,
            line,
            *column,
            *source,
            *source_line,
            *source_column,
        ),
        [column, source, source_line, source_column, _] => full_segment(
            last,
            line,
            *column,
            *source,
            *source_line,
            *source_column,
        ),
        _ => None,
    }
}

// The segment of a slot that begins at the byte `at`. The list is for its fields.
fn read_segment(
    slot: &[u8],
    at: u32,
    line: u32,
    last: &Last,
    fields: &mut Vec<u64>,
) -> Result<Segment, Stop<MapFault>>
    requires { at + length slot.now < 2 ^ 32 }
    ensures { Answers (segment_in last.now (record { line = line; at = at; text = slot.now })) result }
{
    match put_numbers(slot, at, fields) {
        Ok(()) => {}
        Err(stop) => return Err(stop),
    }
    match segment_from(last, line, fields.as_slice()) {
        Some(segment) => Ok(segment),
        None => Err(Stop::Fault(MapFault {
            at: at + slot.len() as u32,
        })),
    }
}

fn is_separator(byte: u8) -> bool
    ensures { result ≡ is_separator byte }
{
    byte == b',' || byte == b';'
}

// Where the slot that begins there ends.
fn slot_end(text: &[u8], from: usize) -> usize
    requires { from ≤ length text.now }
    ensures { IsSlotEnd text.now from result }
{
    let mut end = from;
    while end < text.len() && !is_separator(text[end]) {
        end += 1;
    }
    end
}

// The line behind the separator at that place, if there is one.
fn line_behind(text: &[u8], line: u32, end: usize) -> u32
    requires { end < length text.now → line + 1 < 2 ^ 32 }
    ensures { result ≡ line_behind text.now line end }
{
    if end < text.len() && text[end] == b';' {
        line + 1
    } else {
        line
    }
}

// Reads a slot that begins at the byte `at` behind these segments.
fn read_slot(
    slot: &[u8],
    at: u32,
    line: u32,
    last: &mut Last,
    fields: &mut Vec<u64>,
    segments: &mut Vec<Segment>,
) -> Result<(), Stop<MapFault>>
    requires { at + length slot.now < 2 ^ 32 }
    ensures { ReadsSlot (record { line = line; at = at; text = slot.now }) last.old last.new segments.old.items segments.new.items result }
{
    if slot.is_empty() {
        return Ok(());
    }
    let segment = match read_segment(slot, at, line, last, fields) {
        Ok(segment) => segment,
        Err(stop) => return Err(stop),
    };
    *last = last.after(&segment);
    match segments.push(segment) {
        Ok(()) => Ok(()),
        Err(error) => Err(Stop::Memory(error.into())),
    }
}

/// The segments that a mappings text stands for, as the Source Map revision 3 text has it: one for each slot
/// between separators that isn't empty, of one, four or five fields, of which the fifth is ignored. A fault
/// tells the first byte, counted from 0, at which the text is no mappings text: a character that is no digit
/// and no separator, the eighth digit of a number, the end of a slot within a number, or the end of a slot
/// with another count of fields or with a value that is no number of 32 bits.
pub fn read_mappings(alloc: Global, text: &str) -> Result<Vec<Segment>, Stop<MapFault>>
    requires { length text.now < 2 ^ 32 }
    ensures { AnswersList (decode text.now) result }
{
    let bytes = text.as_bytes();
    let mut segments = Vec::new(alloc);
    let mut fields = Vec::new(alloc);
    let mut last = Last::nothing_yet();
    let mut line = 0u32;
    let mut at = 0usize;
    while at <= bytes.len() {
        let end = slot_end(bytes, at);
        match read_slot(
            &bytes[at..end],
            at as u32,
            line,
            &mut last,
            &mut fields,
            &mut segments,
        ) {
            Ok(()) => {}
            Err(stop) => return Err(stop),
        }
        line = line_behind(bytes, line, end);
        at = end + 1;
    }
    Ok(segments)
}
