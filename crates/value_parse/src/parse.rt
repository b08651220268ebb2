// Parsing a value.
ghost use Rattle.std.specs.Prelude.{◌≡◌, ◌==◌, ◌&&◌, ◌+◌, ◌-◌, ◌≤◌, ◌<◌, IfOk, true, false, drop, length, slice_index, nat_lt, take};
ghost use Rattle.std.specs.Str.{chars, IsUtf8, IsCharBoundary};
ghost use Rattle.css_text.specs.ValueParts.{function, none, value, written, IsValue};
ghost use Rattle.value_parse.specs.Tree.{form_of, before, parts_of};
ghost use Rattle.value_parse.specs.Row.{IsRow, IsWholeRow, name_end as name_end_of};

use crate::part::{ValueKind, ValuePart};
use crate::scan::part_at;
use css_text::scan::byte_at;
use css_text::txt::Txt;
use std::alloc::{AllocError, Global};

/// At most so many Functions stand inside one another; a `(` inside them all is a Mark.
const MOST_DEPTH: usize = 100;

/// Parts side by side, and the byte where they end.
#[derive(Drop)]
struct Row {
    parts: Vec<ValuePart>,
    end: usize,
}

impl Row {
    fn into_parts(self) -> Vec<ValuePart>
        ensures { result.items ≡ self.parts.items }
    {
        self.parts
    }
}

/// A part, and the byte where it ends.
#[derive(Drop)]
struct Placed {
    part: ValuePart,
    end: usize,
}

/// Where the name of a Function ends that would begin with this part.
fn name_end(kind: ValueKind, at: usize, end: usize) -> usize
    ensures { result ≡ name_end_of (form_of kind) at end }
{
    match kind {
        ValueKind::Word => end,
        _ => at,
    }
}

/// At the index stands a `(` that begins a Function, inside so many Functions.
fn opens(s: &[u8], at: usize, depth: usize) -> bool
    ensures { result ≡ (nat_lt depth 100 && slice_index s.now at == 40) }
{
    depth < MOST_DEPTH && byte_at(s, at) == b'('
}

/// At the index stands a `)` that closes one of so many Functions.
fn closes(s: &[u8], at: usize, depth: usize) -> bool
    ensures { result ≡ (nat_lt 0 depth && slice_index s.now at == 41) }
{
    depth > 0 && byte_at(s, at) == b')'
}

/// A part that is no Function.
fn plain_part(
    alloc: Global,
    src: &str,
    kind: ValueKind,
    at: usize,
    end: usize,
) -> Result<ValuePart, AllocError>
    requires order { at ≤ end }
    requires low { IsCharBoundary src.now at }
    requires high { IsCharBoundary src.now end }
    ensures { IfOk result (λ p. before p none
        ≡ value (form_of kind) at (chars (take (end - at) (drop at src.now))) none true none) }
{
    let text = Txt::new(alloc, &src[at..end])?;
    Ok(ValuePart {
        kind,
        at,
        text,
        inner: Vec::new(alloc),
        closed: true,
    })
}

/// A Function, by its name and the parts inside it.
fn function_part(
    alloc: Global,
    src: &str,
    at: usize,
    end: usize,
    inner: Vec<ValuePart>,
    closed: bool,
) -> Result<ValuePart, AllocError>
    requires order { at ≤ end }
    requires low { IsCharBoundary src.now at }
    requires high { IsCharBoundary src.now end }
    ensures { IfOk result (λ p. before p none
        ≡ value function at (chars (take (end - at) (drop at src.now))) (parts_of inner.items) closed none) }
{
    let text = Txt::new(alloc, &src[at..end])?;
    Ok(ValuePart {
        kind: ValueKind::Function,
        at,
        text,
        inner,
        closed,
    })
}

/// The part at the byte `at`, inside so many Functions. There stands no `)` that closes one of them.
#[cycle(parts)]
fn part_from(alloc: Global, src: &str, at: usize, depth: usize) -> Result<Placed, AllocError>
    requires utf8 { IsUtf8 src.now }
    requires boundary { IsCharBoundary src.now at }
    requires within { at < length src.now }
    requires depth { depth ≤ 100 }
    requires open { (nat_lt 0 depth && slice_index src.now at == 41) ≡ false }
    ensures row { IfOk result (λ p. IsRow src.now at depth (before p.part none) p.end) }
    ensures longer { IfOk result (λ p. at < p.end) }
{
    let bytes = src.as_bytes();
    let (kind, end) = part_at(bytes, at);
    let name = name_end(kind, at, end);
    if !opens(bytes, name, depth) {
        let part = plain_part(alloc, src, kind, at, end)?;
        return Ok(Placed { part, end });
    }
    let inside = parts_from(alloc, src, name + 1, depth + 1)?;
    let closed = inside.end < bytes.len();
    let part = function_part(alloc, src, at, name, inside.parts, closed)?;
    Ok(Placed {
        part,
        end: inside.end + usize::from(closed),
    })
}

/// The parts from the byte `start` on, inside so many Functions: up to the `)` that closes the innermost of them, or to the
/// end of the text.
#[cycle(parts)]
fn parts_from(alloc: Global, src: &str, start: usize, depth: usize) -> Result<Row, AllocError>
    requires utf8 { IsUtf8 src.now }
    requires boundary { IsCharBoundary src.now start }
    requires depth { depth ≤ 100 }
    ensures { IfOk result (λ r. IsWholeRow src.now start depth (parts_of r.parts.items) r.end) }
{
    let bytes = src.as_bytes();
    let mut parts = Vec::new(alloc);
    let mut end = start;
    while end < bytes.len() {
        if closes(bytes, end, depth) {
            return Ok(Row { parts, end });
        }
        let next = part_from(alloc, src, end, depth)?;
        parts.push(next.part)?;
        end = next.end;
    }
    Ok(Row { parts, end })
}

/// The parts of a value: side by side, and the parts inside each Function in its `inner`. Every text is a value, and its parts
/// print to it again (`print_value`). At each place the first form that fits is taken, in the order of `ValueKind`, with a
/// Function before a Mark or a Word; a form without its end runs to the end of the text. The only error is want of memory.
///
/// A byte order mark at the start is a Word's character like any other.
pub fn parse_value(alloc: Global, src: &str) -> Result<Vec<ValuePart>, AllocError>
    ensures parts { IfOk result (λ parts. IsValue (chars src.now) (parts_of parts.items)) }
    ensures source { IfOk result (λ parts. written (parts_of parts.items) ≡ chars src.now) }
{
    let row = parts_from(alloc, src, 0, 0)?;
    Ok(row.into_parts())
}
