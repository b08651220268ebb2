// The mappings text of segments.
ghost use Rattle.std.specs.Prelude.{◌≡◌, ◌++◌, ◌≤◌, ◌↔◌, IfOk, IsTrue, OnOk, replicate};
ghost use Rattle.std.specs.List.Sorted.{IsNonDecreasingBy};
ghost use Rattle.std.specs.String.{string_bytes};
ghost use Rattle.source_map.specs.Vlq.{number_text};
ghost use Rattle.source_map.specs.Written.{difference, field_text, mappings_text, origin_text};
ghost use Rattle.source_map.specs.Running.{segment_text, separator};
ghost use Rattle.source_map.specs.Lines.{line_of};

use crate::last::Last;
use crate::segment::{Origin, Segment, SourceMap};
use crate::vlq::push_number;
use css_text::txt::Txt;
use std::alloc::{AllocError, Global};

// The number of a difference: its size, and its sign as the lowest bit.
fn difference(from: u32, to: u32) -> u64
    ensures { result ≡ difference from to }
{
    if from <= to {
        2 * (to - from) as u64
    } else {
        2 * (from - to) as u64 + 1
    }
}

fn push_field(text: &mut String, from: u32, to: u32) -> Result<(), AllocError>
    ensures { OnOk result (string_bytes text.new ≡ string_bytes text.old ++ field_text from to) }
{
    push_number(text, difference(from, to))
}

fn push_origin(text: &mut String, last: Origin, origin: Option<Origin>) -> Result<(), AllocError>
    ensures { OnOk result (string_bytes text.new ≡ string_bytes text.old ++ origin_text last origin) }
{
    if let Some(origin) = origin {
        push_field(text, last.source, origin.source)?;
        push_field(text, last.line, origin.line)?;
        push_field(text, last.column, origin.column)?;
    }
    Ok(())
}

fn push_segment(text: &mut String, last: &Last, segment: &Segment) -> Result<(), AllocError>
    ensures { OnOk result (string_bytes text.new ≡ string_bytes text.old ++ segment_text last.now segment.now) }
{
    push_field(text, last.column_on(segment.line), segment.column)?;
    push_origin(text, last.origin, segment.origin)
}

fn push_line_ends(text: &mut String, count: u32) -> Result<(), AllocError>
    ensures { OnOk result (string_bytes text.new ≡ string_bytes text.old ++ replicate count 59) }
{
    for written in 0..count {
        text.push(';')?;
    }
    Ok(())
}

fn push_separator(text: &mut String, last: &Last, line: u32) -> Result<(), AllocError>
    requires { last.now.line ≤ line }
    ensures { OnOk result (string_bytes text.new ≡ string_bytes text.old ++ separator last.now line) }
{
    if last.line != line {
        return push_line_ends(text, line - last.line);
    }
    if !last.is_first {
        text.push(',')?;
    }
    Ok(())
}

/// Whether the lines of these segments don't decrease, as `mappings` needs it.
pub fn lines_rise(segments: &[Segment]) -> bool
    ensures { IsTrue result ↔ IsNonDecreasingBy line_of segments.now }
{
    let mut i = 1;
    while i < segments.len() {
        if segments[i].line < segments[i - 1].line {
            return false;
        }
        i += 1;
    }
    true
}

/// The mappings text of a map, as the Source Map revision 3 text has it: lines separated by `;`, segments by
/// `,`, of one field or of four, each a number in Base64 VLQ with the fewest digits, and nothing behind the last
/// segment. The lines of the segments don't decrease. It refuses for want of memory alone.
pub fn mappings(alloc: Global, source_map: &SourceMap) -> Result<Txt, AllocError>
    requires { IsNonDecreasingBy line_of source_map.now.segments.items }
    ensures { IfOk result (λ text. text ≡ mappings_text source_map.now.segments.items) }
{
    let mut text = String::new(alloc);
    let mut last = Last::nothing_yet();
    for segment in &source_map.segments {
        push_separator(&mut text, &last, segment.line)?;
        push_segment(&mut text, &last, segment)?;
        last = last.after(segment);
    }
    Txt::from_string(alloc, text)
}
