// Parsing selectors.
ghost use Rattle.std.specs.Prelude.{◌≡◌, ◌==◌, ◌&&◌, ◌+◌, ◌-◌, ◌≤◌, ◌<◌, ◌^◌, IfOk, IfErr, OnOk, ◌++◌, ◌∷◌, [], true, false, drop, length, map, take, slice_index, Some, None};
ghost use Rattle.std.specs.Str.{chars, IsUtf8, IsCharBoundary};
ghost use Rattle.selector_parse.specs.Reading.{scan_len, scan_last, is_final as is_final_of};
ghost use Rattle.selector_parse.specs.Tree.{made, part_before, complex_before, args_of, none, tree_of, in_turn, with_commas, written, absent, text as plain_text};
ghost use Rattle.selector_parse.specs.Grammar.{Selects};
ghost use Rattle.selector_parse.specs.Phases.{comment_next, may_end as may_end_of};
ghost use Rattle.selector_parse.specs.Fault.{Stops};
ghost use Rattle.selector_parse.specs.Worth.{deepest, depth_of_args, depth_of_part, depth_of_complex, depth_of_list};
ghost use Rattle.selector_parse.specs.Row.{IsRow, IsEnded, IsArguments, IsClosedText, IsListText, IsInsideRun, OnlyMemory, Halts, NameHalts, ListHalts, TextHalts, gap_choice, takes_gap, reads_blanks as reads_blanks_of, is_blank_list as is_blank_list_of, complex_parts, list_parts, closes as closes_of, list_stops as list_stops_of, stops as stops_of};

use crate::bare::{comment_from, gap_part, make_part};
use crate::ends::{has_arguments, is_blank_list, is_closed, list_stops, stops};
use crate::names::{kind_of, takes_list};
use crate::part::{Args, Complex, Part, PartKind, SelectorFault, Selectors};
use crate::phase::Phase;
use crate::placed::{Arguments, Failure, Listed, Placed, Row};
use crate::reading::{Gap, Reading, Within};
use crate::scan::scan;
use css_text::scan::byte_at;
use css_text::stop::Stop;
use css_text::txt::Txt;
use std::alloc::{AllocError, Global};

/// At most so many parentheses are open at once.
const MOST_DEPTH: usize = 100;

/// One more after the others.
fn push<T: Drop>(list: &mut Vec<T>, item: T) -> Result<(), AllocError>
    ensures { OnOk result (list.new.items ≡ list.old.items ++ item ∷ []) }
{
    list.push(item)?;
    Ok(())
}

/// Arguments that are no list, from the byte `from` after their `(`.
fn plain_arguments(
    alloc: Global,
    src: &str,
    from: usize,
    start: Reading,
) -> Result<Arguments, Failure>
    requires utf8 { IsUtf8 src.now }
    requires boundary { IsCharBoundary src.now from }
    ensures row { IfOk result (λ a. IsClosedText src.now from start (args_of a.args) a.end) }
    ensures halt { IfErr result (λ e. TextHalts src.now from start e) }
    ensures flat { IfOk result (λ a. depth_of_args a.args ≡ 0) }
{
    let bytes = src.as_bytes();
    let (end, reading) = scan(bytes, from, start);
    if !is_closed(bytes, end, reading) {
        return Err(Failure::At(end));
    }
    let text = Txt::new(alloc, &src[from..end])?;
    Ok(Arguments {
        args: Args::Plain(text),
        end: end + 1,
    })
}

/// Arguments that are a list, or blanks alone, from the byte `from` after their `(`.
#[cycle(parse)]
fn list_arguments(alloc: Global, src: &str, from: usize, depth: usize) -> Result<Arguments, Failure>
    requires utf8 { IsUtf8 src.now }
    requires small { length src.now < 2 ^ 32 }
    requires boundary { IsCharBoundary src.now from }
    requires depth { depth ≤ 100 }
    requires inside { 0 < depth }
    ensures row { IfOk result (λ a. IsListText src.now from depth (args_of a.args) a.end) }
    ensures halt { IfErr result (λ e. ListHalts src.now from depth e) }
    ensures shallow { IfOk result (λ a. depth + depth_of_args a.args ≤ 101) }
{
    let bytes = src.as_bytes();
    if is_blank_list(bytes, from) {
        return plain_arguments(alloc, src, from, Reading::Blank(Gap::Comments));
    }
    let inside = list_from(alloc, src, from, depth)?;
    if byte_at(bytes, inside.end) != b')' {
        return Err(Failure::At(inside.end));
    }
    Ok(Arguments {
        args: Args::List(Selectors { list: inside.list }),
        end: inside.end + 1,
    })
}

/// The arguments after the simple selector that stands from the byte `at` to the byte `end`, inside so many parentheses.
#[cycle(parse)]
fn arguments_from(
    alloc: Global,
    src: &str,
    at: usize,
    end: usize,
    depth: usize,
) -> Result<Arguments, Failure>
    requires utf8 { IsUtf8 src.now }
    requires small { length src.now < 2 ^ 32 }
    requires order { at < end }
    requires low { IsCharBoundary src.now at }
    requires high { IsCharBoundary src.now end }
    requires depth { depth ≤ 100 }
    ensures row { IfOk result (λ a. IsArguments src.now end depth (chars (take (end - at) (drop at src.now))) (args_of a.args) a.end) }
    ensures halt { IfErr result (λ e. NameHalts src.now end depth (chars (take (end - at) (drop at src.now))) e) }
    ensures shallow { IfOk result (λ a. depth + depth_of_args a.args ≤ 100) }
{
    let bytes = src.as_bytes();
    if !has_arguments(bytes, at, end) {
        return Ok(Arguments {
            args: Args::Absent,
            end,
        });
    }
    if depth >= MOST_DEPTH {
        return Err(Failure::At(end));
    }
    if takes_list(&bytes[at..end]) {
        return list_arguments(alloc, src, end + 1, depth + 1);
    }
    let start = Reading::Text(Within::Parentheses(0, MOST_DEPTH - (depth + 1)));
    plain_arguments(alloc, src, end + 1, start)
}

/// The simple selector at the byte `at`, with its arguments.
#[cycle(parse)]
fn simple_from(
    alloc: Global,
    src: &str,
    at: usize,
    depth: usize,
    phase: Phase,
) -> Result<Placed, Failure>
    requires utf8 { IsUtf8 src.now }
    requires small { length src.now < 2 ^ 32 }
    requires boundary { IsCharBoundary src.now at }
    requires depth { depth ≤ 100 }
    requires going { may_end_of phase ≡ true → stops_of src.now at depth ≡ false }
    requires gapless { takes_gap phase ≡ true → scan_len (Reading.Blank Gap.Comments) (drop at src.now) ≡ 0 }
    requires slashless { phase ≡ Phase.Commented → slice_index src.now at ≡ 47 → ⊥ }
    ensures row { IfOk result (λ p. IsRow src.now at depth phase (part_before p.part none) p.phase p.end) }
    ensures longer { IfOk result (λ p. at < p.end) }
    ensures halt { IfErr result (λ e. Halts src.now at depth phase e) }
    ensures shallow { IfOk result (λ p. depth + depth_of_part p.part ≤ 100) }
{
    let Some(start) = phase.starts() else {
        return Err(Failure::At(at));
    };
    let bytes = src.as_bytes();
    let (end, reading) = scan(bytes, at, start);
    if !reading.is_final() {
        return Err(Failure::At(end));
    }
    let arguments = arguments_from(alloc, src, at, end, depth)?;
    let kind = kind_of(&bytes[at..end]);
    let part = make_part(alloc, src, kind, at, end, arguments.args)?;
    Ok(Placed {
        part,
        end: arguments.end,
        phase: Phase::Inside,
    })
}

/// The part at the byte `at`, where blanks and signs may stand.
#[cycle(parse)]
fn gap_or_simple(
    alloc: Global,
    src: &str,
    at: usize,
    depth: usize,
    phase: Phase,
) -> Result<Placed, Failure>
    requires utf8 { IsUtf8 src.now }
    requires small { length src.now < 2 ^ 32 }
    requires boundary { IsCharBoundary src.now at }
    requires depth { depth ≤ 100 }
    requires phase { takes_gap phase ≡ true }
    requires going { may_end_of phase ≡ true → stops_of src.now at depth ≡ false }
    ensures row { IfOk result (λ p. IsRow src.now at depth phase (part_before p.part none) p.phase p.end) }
    ensures longer { IfOk result (λ p. at < p.end) }
    ensures halt { IfErr result (λ e. Halts src.now at depth phase e) }
    ensures shallow { IfOk result (λ p. depth + depth_of_part p.part ≤ 100) }
{
    let (end, reading) = scan(src.as_bytes(), at, Reading::Blank(Gap::Comments));
    if end == at {
        return simple_from(alloc, src, at, depth, phase);
    }
    match reading {
        Reading::Blank(gap) => gap_part(alloc, src, at, depth, phase, end, gap),
        _ => Err(Failure::At(end)),
    }
}

/// The part at the byte `at`, inside so many parentheses.
#[cycle(parse)]
fn part_from(
    alloc: Global,
    src: &str,
    at: usize,
    depth: usize,
    phase: Phase,
) -> Result<Placed, Failure>
    requires utf8 { IsUtf8 src.now }
    requires small { length src.now < 2 ^ 32 }
    requires boundary { IsCharBoundary src.now at }
    requires depth { depth ≤ 100 }
    requires going { may_end_of phase ≡ true → stops_of src.now at depth ≡ false }
    ensures row { IfOk result (λ p. IsRow src.now at depth phase (part_before p.part none) p.phase p.end) }
    ensures longer { IfOk result (λ p. at < p.end) }
    ensures halt { IfErr result (λ e. Halts src.now at depth phase e) }
    ensures shallow { IfOk result (λ p. depth + depth_of_part p.part ≤ 100) }
{
    match phase {
        Phase::Fresh | Phase::Inside => gap_or_simple(alloc, src, at, depth, phase),
        Phase::Commented if byte_at(src.as_bytes(), at) == b'/' => {
            comment_from(alloc, src, at, depth, phase)
        }
        _ => simple_from(alloc, src, at, depth, phase),
    }
}

/// The complex selector from the byte `start` on, inside so many parentheses.
#[cycle(parse)]
fn complex_from(alloc: Global, src: &str, start: usize, depth: usize) -> Result<Row, Failure>
    requires utf8 { IsUtf8 src.now }
    requires small { length src.now < 2 ^ 32 }
    requires boundary { IsCharBoundary src.now start }
    requires depth { depth ≤ 100 }
    ensures row { IfOk result (λ r. IsEnded src.now start depth (complex_parts r.parts.items) r.end) }
    ensures last { IfOk result (λ r. stops_of src.now r.end depth ≡ true) }
    ensures halt { IfErr result (λ e. Halts src.now start depth Phase.Fresh e) }
    ensures shallow { IfOk result (λ r. depth + deepest (map depth_of_part r.parts.items) ≤ 100) }
{
    let mut parts = Vec::new(alloc);
    let mut end = start;
    let mut phase = Phase::Fresh;
    'parts: while !phase.may_end() || !stops(src.as_bytes(), end, depth) {
        let next = part_from(alloc, src, end, depth, phase)?;
        push(&mut parts, next.part)?;
        end = next.end;
        phase = next.phase;
    }
    Ok(Row { parts, end })
}

/// The list from the byte `start` on, inside so many parentheses.
#[cycle(parse)]
fn list_from(alloc: Global, src: &str, start: usize, depth: usize) -> Result<Listed, Failure>
    requires utf8 { IsUtf8 src.now }
    requires small { length src.now < 2 ^ 32 }
    requires boundary { IsCharBoundary src.now start }
    requires depth { depth ≤ 100 }
    ensures row { IfOk result (λ l. IsEnded src.now start depth (list_parts l.list.items) l.end) }
    ensures last { IfOk result (λ l. list_stops_of src.now l.end depth ≡ true) }
    ensures halt { IfErr result (λ e. Halts src.now start depth Phase.Fresh e) }
    ensures shallow { IfOk result (λ l. depth + deepest (map depth_of_complex l.list.items) ≤ 100) }
{
    let bytes = src.as_bytes();
    let first = complex_from(alloc, src, start, depth)?;
    let mut end = first.end;
    let mut list = Vec::new(alloc);
    push(&mut list, Complex { parts: first.parts })?;
    'list: while byte_at(bytes, end) == b',' {
        let next = complex_from(alloc, src, end + 1, depth)?;
        push(&mut list, Complex { parts: next.parts })?;
        end = next.end;
    }
    Ok(Listed { list, end })
}

/// The selectors of a text: complex selectors with commas between them. The grammar is that of CSS selectors with nesting
/// and namespaces; blanks and comments are kept, so the parts print to the text again (`print_selectors`).
///
/// The error is want of memory, or the fault of a text that is no list of selectors: it tells how many bytes the longest front
/// of the text has with which some list begins.
pub fn parse_selector(alloc: Global, src: &str) -> Result<Selectors, Stop<SelectorFault>>
    requires { length src.now < 2 ^ 32 }
    ensures parts { IfOk result (λ s. Selects (chars src.now) (tree_of s)) }
    ensures source { IfOk result (λ s. written (tree_of s) ≡ chars src.now) }
    ensures stops { IfErr result (Stops (chars src.now)) }
    ensures shallow { IfOk result (λ s. depth_of_list s ≤ 100) }
{
    match list_from(alloc, src, 0, 0) {
        Ok(row) => Ok(Selectors { list: row.list }),
        Err(Failure::At(at)) => Err(Stop::Fault(SelectorFault { at: at as u32 })),
        Err(Failure::Memory(e)) => Err(Stop::Memory(e)),
    }
}
