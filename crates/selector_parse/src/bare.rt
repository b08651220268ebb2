// Parts without arguments: blanks, signs and comments, as they stand in a complex selector.
ghost use Rattle.std.specs.Prelude.{◌≡◌, ◌+◌, ◌-◌, ◌≤◌, ◌<◌, ◌^◌, IfOk, IfErr, true, drop, length, take, slice_index, Some};
ghost use Rattle.std.specs.Str.{chars, IsUtf8, IsCharBoundary};
ghost use Rattle.selector_parse.specs.Reading.{scan_len, scan_last};
ghost use Rattle.selector_parse.specs.Tree.{made, part_before, args_of, none, absent};
ghost use Rattle.selector_parse.specs.Phases.{comment_next};
ghost use Rattle.selector_parse.specs.Worth.{depth_of_args, depth_of_part};
ghost use Rattle.selector_parse.specs.Row.{IsRow, IsInsideRun, OnlyMemory, Halts, gap_choice, takes_gap};

use crate::ends::stops;
use crate::part::{Args, Part, PartKind};
use crate::phase::Phase;
use crate::placed::{Failure, Placed};
use crate::reading::{Gap, Reading};
use crate::scan::scan;
use css_text::txt::Txt;
use std::alloc::{AllocError, Global};

/// A part.
pub fn make_part(
    alloc: Global,
    src: &str,
    kind: PartKind,
    at: usize,
    end: usize,
    args: Args,
) -> Result<Part, AllocError>
    requires small { length src.now < 2 ^ 32 }
    requires order { at ≤ end }
    requires low { IsCharBoundary src.now at }
    requires high { IsCharBoundary src.now end }
    ensures part { IfOk result (λ p. part_before p none
        ≡ made kind at (chars (take (end - at) (drop at src.now))) (args_of args) none) }
    ensures shallow { IfOk result (λ p. depth_of_part p ≡ depth_of_args args) }
{
    let text = Txt::new(alloc, &src[at..end])?;
    Ok(Part {
        kind,
        at: at as u32,
        text,
        args,
    })
}

/// A part without arguments.
pub fn bare_part(
    alloc: Global,
    src: &str,
    kind: PartKind,
    at: usize,
    end: usize,
    phase: Phase,
) -> Result<Placed, Failure>
    requires small { length src.now < 2 ^ 32 }
    requires order { at ≤ end }
    requires low { IsCharBoundary src.now at }
    requires high { IsCharBoundary src.now end }
    ensures part { IfOk result (λ p. (part_before p.part none
        ≡ made kind at (chars (take (end - at) (drop at src.now))) absent none) × (p.end ≡ end) × (p.phase ≡ phase)) }
    ensures memory { IfErr result OnlyMemory }
    ensures flat { IfOk result (λ p. depth_of_part p.part ≡ 0) }
{
    let part = make_part(alloc, src, kind, at, end, Args::Absent)?;
    Ok(Placed { part, end, phase })
}

/// The part that blanks and signs make, by what they hold and whether the complex selector ends after them; and what may
/// follow. `None` for comments inside a compound.
pub fn gap_kind(phase: Phase, gap: Gap, stops: bool) -> Option<(PartKind, Phase)>
    ensures { result ≡ gap_choice phase gap stops }
{
    match (phase, gap) {
        (_, Gap::Symbol) => Some((PartKind::Combinator, Phase::Open)),
        (Phase::Fresh, _) => Some((PartKind::Blank, Phase::Open)),
        _ if stops => Some((PartKind::Blank, Phase::Trailing)),
        (_, Gap::Spaced) => Some((PartKind::Combinator, Phase::Open)),
        _ => None,
    }
}

/// The comment at the byte `at`, inside a compound.
pub fn comment_from(
    alloc: Global,
    src: &str,
    at: usize,
    depth: usize,
    phase: Phase,
) -> Result<Placed, Failure>
    requires utf8 { IsUtf8 src.now }
    requires small { length src.now < 2 ^ 32 }
    requires boundary { IsCharBoundary src.now at }
    requires within { at < length src.now }
    requires inside { comment_next phase ≡ Some Phase.Commented }
    requires slash { slice_index src.now at ≡ 47 }
    requires comments { phase ≡ Phase.Inside → IsInsideRun src.now at depth }
    ensures row { IfOk result (λ p. IsRow src.now at depth phase (part_before p.part none) p.phase p.end) }
    ensures longer { IfOk result (λ p. at < p.end) }
    ensures halt { IfErr result (λ e. Halts src.now at depth phase e) }
    ensures flat { IfOk result (λ p. depth_of_part p.part ≡ 0) }
{
    let (end, reading) = scan(src.as_bytes(), at, Reading::Blank(Gap::One));
    match reading {
        Reading::Done => bare_part(alloc, src, PartKind::Comment, at, end, Phase::Commented),
        _ => Err(Failure::At(end)),
    }
}

/// The blanks and signs at the byte `at`, which end at `end` and hold `gap`.
pub fn gap_part(
    alloc: Global,
    src: &str,
    at: usize,
    depth: usize,
    phase: Phase,
    end: usize,
    gap: Gap,
) -> Result<Placed, Failure>
    requires utf8 { IsUtf8 src.now }
    requires small { length src.now < 2 ^ 32 }
    requires boundary { IsCharBoundary src.now at }
    requires order { at < end }
    requires within { end ≤ length src.now }
    requires end { end ≡ at + scan_len (Reading.Blank Gap.Comments) (drop at src.now) }
    requires gap { Reading.Blank gap ≡ scan_last (Reading.Blank Gap.Comments) (drop at src.now) }
    requires phase { takes_gap phase ≡ true }
    ensures row { IfOk result (λ p. IsRow src.now at depth phase (part_before p.part none) p.phase p.end) }
    ensures longer { IfOk result (λ p. at < p.end) }
    ensures halt { IfErr result (λ e. Halts src.now at depth phase e) }
    ensures flat { IfOk result (λ p. depth_of_part p.part ≡ 0) }
{
    match gap_kind(phase, gap, stops(src.as_bytes(), end, depth)) {
        Some((kind, next)) => bare_part(alloc, src, kind, at, end, next),
        None => comment_from(alloc, src, at, depth, phase),
    }
}
