// How specific selectors are.
ghost use Rattle.std.specs.Prelude.{◌≡◌, ◌+◌, ◌<◌, ◌≤◌, map};
ghost use Rattle.std.specs.Str.{chars};
ghost use Rattle.selector_parse.specs.Wide.{weight};
ghost use Rattle.selector_parse.specs.Worth.{own, names_all as names_all_of, is_group as is_group_of, plus, worth_of_part, worth_of_complex, sum_from, greatest_from, nothing, cut, deepest, depth_of_part, depth_of_complex, size};

use crate::names::{is_logical_class, is_where};
use crate::part::{Args, Complex, Part, PartKind, Specificity};
use crate::tally::Counts;

/// The text is `*` or ends with `|*`.
#[tactic(auto, unfolding(crate::specs::Worth::names_all))]
fn spells_all(text: &[u8]) -> bool
    ensures { result ≡ names_all_of text.now }
{
    match text {
        [b'*'] => true,
        _ => text.ends_with(b"|*"),
    }
}

/// An Element's name is `*`.
fn names_all(text: &str) -> bool
    ensures { result ≡ names_all_of (chars text.now) }
{
    spells_all(text.as_bytes())
}

/// What a simple selector counts without arguments goes on top.
fn add_own(sum: &mut Counts, kind: PartKind, text: &str)
    requires { size sum.old + 1 < weight 101 }
    ensures { sum.new ≡ plus sum.old (own kind (chars text.now)) }
{
    match kind {
        PartKind::Id => sum.a.increase(),
        PartKind::Class | PartKind::Attribute => sum.b.increase(),
        PartKind::PseudoClass if is_where(text) => {}
        PartKind::PseudoClass => sum.b.increase(),
        PartKind::Element if names_all(text) => {}
        PartKind::Element | PartKind::PseudoElement => sum.c.increase(),
        _ => {}
    }
}

/// `:is`, `:not`, `:has` or `:where`.
fn is_group(kind: PartKind, text: &str) -> bool
    ensures { result ≡ is_group_of kind (chars text.now) }
{
    match kind {
        PartKind::PseudoClass => is_logical_class(text),
        _ => false,
    }
}

/// What a part counts goes on top.
#[cycle(count)]
fn add_part(sum: &mut Counts, part: &Part)
    requires shallow { depth_of_part part.now ≤ 100 }
    requires room { size sum.old + weight (depth_of_part part.now) < weight 101 }
    ensures value { sum.new ≡ plus sum.old (worth_of_part part.now) }
    ensures small { size (worth_of_part part.now) ≤ weight (depth_of_part part.now) }
{
    let text = part.text.as_str();
    if !is_group(part.kind, text) {
        add_own(sum, part.kind, text);
        return;
    }
    match &part.args {
        Args::Absent => add_own(sum, part.kind, text),
        Args::Plain(_) => {}
        Args::List(_) if is_where(text) => {}
        Args::List(inner) => sum.add(&list_counts(&inner.list)),
    }
}

/// What parts count together.
#[cycle(count)]
fn parts_counts(parts: &[Part]) -> Counts
    requires shallow { deepest (map depth_of_part parts.now) ≤ 100 }
    ensures value { result ≡ sum_from nothing (map worth_of_part parts.now) }
    ensures small { size result ≤ weight (deepest (map depth_of_part parts.now) + 1) }
{
    let mut sum = Counts::nothing();
    for part in parts {
        add_part(&mut sum, part);
    }
    sum
}

/// The greatest that a complex selector of a list counts.
#[cycle(count)]
fn list_counts(list: &[Complex]) -> Counts
    requires shallow { deepest (map depth_of_complex list.now) ≤ 100 }
    ensures value { result ≡ greatest_from nothing (map worth_of_complex list.now) }
    ensures small { size result ≤ weight (deepest (map depth_of_complex list.now) + 1) }
{
    let mut greatest = Counts::nothing();
    for complex in list {
        greatest = greatest.greater(parts_counts(&complex.parts));
    }
    greatest
}

/// How specific a complex selector is, as Selectors Level 4 counts it: `:is`, `:not` and `:has` with arguments count the
/// greatest specificity of their list, and `:where` and `&` nothing. The numbers are compared before they are cut to 65,535.
/// Takes no memory. At most 100 lists of arguments may stand inside one another, as they do in what `parse_selector` gives.
pub fn specificity(c: &Complex) -> Specificity
    requires { depth_of_complex c.now ≤ 100 }
    ensures { result ≡ cut (worth_of_complex c.now) }
{
    parts_counts(&c.parts).cut()
}
