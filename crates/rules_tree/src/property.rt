// The properties of declarations, and how their names compare.
ghost use Rattle.std.specs.Prelude.{◌≡◌, ◌==◌, ◌&&◌, List, ℕ, false, map, slice_index, MatchOption, None, Some, if◌then◌else◌};
ghost use Rattle.std.proofs.Common.{rules};
ghost use Rattle.std.specs.Char.{to_ascii_lowercase};
ghost use Rattle.std.specs.Cmp.{partial_order_from_own_ties};
ghost use Rattle.std.specs.Cmp.Lexicographic.{slice_cmp, pointwise};
ghost use Rattle.std.specs.Cmp.Rules.{comparing};
ghost use Rattle.std.specs.Ordering.{nat_cmp, on, then_cmp, as_partial_cmp, eq_by_cmp};
ghost use Rattle.std.specs.Str.{chars};
ghost use Rattle.rules_tree.specs.Properties.{prop_of, is_custom, folded};

use css_text::scan::byte_at;
use css_tree::node::NodeText;
use std::cmp::Ordering;

/// A declaration's property as it is written; none for any other node.
pub fn prop_of(text: &NodeText) -> Option<&str>
    ensures { MatchOption result (prop_of text.now ≡ None) (λ s. prop_of text.now ≡ Some (chars s.now)) }
{
    match text {
        NodeText::Declaration { prop, .. } => Some(prop.as_str()),
        _ => None,
    }
}

fn begins_dashes(bytes: &[u8]) -> bool
    ensures { result ≡ (slice_index bytes.now 0 == 45 && slice_index bytes.now 1 == 45) }
{
    byte_at(bytes, 0) == b'-' && byte_at(bytes, 1) == b'-'
}

/// Whether the property is a custom one: it begins `--`.
pub fn is_custom(prop: &str) -> bool
    ensures { result ≡ is_custom (chars prop.now) }
{
    begins_dashes(prop.as_bytes())
}

/// A character of a property's name as it is compared.
fn folded(custom: bool, c: char) -> char
    ensures { result ≡ (if custom then c else to_ascii_lowercase c) }
{
    if custom { c } else { c.to_ascii_lowercase() }
}

/// How two names stand to one another: in lower ASCII case, but custom properties as they are written.
fn compare_names(a: &str, b: &str) -> Ordering
    ensures { result ≡ slice_cmp nat_cmp (folded (chars a.now)) (folded (chars b.now)) }
{
    let in_a = is_custom(a);
    let in_b = is_custom(b);
    let left = a.chars().map(|c| folded(in_a, c));
    let right = b.chars().map(|c| folded(in_b, c));
    left.cmp(right)
}

/// A property of the declarations in one block. Names are equal where they are in lower ASCII case, but those of
/// custom properties where they are as written.
#[derive(Clone, Copy)]
pub struct Property<'w> {
    /// The number of the node with the block.
    pub block: u32,
    pub name: &'w str,
}

impl<'w> Ord for Property<'w> {
    ghost cmp = { then_cmp (on (λ p. p.block) nat_cmp) (on (λ p. folded (chars p.name.now)) (slice_cmp nat_cmp)) };

    ghost total = { Prim.search (comparing, rules) };

    ghost matches_partial_cmp = { Prim.search (comparing, rules) };

    ghost matches_eq = { Prim.search (comparing, rules) };

    fn cmp(&self, other: &Property<'w>) -> Ordering {
        self.block
            .cmp(&other.block)
            .then_with(|| compare_names(self.name, other.name))
    }
}

impl<'w> PartialOrd for Property<'w> {
    ghost partial_cmp = { as_partial_cmp (then_cmp (on (λ p. p.block) nat_cmp) (on (λ p. folded (chars p.name.now)) (slice_cmp nat_cmp))) };

    ghost laws = { partial_order_from_own_ties (Prim.search (comparing, rules)) (Prim.search (comparing, rules)) };

    fn partial_cmp(&self, other: &Property<'w>) -> Option<Ordering> {
        Some(self.cmp(other))
    }
}

impl<'w> Eq for Property<'w> {
    ghost laws = { Prim.search (comparing, rules) };
}

impl<'w> PartialEq for Property<'w> {
    ghost eq = { eq_by_cmp (then_cmp (on (λ p. p.block) nat_cmp) (on (λ p. folded (chars p.name.now)) (slice_cmp nat_cmp))) };

    ghost laws = { Prim.search (comparing, rules) };

    fn eq(&self, other: &Property<'w>) -> bool {
        self.cmp(other) == Ordering::Equal
    }
}
