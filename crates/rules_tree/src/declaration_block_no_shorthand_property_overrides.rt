// A shorthand after a declaration of one of its longhands in the same block.
ghost use Rattle.std.specs.Prelude.{◌≡◌, ◌<◌, ◌≤◌, ◌++◌, ◌||◌, ℕ, OnOk, IfOk, MatchOption, None, Some, codes, filter, length, map, slice_get};
ghost use Rattle.std.specs.List.{list_any, range_with_len};
ghost use Rattle.std.specs.Str.{chars};
ghost use Rattle.node_rows.specs.Nodes.{parent_of};
ghost use Rattle.node_rows.specs.NumberTrees.{tree_at};
ghost use Rattle.node_store.specs.Fresh.{IsFresh};
ghost use Rattle.rule_sites.specs.Blocks.{start_byte};
ghost use Rattle.rule_sites.specs.ContextAt.{context_at, earlier_of};
ghost use Rattle.rule_sites.specs.Finding.{site_of};
ghost use Rattle.rules_tree.specs.DeclarationBlockNoShorthandPropertyOverrides.{findings, of_prop};
ghost use Rattle.rules_tree.specs.FirstUses.{AreFirstUses, is_before, is_named, is_use};
ghost use Rattle.rules_tree.specs.Properties.{props_of, quoted};
ghost use Rattle.rules_tree.specs.Shorthands.{is_longhand_of};

use crate::first_uses::{FirstUses, first_use};
use crate::property::prop_of;
use crate::shorthands::longhands_of;
use css_text::txt::Txt;
use lint_config::found::Site;
use lint_config::rule::Rule;
use node_store::id::NodeId;
use node_store::work::Work;
use rule_sites::reads;
use rule_sites::sites::push_site;
use std::alloc::{AllocError, Global};

/// The smaller one, if there are two.
fn smaller(a: Option<u32>, b: Option<u32>) -> Option<u32>
    ensures { (n : ℕ) → is_before n result ≡ (is_before n a || is_before n b) }
{
    match (a, b) {
        (Some(first), Some(second)) => Some(first.min(second)),
        (None, other) => other,
        (one, None) => one,
    }
}

/// The first declaration of one of these properties in the block that the node stands in.
fn first_of<'w>(
    uses: &FirstUses<'w>,
    work: &Work,
    n: NodeId,
    names: &'static [&'static str],
) -> Option<u32>
    requires given { n < length work.now.nodes }
    requires uses { AreFirstUses work.now.nodes uses.now (length work.now.nodes) }
    ensures { (j : ℕ) → j ≤ length work.now.nodes → list_any (is_use work.now.nodes (parent_of work.now.nodes n) (λ prop. list_any (λ s. is_named (chars s.now) prop) names.now)) (range_with_len 0 j) ≡ is_before j result }
{
    let mut first = None;
    for name in names {
        first = smaller(first, first_use(uses, work, n, *name));
    }
    first
}

/// The property of the first declaration of one of the shorthand's longhands, before the node in the same block.
fn first_longhand<'w>(
    uses: &FirstUses<'w>,
    work: &'w Work,
    n: NodeId,
    shorthand: &str,
) -> Option<&'w str>
    requires fresh { IsFresh work.now }
    requires given { n < length work.now.nodes }
    requires uses { AreFirstUses work.now.nodes uses.now (length work.now.nodes) }
    ensures { MatchOption result
        (None ≡ slice_get (filter (is_longhand_of (chars shorthand.now)) (props_of (map (tree_at work.now.nodes) (earlier_of work.now.nodes n)))) 0)
        (λ s. Some (chars s.now) ≡ slice_get (filter (is_longhand_of (chars shorthand.now)) (props_of (map (tree_at work.now.nodes) (earlier_of work.now.nodes n)))) 0) }
{
    work.facts();
    match first_of(uses, work, n, longhands_of(shorthand)) {
        Some(first) => {
            if first >= n.number() {
                return None;
            }
            prop_of(reads::text_of(work, NodeId::new(first)))
        }
        None => None,
    }
}

fn message(alloc: Global, shorthand: &str, first: &str) -> Result<Txt, AllocError>
    ensures { IfOk result (λ t. t ≡ codes "Unexpected shorthand " ++ (quoted (chars shorthand.now) ++ (codes " after " ++ quoted (chars first.now)))) }
{
    let text = format!(in alloc; "Unexpected shorthand \"{shorthand}\" after \"{first}\"")?;
    Txt::from_string(alloc, text)
}

/// Adds the site of a node that is a declaration of that property, where it is a shorthand after one of its longhands.
fn visit_prop<'w>(
    alloc: Global,
    sites: &mut Vec<Site>,
    work: &'w Work,
    n: NodeId,
    uses: &FirstUses<'w>,
    prop: &str,
) -> Result<(), AllocError>
    requires fresh { IsFresh work.now }
    requires given { n < length work.now.nodes }
    requires uses { AreFirstUses work.now.nodes uses.now (length work.now.nodes) }
    ensures { OnOk result (sites.new.items ≡ sites.old.items ++ map (site_of work.now.text Rule.DeclarationBlockNoShorthandPropertyOverrides) (of_prop (start_byte (tree_at work.now.nodes n)) (props_of (map (tree_at work.now.nodes) (earlier_of work.now.nodes n))) (Some (chars prop.now)))) }
{
    let Some(first) = first_longhand(uses, work, n, prop) else {
        return Ok(());
    };
    let text = message(alloc, prop, first)?;
    let at = reads::start_of(work, n);
    push_site(
        sites,
        work,
        Rule::DeclarationBlockNoShorthandPropertyOverrides,
        at,
        text,
        None,
    )
}

/// Adds the site of the node where it is a declaration of a shorthand after one of its longhands in its block.
///
/// # Errors
///
/// Only when out of memory.
#[tactic(auto, unfolding(crate::specs::DeclarationBlockNoShorthandPropertyOverrides::findings, rule_sites::specs::ContextAt::context_at))]
pub fn visit<'w>(
    alloc: Global,
    sites: &mut Vec<Site>,
    work: &'w Work,
    n: NodeId,
    uses: &FirstUses<'w>,
) -> Result<(), AllocError>
    requires fresh { IsFresh work.now }
    requires given { n < length work.now.nodes }
    requires uses { AreFirstUses work.now.nodes uses.now (length work.now.nodes) }
    ensures { OnOk result (sites.new.items ≡ sites.old.items ++ map (site_of work.now.text Rule.DeclarationBlockNoShorthandPropertyOverrides) (findings (context_at work.now.nodes n))) }
{
    match prop_of(reads::text_of(work, n)) {
        Some(prop) => visit_prop(alloc, sites, work, n, uses, prop),
        None => Ok(()),
    }
}
