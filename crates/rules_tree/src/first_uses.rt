// The first declaration of each property in each block.
ghost use Rattle.std.specs.Prelude.{◌≡◌, ◌<◌, ◌≤◌, ◌+◌, ℕ, map, length, IfOk, OnOk, MatchOption, slice_get, filter, Some, None};
ghost use Rattle.std.specs.List.{find, list_any, range_with_len};
ghost use Rattle.std.specs.Str.{chars};
ghost use Rattle.node_rows.specs.Nodes.{parent_of};
ghost use Rattle.node_rows.specs.NumberTrees.{tree_at};
ghost use Rattle.node_store.specs.Fresh.{IsFresh};
ghost use Rattle.rule_sites.specs.ContextAt.{earlier_of};
ghost use Rattle.rules_tree.specs.FirstUses.{is_use, is_named, AreFirstUses, is_before, IsPropertyAt};
ghost use Rattle.rules_tree.specs.Properties.{props_of};

use crate::property::{Property, prop_of};
use node_store::id::NodeId;
use node_store::work::Work;
use rule_sites::reads;
use std::alloc::{AllocError, Global};
use std::collections::BTreeMap;

/// Of each property in each block, the number of the first declaration.
pub type FirstUses<'w> = BTreeMap<Property<'w>, u32>;

/// The property of the node in its block, where it is a declaration.
fn property_at(work: &Work, n: NodeId) -> Option<Property<'_>>
    requires { n < length work.now.nodes }
    ensures { IsPropertyAt work.now.nodes n result }
{
    let block = reads::parent_of(work, n)?.number();
    let name = prop_of(reads::text_of(work, n))?;
    Some(Property { block, name })
}

/// Adds the node, where it is the first declaration of its property in its block.
fn add_use<'w>(uses: &mut FirstUses<'w>, work: &'w Work, n: u32) -> Result<(), AllocError>
    requires given { n < length work.now.nodes }
    requires uses { AreFirstUses work.now.nodes uses.old n }
    ensures { OnOk result (AreFirstUses work.now.nodes uses.new (n + 1)) }
{
    let Some(property) = property_at(work, NodeId::new(n)) else {
        return Ok(());
    };
    if uses.contains_key(&property) {
        return Ok(());
    }
    uses.insert(property, n)?;
    Ok(())
}

/// The first declaration of each property in each block of a sheet.
///
/// # Errors
///
/// Only when out of memory.
pub fn first_uses(alloc: Global, work: &Work) -> Result<FirstUses<'_>, AllocError>
    ensures { IfOk result (λ uses. AreFirstUses work.now.nodes uses (length work.now.nodes)) }
{
    let mut uses = BTreeMap::new(alloc);
    for n in 0..work.node_total() {
        add_use(&mut uses, work, n)?;
    }
    Ok(uses)
}

/// The first declaration of that property in the block that the node stands in.
pub fn first_use<'w>(uses: &FirstUses<'w>, work: &Work, n: NodeId, name: &'w str) -> Option<u32>
    requires given { n < length work.now.nodes }
    requires uses { AreFirstUses work.now.nodes uses.now (length work.now.nodes) }
    ensures { result ≡ find (is_use work.now.nodes (parent_of work.now.nodes n) (is_named (chars name.now))) (range_with_len 0 (length work.now.nodes)) }
{
    match reads::parent_of(work, n) {
        Some(parent) => {
            let block = parent.number();
            uses.get(&Property { block, name }).copied()
        }
        None => None,
    }
}

/// Whether the node that was found stands before the other.
fn is_before(found: Option<u32>, n: NodeId) -> bool
    ensures { result ≡ is_before n found }
{
    match found {
        Some(first) => first < n.number(),
        None => false,
    }
}

/// Whether a declaration before the node, in the same block, has that property.
pub fn is_used_before<'w>(uses: &FirstUses<'w>, work: &Work, n: NodeId, name: &'w str) -> bool
    requires fresh { IsFresh work.now }
    requires given { n < length work.now.nodes }
    requires uses { AreFirstUses work.now.nodes uses.now (length work.now.nodes) }
    ensures { result ≡ list_any (is_named (chars name.now)) (props_of (map (tree_at work.now.nodes) (earlier_of work.now.nodes n))) }
{
    work.facts();
    is_before(first_use(uses, work, n, name), n)
}
