// Nodes into other places, and out of the tree.
ghost use Rattle.std.specs.Prelude.{◌≡◌, ◌<◌, ◌≤◌, suc, Ok, Err, Some, IfOk, MatchResult};
ghost use Rattle.node_rows.specs.Nodes.{parent_of};
ghost use Rattle.edit_calls.specs.Plans.{appending, prepending, inserting_before, inserting_after, replacing, removing, refused_in, refused_beside, refused_out};
ghost use Rattle.edit_calls.specs.Checks.{checked};
ghost use Rattle.edit_calls.specs.Spots.{anchor_of, IsMove};
ghost use Rattle.edit_calls.specs.Answers.{Answers, HasMemory};

use crate::placing::{move_to, take};
use crate::spot::Spot;
use css_text::stop::Stop;
use node_store::fault::TreeFault;
use node_store::id::NodeId;
use node_store::work::Work;

fn check_in(work: &Work, container: NodeId, node: NodeId) -> Result<(), TreeFault>
    ensures { result ≡ checked (refused_in work.now.nodes container node) }
{
    let has_block = work.has_block(container)?;
    work.parent(node)?;
    if !has_block {
        return Err(TreeFault::WrongKind);
    }
    if node.number() == 0 {
        return Err(TreeFault::IsRoot);
    }
    if container.number() == node.number() {
        return Err(TreeFault::SameNode);
    }
    if work.holds(node, container) {
        return Err(TreeFault::Cycle);
    }
    Ok(())
}

// The parent of the anchor, where the node may be put beside it.
fn check_beside(work: &Work, anchor: NodeId, node: NodeId) -> Result<NodeId, TreeFault>
    ensures check { MatchResult result
        (λ p. (checked (refused_beside work.now.nodes anchor node) ≡ Ok tt) × (parent_of work.now.nodes anchor ≡ Some p))
        (λ f. checked (refused_beside work.now.nodes anchor node) ≡ Err f) }
    ensures allowed { IfOk result (λ p. (spot : Spot) → anchor_of spot ≡ Some anchor → IsMove work.now.nodes node p spot) }
{
    work.facts();
    let parent = work.parent(anchor)?;
    work.parent(node)?;
    if anchor.number() == 0 || node.number() == 0 {
        return Err(TreeFault::IsRoot);
    }
    if anchor.number() == node.number() {
        return Err(TreeFault::SameNode);
    }
    match parent {
        None => Err(TreeFault::Loose),
        Some(parent) => {
            if work.holds(node, anchor) {
                return Err(TreeFault::Cycle);
            }
            Ok(parent)
        }
    }
}

fn check_out(work: &Work, n: NodeId) -> Result<(), TreeFault>
    ensures { result ≡ checked (refused_out work.now.nodes n) }
{
    let parent = work.parent(n)?;
    if n.number() == 0 {
        return Err(TreeFault::IsRoot);
    }
    match parent {
        None => Err(TreeFault::Loose),
        Some(_) => Ok(()),
    }
}

/// Makes the node the last child of the container, out of its old place where it has one.
///
/// Refused, in this order, as NoSuchNode, the container first; WrongKind where the container has no block; IsRoot where the
/// node is the root; SameNode; and Cycle where the node holds the container.
pub fn append(work: &mut Work, container: NodeId, node: NodeId) -> Result<(), Stop<TreeFault>>
    ensures { Answers (appending work.old.nodes container node) work.old work.new result }
{
    check_in(work, container, node).map_err(Stop::Fault)?;
    move_to(work, container, Spot::Last, node, 2).map_err(Stop::Memory)
}

/// Makes the node the first child of the container. Refused as `append`.
pub fn prepend(work: &mut Work, container: NodeId, node: NodeId) -> Result<(), Stop<TreeFault>>
    ensures { Answers (prepending work.old.nodes container node) work.old work.new result }
{
    check_in(work, container, node).map_err(Stop::Fault)?;
    move_to(work, container, Spot::First, node, 2).map_err(Stop::Memory)
}

/// Puts the node before the anchor, out of its old place where it has one.
///
/// Refused, in this order, as NoSuchNode, the anchor first; IsRoot where one of them is the root; SameNode; Loose where the
/// anchor has no parent; and Cycle where the node holds the anchor.
pub fn insert_before(work: &mut Work, anchor: NodeId, node: NodeId) -> Result<(), Stop<TreeFault>>
    ensures { Answers (inserting_before work.old.nodes anchor node) work.old work.new result }
{
    let parent = check_beside(work, anchor, node).map_err(Stop::Fault)?;
    move_to(work, parent, Spot::Before(anchor), node, 2).map_err(Stop::Memory)
}

/// Puts the node behind the anchor. Refused as `insert_before`.
pub fn insert_after(work: &mut Work, anchor: NodeId, node: NodeId) -> Result<(), Stop<TreeFault>>
    ensures { Answers (inserting_after work.old.nodes anchor node) work.old work.new result }
{
    let parent = check_beside(work, anchor, node).map_err(Stop::Fault)?;
    move_to(work, parent, Spot::Behind(anchor), node, 2).map_err(Stop::Memory)
}

/// Puts the node where `n` stands, and takes `n` with its tree out. Refused as `insert_before`.
pub fn replace_with(work: &mut Work, n: NodeId, node: NodeId) -> Result<(), Stop<TreeFault>>
    ensures { Answers (replacing work.old.nodes n node) work.old work.new result }
{
    work.facts();
    let parent = check_beside(work, n, node).map_err(Stop::Fault)?;
    move_to(work, parent, Spot::Before(n), node, 3).map_err(Stop::Memory)?;
    take(work, n);
    Ok(())
}

/// Takes the node with its tree out, which is loose then. Refused as NoSuchNode, IsRoot, and Loose where it has no parent.
/// After `Work::reserve_log` it takes no memory.
pub fn remove(work: &mut Work, n: NodeId) -> Result<(), Stop<TreeFault>>
    ensures answer { Answers (removing work.old.nodes n) work.old work.new result }
    ensures ready { 0 < work.old.spare → HasMemory result }
    ensures spare { work.old.spare ≤ suc work.new.spare }
{
    check_out(work, n).map_err(Stop::Fault)?;
    work.take_out(n).map_err(Stop::Memory)
}
