// The moves of nodes, which are allowed here.
ghost use Rattle.std.specs.Prelude.{◌≡◌, ◌≢◌, ◌<◌, ◌≤◌, suc, length, [], ◌∷◌, true, Some, None, IsSome, IsOk, OnOk, MatchResult};
ghost use Rattle.css_tree.specs.Parts.{block_of};
ghost use Rattle.node_rows.specs.Nodes.{parent_of, children_of, place_of, text_of};
ghost use Rattle.node_store.specs.declared.item.Edit.TheVariants as E;
ghost use Rattle.node_store.specs.Edits.{is_allowed};
ghost use Rattle.node_store.specs.Forest.{unreserved};
ghost use Rattle.edit_calls.specs.Plans.{removal, moving, without};
ghost use Rattle.edit_calls.specs.Answers.{Makes};
ghost use Rattle.edit_calls.specs.Spots.{IsSpot, IsMove, place_at};

use crate::spot::Spot;
use node_store::id::NodeId;
use node_store::work::Work;
use std::alloc::AllocError;

// Makes the work ready for so many edits, one of which puts a node into the container.
fn reserve(work: &mut Work, container: NodeId, edits: u32) -> Result<(), AllocError>
    requires { IsSome (block_of (text_of work.old.nodes container)) }
    ensures spare { OnOk result (edits ≤ work.new.spare) }
    ensures room { OnOk result (work.new.room ≡ Some container) }
    ensures rest { unreserved work.new ≡ unreserved work.old }
{
    work.reserve_log(edits)?;
    work.reserve_place(container)
}

// Takes the node out of its parent, for which the log has space.
pub(crate) fn take(work: &mut Work, node: NodeId)
    requires allowed { is_allowed work.old.nodes (E.Remove node) ≡ true }
    requires spare { 0 < work.old.spare }
    ensures made { Makes work.old work.new (E.Remove node ∷ []) }
    ensures spare { work.old.spare ≤ suc work.new.spare }
    ensures room { work.new.room ≡ work.old.room }
{
    match work.take_out(node) {
        Ok(()) => {}
        Err(_) => unreachable!(),
    }
}

// Takes the node out where it has a parent.
fn loosen(work: &mut Work, node: NodeId)
    requires given { node < length work.old.nodes }
    requires spare { 0 < work.old.spare }
    ensures made { Makes work.old work.new (removal work.old.nodes node) }
    ensures spare { work.old.spare ≤ suc work.new.spare }
    ensures room { work.new.room ≡ work.old.room }
{
    match work.parent(node) {
        Ok(Some(_)) => take(work, node),
        Ok(None) => {}
        Err(_) => unreachable!(),
    }
}

// Puts the loose node into the container, for which memory is kept.
fn put(work: &mut Work, container: NodeId, at: u32, node: NodeId)
    requires allowed { is_allowed work.old.nodes (E.Insert node container at) ≡ true }
    requires spare { 0 < work.old.spare }
    requires room { work.old.room ≡ Some container }
    ensures made { Makes work.old work.new (E.Insert node container at ∷ []) }
    ensures spare { work.old.spare ≤ suc work.new.spare }
{
    match work.put_in(container, at, node) {
        Ok(()) => {}
        Err(_) => unreachable!(),
    }
}

fn count(work: &Work, container: NodeId) -> u32
    requires { container < length work.now.nodes }
    ensures { result ≡ length (children_of work.now.nodes container) }
{
    match work.child_count(container) {
        Ok(count) => count,
        Err(_) => unreachable!(),
    }
}

fn place_of_child(work: &Work, container: NodeId, child: NodeId) -> u32
    requires { parent_of work.now.nodes child ≡ Some container }
    ensures value { result ≡ place_of work.now.nodes container child }
    ensures few { result < 67108865 }
{
    work.facts();
    match work.place(child) {
        Ok(Some(place)) => place,
        _ => unreachable!(),
    }
}

// How many children of the container stand before the spot.
fn place(work: &Work, container: NodeId, spot: Spot) -> u32
    requires given { container < length work.now.nodes }
    requires spot { IsSpot work.now.nodes container spot }
    ensures { result ≡ place_at work.now.nodes container spot }
{
    match spot {
        Spot::First => 0,
        Spot::Last => count(work, container),
        Spot::Before(anchor) => place_of_child(work, container, anchor),
        Spot::Behind(anchor) => place_of_child(work, container, anchor) + 1,
    }
}

// Moves the node to the spot, and takes the memory for so many edits before, of which a move needs two.
pub(crate) fn move_to(
    work: &mut Work,
    container: NodeId,
    spot: Spot,
    node: NodeId,
    edits: u32,
) -> Result<(), AllocError>
    requires allowed { IsMove work.old.nodes node container spot }
    requires enough { 2 ≤ edits }
    ensures made { MatchResult result
        (λ _. Makes work.old work.new (moving work.old.nodes node container (place_at (without work.old.nodes node) container spot)))
        (λ _. unreserved work.new ≡ unreserved work.old) }
    ensures spare { OnOk result (edits ≤ suc (suc work.new.spare)) }
{
    work.facts();
    reserve(work, container, edits)?;
    loosen(work, node);
    work.facts();
    let at = place(work, container, spot);
    put(work, container, at, node);
    Ok(())
}
