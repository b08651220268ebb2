// The leaves that a visit passes without visits of their own: most nodes of a sheet are leaves at which nothing is called.
ghost use Rattle.std.specs.Prelude.{◌≡◌, ℕ, ◌<◌, ◌≤◌, List, length, IfOk, IfSome, true};
ghost use Rattle.node_rows.specs.Nodes.{is_dirty};
ghost use Rattle.visitor_machine.specs.Hooks.{PickedHook};
ghost use Rattle.visitor_machine.specs.Machine.{State};
ghost use Rattle.visitor_walk.specs.Groups.{IsGrouped};
ghost use Rattle.visitor_walk.specs.Turns.{dirty_total};
ghost use Rattle.visitor_walk.specs.Leaves.{is_bare, PassesLeaf, KeepsTexts, AtChildren, PassesLeaves};

use crate::hooks::RunHooks;
use crate::reads::{child_count, enter_event, exit_event, kind};
use crate::turn::{Open, next_dirty};
use node_store::id::NodeId;
use node_store::item::Item;
use node_store::work::Work;
use std::alloc::AllocError;

// Whether the node has no children, and its kind no hook.
fn is_bare(work: &Work, hooks: &RunHooks, node: NodeId) -> bool
    requires { node < length work.now.nodes }
    ensures { result ≡ is_bare work.now.nodes hooks.now node }
{
    let kind = kind(work, node);
    hooks.at(enter_event(kind)).is_empty()
        && hooks.at(exit_event(kind)).is_empty()
        && child_count(work, node) == 0
}

fn pass_leaf(work: &mut Work, leaf: NodeId) -> Result<(), AllocError>
    requires { leaf < length work.old.nodes }
    ensures { PassesLeaf work.old work.new leaf result }
{
    work.note(Item::Enter(leaf))?;
    work.note(Item::Leave(leaf))
}

/// Enters and leaves the dirty children of the innermost visit, in turn, as far as they have no children, and their kinds no
/// hook. Answers the dirty child after them, which is passed then. The visit's enter hooks are all passed.
pub fn pass_leaves(
    work: &mut Work,
    hooks: &RunHooks,
    visit: &Open,
) -> Result<Option<NodeId>, AllocError>
    ensures walked { (hs : List PickedHook) (most : ℕ) (k : ℕ) (os : List Open) (s : State) → IsGrouped hooks.now hs → AtChildren hs work.old visit.now k os s → PassesLeaves hs most work.old visit.now k os s work.new result }
    ensures given { IfOk result (λ r. IfSome r (λ child. child < length work.new.nodes)) }
    ensures dirty { IfOk result (λ r. IfSome r (λ child. is_dirty work.new.nodes child ≡ true)) }
    ensures less { IfOk result (λ _. dirty_total work.new.nodes ≤ dirty_total work.old.nodes) }
    ensures texts { KeepsTexts work.old work.new }
{
    while let Some(child) = next_dirty(work, &visit.children) {
        work.facts();
        if !is_bare(work, hooks, child) {
            return Ok(Some(child));
        }
        pass_leaf(work, child)?;
    }
    Ok(None)
}
