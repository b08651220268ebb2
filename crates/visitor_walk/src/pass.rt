// The passes between two calls.
ghost use Rattle.std.specs.Prelude.{◌≡◌, ℕ, ◌+◌, ◌<◌, ◌≤◌, ◌*◌, List, [], reverse, length, IfOk, IfSome, true, vec_len, suc};
ghost use Rattle.node_rows.specs.Nodes.{is_dirty};
ghost use Rattle.visitor_machine.specs.Hooks.{PickedHook};
ghost use Rattle.visitor_machine.specs.Machine.{State, Frame};
ghost use Rattle.plugin_api.specs.Shelf.{PluginSeen};
ghost use Rattle.visitor_walk.specs.Groups.{IsGrouped};
ghost use Rattle.node_store.specs.Forest.{cursor_at};
ghost use Rattle.visitor_walk.specs.Turns.{Shows, IsPass, Strolls, Advanced, Began, Passed, dirty_total, AllOnShelf, IsOnShelf, SameBeside, AllApart, AllShown, held};
ghost use Rattle.plugin_api.specs.Open.{open_total};

use crate::hooks::RunHooks;
use crate::reads::is_root_dirty;
use crate::turn::{Due, Open, close, take_turn};
use node_store::id::NodeId;
use node_store::item::Item;
use node_store::work::Work;
use std::alloc::AllocError;

// Turns until a call is due, or no visit is open. `edits` is how many edits were made so far.
fn advance(
    work: &mut Work,
    hooks: &RunHooks,
    stack: &mut Vec<Open>,
    edits: u64,
) -> Result<Option<Due>, AllocError>
    ensures walked { (hs : List PickedHook) (most : ℕ) (s : State) → IsGrouped hooks.now hs → IsPass hs s.stage → Shows work.old (reverse stack.old.items) s → s.edits ≡ edits →
        (w : Strolls hs most work.old (reverse stack.old.items) s work.new) × IfOk result (λ r. Advanced hs work.old work.new (reverse stack.old.items) (reverse stack.new.items) w.state r) }
    ensures less { IfOk result (λ _. dirty_total work.new.nodes ≤ dirty_total work.old.nodes) }
    ensures grows { length work.old.log ≤ length work.new.log }
    ensures calls { (shelf : List PluginSeen) → AllOnShelf shelf hooks.now → IfOk result (λ r. IfSome r (λ due. IsOnShelf shelf due)) }
{
    while let Some(top) = stack.pop() {
        if let Some(due) = take_turn(work, hooks, stack, top, edits)? {
            return Ok(Some(due));
        }
    }
    Ok(None)
}

// Begins a pass, where no visit is open and the root is dirty.
fn begin_pass(work: &mut Work, stack: &mut Vec<Open>, edits: u64) -> Result<(), AllocError>
    ensures walked { (hs : List PickedHook) (most : ℕ) (s : State) → IsPass hs s.stage → Shows work.old [] s → is_dirty work.old.nodes 0 ≡ true → stack.old.items ≡ [] → s.edits ≡ edits →
        (w : Strolls hs most work.old [] s work.new) × IfOk result (λ _. Began hs work.old work.new (reverse stack.new.items) w.state) }
    ensures grows { length work.old.log ≤ length work.new.log }
    ensures less { is_dirty work.old.nodes 0 ≡ true → IfOk result (λ _. suc (dirty_total work.new.nodes) ≡ dirty_total work.old.nodes) }
{
    work.facts();
    let root = NodeId::new(0);
    work.note(Item::Pass)?;
    work.note(Item::Enter(root))?;
    stack.push(Open {
        node: root,
        enter: 0,
        exit: 0,
        children: None,
        sure: edits,
    })?;
    Ok(())
}

/// The passes until a call is due, or until the root is clean and no visit is open. `edits` is how many edits were made so
/// far.
pub fn run_passes(
    work: &mut Work,
    hooks: &RunHooks,
    stack: &mut Vec<Open>,
    edits: u64,
) -> Result<Option<Due>, AllocError>
    ensures walked { (hs : List PickedHook) (most : ℕ) (s : State) → IsGrouped hooks.now hs → IsPass hs s.stage → Shows work.old (reverse stack.old.items) s → s.edits ≡ edits →
        (w : Strolls hs most work.old (reverse stack.old.items) s work.new) × IfOk result (λ r. Passed hs work.old work.new (reverse stack.old.items) (reverse stack.new.items) w.state r) }
    ensures grows { length work.old.log ≤ length work.new.log }
    ensures calls { (shelf : List PluginSeen) → AllOnShelf shelf hooks.now → IfOk result (λ r. IfSome r (λ due. IsOnShelf shelf due)) }
{
    'pass: loop {
        if let Some(due) = advance(work, hooks, stack, edits)? {
            return Ok(Some(due));
        }
        if !is_root_dirty(work) {
            return Ok(None);
        }
        begin_pass(work, stack, edits)?;
    }
}

/// Closes the cursors of all visits, none of which is open then.
pub fn close_all(work: &mut Work, stack: &mut Vec<Open>)
    ensures same { SameBeside work.old work.new }
    ensures count { (fs : List Frame) → AllShown work.old.cursors (reverse stack.old.items) fs → open_total work.new.cursors + held (reverse stack.old.items) ≡ open_total work.old.cursors }
    ensures kept { (serial : ℕ) → AllApart (reverse stack.old.items) serial → cursor_at work.new.cursors serial ≡ cursor_at work.old.cursors serial }
{
    while let Some(visit) = stack.pop() {
        close(work, visit.children);
    }
}
