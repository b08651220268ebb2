// The walk of plugins over the tree of a style sheet.
ghost use Rattle.std.specs.Prelude.{◌≡◌, ◌<◌, ◌≤◌, ℕ, Bool, List, [], length, vec_len, IsSome, IfOk, IfNone};
ghost use Rattle.std.specs.List.{All};
ghost use Rattle.node_store.specs.Forest.{Forest};
ghost use Rattle.plugin_api.specs.Shelf.{PluginSeen, shelf_seen, hook_at};
ghost use Rattle.visitor_machine.specs.Hooks.{PickedHook};
ghost use Rattle.visitor_machine.specs.Machine.{turn, done};
ghost use Rattle.visitor_walk.specs.declared.turn.Open.{Open};
ghost use Rattle.visitor_walk.specs.Ran.{IsReady, end_of, Made, Stands, PassesMade, AreLeft, EachMade};
ghost use Rattle.visitor_walk.specs.Known.{CallEdits};
ghost use Rattle.visitor_walk.specs.Turns.{IsPass, AllOnShelf, AreOnShelf};
ghost use Rattle.plugin_api.specs.declared.visitor.Told.{Told};
ghost use Rattle.plugin_api.specs.declared.visitor.Duty.{Duty};
ghost use Rattle.visitor_walk.specs.Groups.{AreFew, IsGrouped, shown_hooks};
ghost use Rattle.visitor_walk.specs.Walk.{Walks};

use crate::call::call;
use crate::hooks::{RunHook, RunHooks};
use crate::known::{before_call, keep_known};
use crate::pass::{close_all, run_passes};
use crate::spent::{Limits, Spent};
use crate::turn::{Due, due_at};
use crate::walk_end::WalkEnd;
use css_text::txt::Txt;
use node_store::id::NodeId;
use node_store::item::{Event, Item, Moment};
use node_store::work::Work;
use plugin_api::plugin::Plugin;
use plugin_api::visitor::Visitor;
use std::alloc::{AllocError, Global};

// How the walk ends after a call that came back, where it ends there.
fn end_after(fault: Option<Txt>, spent: Spent, limits: Limits, at: Moment) -> Option<WalkEnd>
    ensures { result ≡ end_of fault spent limits at }
{
    match fault {
        Some(text) => Some(WalkEnd::Failed { text, moment: at }),
        None => {
            if spent.edits > limits.edits {
                Some(WalkEnd::EditBudgetSpent {
                    edits: spent.edits,
                    at,
                })
            } else {
                None
            }
        }
    }
}

// Makes a call that is due, unless all calls are spent. Answers the walk's end, where it ends there.
fn make_call(
    alloc: Global,
    work: &mut Work,
    shelf: &mut Vec<Plugin>,
    limits: Limits,
    spent: &mut Spent,
    due: Due,
) -> Result<Option<WalkEnd>, AllocError>
    requires calls { spent.old.calls ≤ limits.calls }
    requires edits { spent.old.edits ≤ length work.old.log }
    requires on_shelf { let seen = shelf_seen (λ b. (⟦<dyn Visitor as Visitor>⟧ b.vtable).told b.value) (λ b. (⟦<dyn Visitor as Visitor>⟧ b.vtable).said b.value) (λ b. (⟦<dyn Visitor as Visitor>⟧ b.vtable).duty b.value) (λ b. (⟦<dyn Visitor as Visitor>⟧ b.vtable).left b.value) in
        IsSome (hook_at (seen shelf.old.items) due.plugin due.hook) }
    ensures made { let seen = shelf_seen (λ b. (⟦<dyn Visitor as Visitor>⟧ b.vtable).told b.value) (λ b. (⟦<dyn Visitor as Visitor>⟧ b.vtable).said b.value) (λ b. (⟦<dyn Visitor as Visitor>⟧ b.vtable).duty b.value) (λ b. (⟦<dyn Visitor as Visitor>⟧ b.vtable).left b.value) in
        (hs : List PickedHook) (begin : Forest) (old : List PluginSeen) (os : List Open) → (r : IsReady hs limits.edits begin old work.old (seen shelf.old.items) spent.old os due) →
        Made hs limits begin old work.new (seen shelf.new.items) spent.new os (done hs r.ran.state (turn hs r.ran.state)).stage result }
    ensures calls { IfOk result (λ _. spent.new.calls ≤ limits.calls) }
    ensures edits { IfOk result (λ _. spent.new.edits ≤ length work.new.log) }
    ensures less { IfOk result (λ r. IfNone r (spent.old.calls < spent.new.calls)) }
    ensures edited { IfOk result (λ r. IfNone r (CallEdits work.old work.new)) }
    ensures on_shelf { let seen = shelf_seen (λ b. (⟦<dyn Visitor as Visitor>⟧ b.vtable).told b.value) (λ b. (⟦<dyn Visitor as Visitor>⟧ b.vtable).said b.value) (λ b. (⟦<dyn Visitor as Visitor>⟧ b.vtable).duty b.value) (λ b. (⟦<dyn Visitor as Visitor>⟧ b.vtable).left b.value) in
        (i j : ℕ) → IsSome (hook_at (seen shelf.old.items) i j) → IsSome (hook_at (seen shelf.new.items) i j) }
{
    let Due {
        plugin,
        hook,
        moment: Moment { event, node },
    } = due;
    if spent.calls == limits.calls {
        return Ok(Some(WalkEnd::BudgetSpent {
            calls: spent.calls,
            next: Moment { event, node },
        }));
    }
    let before = work.log().len();
    let now_due = Due {
        plugin,
        hook,
        moment: Moment { event, node },
    };
    let fault = call(alloc, work, shelf, now_due)?;
    let edits = (work.log().len() - before - 2) as u64;
    let now = Spent {
        calls: spent.calls + 1,
        edits: spent.edits + edits,
    };
    *spent = now;
    Ok(end_after(fault, now, limits, Moment { event, node }))
}

// Calls each of the hooks with the root.
fn call_each(
    alloc: Global,
    work: &mut Work,
    shelf: &mut Vec<Plugin>,
    limits: Limits,
    spent: &mut Spent,
    hooks: &[RunHook],
) -> Result<Option<WalkEnd>, AllocError>
    requires calls { spent.old.calls ≤ limits.calls }
    requires edits { spent.old.edits ≤ length work.old.log }
    requires on_shelf { let seen = shelf_seen (λ b. (⟦<dyn Visitor as Visitor>⟧ b.vtable).told b.value) (λ b. (⟦<dyn Visitor as Visitor>⟧ b.vtable).said b.value) (λ b. (⟦<dyn Visitor as Visitor>⟧ b.vtable).duty b.value) (λ b. (⟦<dyn Visitor as Visitor>⟧ b.vtable).left b.value) in
        AreOnShelf (seen shelf.old.items) hooks.now }
    ensures made { let seen = shelf_seen (λ b. (⟦<dyn Visitor as Visitor>⟧ b.vtable).told b.value) (λ b. (⟦<dyn Visitor as Visitor>⟧ b.vtable).said b.value) (λ b. (⟦<dyn Visitor as Visitor>⟧ b.vtable).duty b.value) (λ b. (⟦<dyn Visitor as Visitor>⟧ b.vtable).left b.value) in
        (hs : List PickedHook) (begin : Forest) (old : List PluginSeen) (closes : Bool) → (s : Stands hs limits.edits begin old work.old (seen shelf.old.items) spent.old []) → AreLeft hs closes s.ran.state (shown_hooks hooks.now) →
        EachMade hs limits begin old work.new (seen shelf.new.items) spent.new closes result }
    ensures calls { IfOk result (λ _. spent.new.calls ≤ limits.calls) }
    ensures edits { IfOk result (λ _. spent.new.edits ≤ length work.new.log) }
    ensures on_shelf { let seen = shelf_seen (λ b. (⟦<dyn Visitor as Visitor>⟧ b.vtable).told b.value) (λ b. (⟦<dyn Visitor as Visitor>⟧ b.vtable).said b.value) (λ b. (⟦<dyn Visitor as Visitor>⟧ b.vtable).duty b.value) (λ b. (⟦<dyn Visitor as Visitor>⟧ b.vtable).left b.value) in
        (i j : ℕ) → IsSome (hook_at (seen shelf.old.items) i j) → IsSome (hook_at (seen shelf.new.items) i j) }
{
    for at in 0..hooks.len() {
        let due = due_at(&hooks[at], NodeId::new(0));
        if let Some(end) = make_call(alloc, work, shelf, limits, spent, due)? {
            return Ok(Some(end));
        }
    }
    Ok(None)
}

// Passes over the tree, with each call that comes up, until the root is clean.
fn call_in_passes(
    alloc: Global,
    work: &mut Work,
    shelf: &mut Vec<Plugin>,
    limits: Limits,
    spent: &mut Spent,
    hooks: &RunHooks,
) -> Result<Option<WalkEnd>, AllocError>
    requires calls { spent.old.calls ≤ limits.calls }
    requires edits { spent.old.edits ≤ length work.old.log }
    requires on_shelf { let seen = shelf_seen (λ b. (⟦<dyn Visitor as Visitor>⟧ b.vtable).told b.value) (λ b. (⟦<dyn Visitor as Visitor>⟧ b.vtable).said b.value) (λ b. (⟦<dyn Visitor as Visitor>⟧ b.vtable).duty b.value) (λ b. (⟦<dyn Visitor as Visitor>⟧ b.vtable).left b.value) in
        AllOnShelf (seen shelf.old.items) hooks.now }
    ensures made { let seen = shelf_seen (λ b. (⟦<dyn Visitor as Visitor>⟧ b.vtable).told b.value) (λ b. (⟦<dyn Visitor as Visitor>⟧ b.vtable).said b.value) (λ b. (⟦<dyn Visitor as Visitor>⟧ b.vtable).duty b.value) (λ b. (⟦<dyn Visitor as Visitor>⟧ b.vtable).left b.value) in
        (hs : List PickedHook) (begin : Forest) (old : List PluginSeen) → IsGrouped hooks.now hs → (s : Stands hs limits.edits begin old work.old (seen shelf.old.items) spent.old []) → IsPass hs s.ran.state.stage →
        PassesMade hs limits begin old work.new (seen shelf.new.items) spent.new result }
    ensures calls { IfOk result (λ _. spent.new.calls ≤ limits.calls) }
    ensures edits { IfOk result (λ _. spent.new.edits ≤ length work.new.log) }
    ensures on_shelf { let seen = shelf_seen (λ b. (⟦<dyn Visitor as Visitor>⟧ b.vtable).told b.value) (λ b. (⟦<dyn Visitor as Visitor>⟧ b.vtable).said b.value) (λ b. (⟦<dyn Visitor as Visitor>⟧ b.vtable).duty b.value) (λ b. (⟦<dyn Visitor as Visitor>⟧ b.vtable).left b.value) in
        IfOk result (λ _. AllOnShelf (seen shelf.new.items) hooks.now) }
{
    let mut stack = Vec::new(alloc);
    'call: while let Some(due) = run_passes(work, hooks, &mut stack, spent.edits)? {
        work.facts();
        let before = before_call(work, &due, spent.edits);
        if let Some(end) = make_call(alloc, work, shelf, limits, spent, due)? {
            close_all(work, &mut stack);
            return Ok(Some(end));
        }
        keep_known(work, &mut stack, &before, spent.edits);
    }
    Ok(None)
}

// The walk, whatever is reserved in the log.
fn walk_hooks(
    alloc: Global,
    work: &mut Work,
    shelf: &mut Vec<Plugin>,
    picked: &[usize],
    budget: u64,
    edit_budget: u64,
) -> Result<WalkEnd, AllocError>
    requires places { All (λ place. place < vec_len shelf.old) picked.now }
    requires few { vec_len shelf.old < 4294967296 }
    requires hooks_few { AreFew shelf.old.items }
    ensures { let seen = shelf_seen (λ b. (⟦<dyn Visitor as Visitor>⟧ b.vtable).told b.value) (λ b. (⟦<dyn Visitor as Visitor>⟧ b.vtable).said b.value) (λ b. (⟦<dyn Visitor as Visitor>⟧ b.vtable).duty b.value) (λ b. (⟦<dyn Visitor as Visitor>⟧ b.vtable).left b.value) in
        Walks work.old work.new (seen shelf.old.items) (seen shelf.new.items) picked.now budget edit_budget result }
{
    work.facts();
    let hooks = RunHooks::new(alloc, shelf, picked)?;
    let limits = Limits {
        calls: budget,
        edits: edit_budget,
    };
    let mut spent = Spent { calls: 0, edits: 0 };
    let once = hooks.at(Event::Once);
    if let Some(end) = call_each(alloc, work, shelf, limits, &mut spent, once)? {
        return Ok(end);
    }
    if let Some(end) = call_in_passes(alloc, work, shelf, limits, &mut spent, &hooks)? {
        return Ok(end);
    }
    let once_exit = hooks.at(Event::OnceExit);
    if let Some(end) = call_each(alloc, work, shelf, limits, &mut spent, once_exit)? {
        return Ok(end);
    }
    work.note(Item::End)?;
    Ok(WalkEnd::Done)
}

/// Calls the hooks of the picked plugins as PostCSS 8 does: each Once hook with the root, then passes over the tree while
/// the root is dirty, then each OnceExit hook with the root. The log gets the whole run. `budget` is how many calls are
/// allowed, and `edit_budget` how many edits.
///
/// Fails for want of memory alone; the log is then the front of a run.
pub fn walk(
    alloc: Global,
    work: &mut Work,
    shelf: &mut Vec<Plugin>,
    picked: &[usize],
    budget: u64,
    edit_budget: u64,
) -> Result<WalkEnd, AllocError>
    requires places { All (λ place. place < vec_len shelf.old) picked.now }
    requires few { vec_len shelf.old < 4294967296 }
    requires hooks_few { AreFew shelf.old.items }
    ensures { let seen = shelf_seen (λ b. (⟦<dyn Visitor as Visitor>⟧ b.vtable).told b.value) (λ b. (⟦<dyn Visitor as Visitor>⟧ b.vtable).said b.value) (λ b. (⟦<dyn Visitor as Visitor>⟧ b.vtable).duty b.value) (λ b. (⟦<dyn Visitor as Visitor>⟧ b.vtable).left b.value) in
        Walks work.old work.new (seen shelf.old.items) (seen shelf.new.items) picked.now budget edit_budget result }
{
    // Room for the entry and the leave of each node, for a call and its end where plugins are picked, and for the pass and the
    // end. Without it the log grows as it goes.
    let each = if picked.is_empty() { 2 } else { 4 };
    let items = work.node_total().saturating_mul(each).saturating_add(2);
    let _ = work.reserve_log(items);
    walk_hooks(alloc, work, shelf, picked, budget, edit_budget)
}
