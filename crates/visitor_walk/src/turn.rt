// The walk between two calls.
ghost use Rattle.std.specs.Prelude.{◌≡◌, ℕ, ◌+◌, ◌<◌, ◌≤◌, ◌*◌, ◌∷◌, ◌++◌, [], reverse, length, List, true, IfOk, IfSome, MatchOption, None, drop};
ghost use Rattle.node_rows.specs.Nodes.{holds};
ghost use Rattle.node_store.specs.Forest.{cursor_at};
ghost use Rattle.node_store.specs.declared.item.Item.TheVariants as I;
ghost use Rattle.node_store.specs.Cursors.{through};
ghost use Rattle.visitor_machine.specs.Hooks.{PickedHook, fits};
ghost use Rattle.visitor_machine.specs.Machine.{State, key_at};
ghost use Rattle.plugin_api.specs.Shelf.{PluginSeen};
ghost use Rattle.visitor_walk.specs.Groups.{IsGrouped, shown_hooks};
ghost use Rattle.visitor_walk.specs.Turns.{IsNext, Opened, NextDirty, Closes, Leaves, Enters, Shows, IsPass, Strolls, Turned, IsLess, IsSure, AreOnShelf, AllOnShelf, IsOnShelf};

use crate::fits::next_fitting;
use crate::hooks::{RunHook, RunHooks};
use crate::known::share;
use crate::leaves::pass_leaves;
use crate::reads::{enter_event, exit_event, is_in_tree, kind};
use css_text::stop::Stop;
use node_store::cursors::Cursor;
use node_store::id::NodeId;
use node_store::item::{Item, Moment};
use node_store::work::Work;
use std::alloc::AllocError;

/// An open visit: its node, how many enter and exit hooks are passed, the cursor over its children once it was needed, and
/// after how many edits its node was last known to be in the tree.
#[derive(Drop)]
pub struct Open {
    pub node: NodeId,
    pub enter: usize,
    pub exit: usize,
    pub children: Option<Cursor>,
    pub sure: u64,
}

/// A call that is due.
#[derive(Clone, Copy)]
pub struct Due {
    pub plugin: u32,
    pub hook: u32,
    pub moment: Moment,
}

/// A call that is due at a node, and the place behind its hook.
#[derive(Clone, Copy)]
pub struct Next {
    pub behind: usize,
    pub due: Due,
}

/// The call of a hook at a node.
pub fn due_at(hook: &RunHook, node: NodeId) -> Due
    ensures { result ≡ record { plugin = hook.now.plugin; hook = hook.now.hook; moment = record { event = hook.now.event; node = node } } }
{
    Due {
        plugin: hook.plugin,
        hook: hook.hook,
        moment: Moment {
            event: hook.event,
            node,
        },
    }
}

// The call of the first hook, at or after a place, that fits the node's name or property.
fn next_call(work: &Work, hooks: &[RunHook], node: NodeId, from: usize) -> Option<Next>
    requires { node < length work.now.nodes }
    ensures next { MatchOption result
        (through (fits (key_at work.now.nodes node)) (drop from (shown_hooks hooks.now)) ≡ None)
        (λ next. IsNext work.now.nodes hooks.now node from next) }
    ensures calls { (shelf : List PluginSeen) → AreOnShelf shelf hooks.now → IfSome result (λ next. IsOnShelf shelf next.due) }
{
    match next_fitting(work, hooks, node, from) {
        None => None,
        Some(at) => Some(Next {
            behind: at + 1,
            due: due_at(&hooks[at], node),
        }),
    }
}

// The cursor over the node's children, which is opened when it is first needed; none where the node has no block.
fn opened(
    work: &mut Work,
    node: NodeId,
    children: Option<Cursor>,
) -> Result<Option<Cursor>, AllocError>
    requires { node < length work.old.nodes }
    ensures { Opened work.old work.new node children result }
{
    work.facts();
    match children {
        Some(cursor) => Ok(Some(cursor)),
        None => match work.open_each(node) {
            Ok(cursor) => Ok(Some(cursor)),
            Err(Stop::Fault(_)) => Ok(None),
            Err(Stop::Memory(error)) => Err(error),
        },
    }
}

/// The next dirty child, which is passed then.
pub fn next_dirty(work: &mut Work, children: &Option<Cursor>) -> Option<NodeId>
    ensures { NextDirty work.old work.new children.now result }
{
    match children {
        None => None,
        Some(cursor) => match work.next_dirty(cursor) {
            Ok(child) => child,
            Err(_) => None,
        },
    }
}

/// Closes the cursor of a visit, where it has one.
pub fn close(work: &mut Work, children: Option<Cursor>)
    ensures { Closes work.old work.new children }
{
    match children {
        None => {}
        Some(cursor) => {
            let _ = work.close(cursor);
        }
    }
}

fn leave(work: &mut Work, visit: Open) -> Result<(), AllocError>
    ensures { Leaves work.old work.new visit result }
{
    work.note(Item::Leave(visit.node))?;
    close(work, visit.children);
    Ok(())
}

// Enters a child of the innermost visit.
fn enter(
    work: &mut Work,
    stack: &mut Vec<Open>,
    visit: Open,
    child: NodeId,
) -> Result<(), AllocError>
    requires { child < length work.old.nodes }
    ensures { Enters work.old work.new stack.old.items stack.new.items visit child result }
{
    work.note(Item::Enter(child))?;
    let sure = visit.sure;
    stack.push(visit)?;
    stack.push(Open {
        node: child,
        enter: 0,
        exit: 0,
        children: None,
        sure,
    })?;
    Ok(())
}

// Whether the visit's node is in the tree. The store is asked, at the cost of the node's depth, only where edits were made
// since it was last known and it didn't stay known over them.
fn is_there(work: &Work, visit: &Open, edits: u64) -> bool
    ensures value { IsSure work.now.nodes edits visit.now → result ≡ holds work.now.nodes 0 visit.now.node }
    ensures given { result ≡ true → visit.now.node < length work.now.nodes }
{
    if visit.sure == edits {
        // It is in the tree then, and its number is one of those given out.
        visit.node.number() < work.node_total()
    } else {
        is_in_tree(work, visit.node)
    }
}

// A turn of a visit whose node is in the tree: a call is due, or a child is entered, or the visit is left.
fn go_on(
    work: &mut Work,
    hooks: &RunHooks,
    stack: &mut Vec<Open>,
    mut visit: Open,
) -> Result<Option<Due>, AllocError>
    requires { visit.node < length work.old.nodes }
    ensures walked { (hs : List PickedHook) (most : ℕ) (s : State) → IsGrouped hooks.now hs → IsPass hs s.stage → Shows work.old (visit ∷ reverse stack.old.items) s → s.edits ≡ visit.sure → holds work.old.nodes 0 visit.node ≡ true →
        (w : Strolls hs most work.old (visit ∷ reverse stack.old.items) s work.new) × IfOk result (λ r. Turned hs work.old work.new (visit ∷ reverse stack.old.items) (reverse stack.new.items) s w.state r) }
    ensures less { IfOk result (λ r. IsLess work.old work.new stack.old.items stack.new.items r) }
    ensures grows { length work.old.log ≤ length work.new.log }
    ensures calls { (shelf : List PluginSeen) → AllOnShelf shelf hooks.now → IfOk result (λ r. IfSome r (λ due. IsOnShelf shelf due)) }
{
    let kind = kind(work, visit.node);
    let enters = hooks.at(enter_event(kind));
    if let Some(next) = next_call(work, enters, visit.node, visit.enter) {
        visit.enter = next.behind;
        stack.push(visit)?;
        return Ok(Some(next.due));
    }
    visit.enter = enters.len();
    let children = visit.children.take();
    visit.children = opened(work, visit.node, children)?;
    if let Some(child) = pass_leaves(work, hooks, &visit)? {
        work.facts();
        enter(work, stack, visit, child)?;
        return Ok(None);
    }
    let exits = hooks.at(exit_event(kind));
    if let Some(next) = next_call(work, exits, visit.node, visit.exit) {
        visit.exit = next.behind;
        stack.push(visit)?;
        return Ok(Some(next.due));
    }
    leave(work, visit)?;
    Ok(None)
}

/// One turn of the innermost visit: it is left, or a child is entered, or a call is due. `edits` is how many edits were
/// made so far.
pub fn take_turn(
    work: &mut Work,
    hooks: &RunHooks,
    stack: &mut Vec<Open>,
    mut top: Open,
    edits: u64,
) -> Result<Option<Due>, AllocError>
    ensures walked { (hs : List PickedHook) (most : ℕ) (s : State) → IsGrouped hooks.now hs → IsPass hs s.stage → Shows work.old (top ∷ reverse stack.old.items) s → s.edits ≡ edits →
        (w : Strolls hs most work.old (top ∷ reverse stack.old.items) s work.new) × IfOk result (λ r. Turned hs work.old work.new (top ∷ reverse stack.old.items) (reverse stack.new.items) s w.state r) }
    ensures less { IfOk result (λ r. IsLess work.old work.new stack.old.items stack.new.items r) }
    ensures grows { length work.old.log ≤ length work.new.log }
    ensures calls { (shelf : List PluginSeen) → AllOnShelf shelf hooks.now → IfOk result (λ r. IfSome r (λ due. IsOnShelf shelf due)) }
{
    work.facts();
    if !is_there(work, &top, edits) {
        leave(work, top)?;
        return Ok(None);
    }
    top.sure = edits;
    share(work, stack, &top);
    go_on(work, hooks, stack, top)
}
