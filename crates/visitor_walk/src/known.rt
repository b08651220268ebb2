// Which open visits stay known to be in the tree.
//
// A call that takes out no node, or children of its node alone, or children of its node's parent alone (as where it takes
// out its own node), costs a constant time for each item that it logs. After any other the walk asks the store once
// whether the innermost visit's node is in the tree, at the cost of its depth, and knows its parents from it as it leaves
// them. So a visit is asked for again only where its node was taken out, or its child isn't below it any more.
ghost use Rattle.std.specs.Prelude.{◌≡◌, ◌≤◌, length, reverse, count_by};
ghost use Rattle.visitor_walk.specs.Known.{shared, puts_into, takes_out, counted, before_call, lost_its_own, stays_known, kept, kept_two};

use crate::reads::{child_count, is_child, parent};
use crate::turn::{Due, Open};
use node_store::id::NodeId;
use node_store::item::{Edit, Item};
use node_store::work::Work;

/// A node, and how many children it had.
#[derive(Clone, Copy)]
pub struct Counted {
    pub node: NodeId,
    pub children: u32,
}

/// How many items and edits there were before a call, and the children of its node and of that node's parent.
#[derive(Clone, Copy)]
pub struct Before {
    pub items: usize,
    pub edits: u64,
    pub at: Counted,
    pub above: Counted,
}

/// The visit below the innermost is known to be in the tree as the innermost is, where its node is the parent.
pub fn share(work: &Work, stack: &mut Vec<Open>, top: &Open)
    ensures visits { reverse stack.new.items ≡ shared work.now.nodes top.now (reverse stack.old.items) }
    ensures as_many { length stack.new.items ≡ length stack.old.items }
{
    if let Some(mut below) = stack.pop() {
        if is_child(work, top.node, below.node) {
            below.sure = top.sure;
        }
        stack.push_reserved(below);
    }
}

fn count(work: &Work, node: NodeId) -> Counted
    ensures { result ≡ counted work.now.nodes node }
{
    Counted {
        node,
        children: child_count(work, node),
    }
}

/// What is kept of the forest before a call.
pub fn before_call(work: &Work, due: &Due, edits: u64) -> Before
    ensures { result ≡ before_call work.now due.now.moment.node edits }
{
    let node = due.moment.node;
    let above = match parent(work, node) {
        None => node,
        Some(parent) => parent,
    };
    Before {
        items: work.log().len(),
        edits,
        at: count(work, node),
        above: count(work, above),
    }
}

fn puts_into(node: NodeId, item: &Item) -> bool
    ensures { result ≡ puts_into node item.now }
{
    match item {
        Item::Edit(Edit::Insert { parent, .. }) => *parent == node,
        _ => false,
    }
}

fn takes_out(item: &Item) -> bool
    ensures { result ≡ takes_out item.now }
{
    matches!(item, Item::Edit(Edit::Remove { .. }))
}

fn taken_out(items: &[Item]) -> usize
    ensures value { result ≡ count_by takes_out items.now }
    ensures few { result ≤ length items.now }
{
    items.iter().filter(|item| takes_out(item)).count()
}

fn put_into(node: NodeId, items: &[Item]) -> usize
    ensures value { result ≡ count_by (puts_into node) items.now }
    ensures few { result ≤ length items.now }
{
    items.iter().filter(|item| puts_into(node, item)).count()
}

// Whether the node was counted, and has lost as many children since as the items from that place took out nodes in all.
fn lost_its_own(work: &Work, from: usize, was: Counted, node: NodeId) -> bool
    requires { from ≤ length work.now.log }
    ensures { result ≡ lost_its_own work.now from was node }
{
    let items = &work.log()[from..];
    let lost = child_count(work, node) as usize + taken_out(items);
    was.node == node && lost == was.children as usize + put_into(node, items)
}

// The visit as it is known after a call.
fn kept(work: &Work, before: &Before, edits: u64, mut visit: Open) -> Open
    requires { before.now.items ≤ length work.now.log }
    ensures { result ≡ kept work.now before.now edits visit }
{
    let node = visit.node;
    if visit.sure == before.edits
        && (lost_its_own(work, before.items, before.at, node)
            || lost_its_own(work, before.items, before.above, node))
    {
        visit.sure = edits;
    }
    visit
}

/// After a call: the two innermost visits stay known to be in the tree where no nodes but children of theirs were taken
/// out.
pub fn keep_known(work: &Work, stack: &mut Vec<Open>, before: &Before, edits: u64)
    requires { before.now.items ≤ length work.now.log }
    ensures { reverse stack.new.items ≡ kept_two work.now before.now edits (reverse stack.old.items) }
{
    // Without an edit each visit is known as before.
    if edits == before.edits {
        return;
    }
    if let Some(top) = stack.pop() {
        let top = kept(work, before, edits, top);
        if let Some(below) = stack.pop() {
            stack.push_reserved(kept(work, before, edits, below));
        }
        stack.push_reserved(top);
    }
}
