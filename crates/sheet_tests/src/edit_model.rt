// A plain list of nodes as a model of the tree's moves, for tests: siblings stand in the list in their order.
use css_text::stop::Stop;
use edit_calls::moving::{append, insert_after, insert_before, prepend, remove, replace_with};
use node_store::fault::TreeFault;
use node_store::id::NodeId;
use node_store::work::Work;
use std::alloc::{AllocError, Global};

/// A node with its parent.
#[derive(Clone, Copy)]
pub struct Entry {
    pub node: u32,
    pub parent: Option<u32>,
    pub block: bool,
}

/// A move of one node.
#[derive(Clone, Copy)]
pub enum Move {
    Append { container: u32 },
    Prepend { container: u32 },
    Before { anchor: u32 },
    Behind { anchor: u32 },
    Replace { anchor: u32 },
    Remove,
}

fn id(number: u32) -> NodeId {
    NodeId::new(number)
}

/// The list of a work whose nodes are numbered in document order.
pub fn entries_of(alloc: Global, work: &Work) -> Result<Vec<Entry>, AllocError> {
    let mut entries = Vec::new(alloc);
    for node in 0..work.node_total() {
        let parent = match work.parent(id(node)) {
            Ok(Some(parent)) => Some(parent.number()),
            _ => None,
        };
        let block = work.has_block(id(node)) == Ok(true);
        entries.push(Entry {
            node,
            parent,
            block,
        })?;
    }
    Ok(entries)
}

fn find(entries: &[Entry], node: u32) -> Option<Entry> {
    for entry in entries {
        if entry.node == node {
            return Some(*entry);
        }
    }
    None
}

fn parent_of(entries: &[Entry], node: u32) -> Option<u32> {
    match find(entries, node) {
        Some(entry) => entry.parent,
        None => None,
    }
}

fn has_block(entries: &[Entry], node: u32) -> bool {
    match find(entries, node) {
        Some(entry) => entry.block,
        None => false,
    }
}

fn is_above(entries: &[Entry], node: u32, below: u32) -> bool {
    let mut at = Some(below);
    for _ in entries {
        match at {
            None => return false,
            Some(m) => {
                if m == node {
                    return true;
                }
                at = parent_of(entries, m);
            }
        }
    }
    false
}

fn may_stand_beside(entries: &[Entry], node: u32, anchor: u32) -> bool {
    node != 0 && parent_of(entries, anchor).is_some() && !is_above(entries, node, anchor)
}

/// Whether the move is one that the calls make.
pub fn is_made(entries: &[Entry], node: u32, to: Move) -> bool {
    match to {
        Move::Append { container } => node != 0
            && has_block(entries, container)
            && !is_above(entries, node, container),
        Move::Prepend { container } => node != 0
            && has_block(entries, container)
            && !is_above(entries, node, container),
        Move::Before { anchor } => may_stand_beside(entries, node, anchor),
        Move::Behind { anchor } => may_stand_beside(entries, node, anchor),
        Move::Replace { anchor } => may_stand_beside(entries, node, anchor),
        Move::Remove => parent_of(entries, node).is_some(),
    }
}

fn parent_after(entries: &[Entry], to: Move) -> Option<u32> {
    match to {
        Move::Append { container } => Some(container),
        Move::Prepend { container } => Some(container),
        Move::Before { anchor } => parent_of(entries, anchor),
        Move::Behind { anchor } => parent_of(entries, anchor),
        Move::Replace { anchor } => parent_of(entries, anchor),
        Move::Remove => None,
    }
}

// The moved entry stands before this one.
fn stands_before(to: Move, node: u32) -> bool {
    match to {
        Move::Before { anchor } => anchor == node,
        Move::Replace { anchor } => anchor == node,
        _ => false,
    }
}

fn stands_behind(to: Move, node: u32) -> bool {
    match to {
        Move::Behind { anchor } => anchor == node,
        _ => false,
    }
}

// The entry as the move leaves it: a node that was replaced is loose.
fn left(entry: Entry, to: Move) -> Entry {
    match to {
        Move::Replace { anchor } if anchor == entry.node => Entry {
            parent: None,
            ..entry
        },
        _ => entry,
    }
}

/// The list after the move.
pub fn moved(
    alloc: Global,
    entries: &[Entry],
    node: u32,
    to: Move,
) -> Result<Vec<Entry>, AllocError> {
    let entry = Entry {
        node,
        parent: parent_after(entries, to),
        block: has_block(entries, node),
    };
    let mut after = Vec::new(alloc);
    if let Move::Prepend { .. } = to {
        after.push(entry)?;
    }
    for other in entries {
        if stands_before(to, other.node) {
            after.push(entry)?;
        }
        if other.node != node {
            after.push(left(*other, to))?;
        }
        if stands_behind(to, other.node) {
            after.push(entry)?;
        }
    }
    match to {
        Move::Append { .. } => after.push(entry)?,
        Move::Remove => after.push(entry)?,
        _ => {}
    }
    Ok(after)
}

/// The sibling behind the node, in the list.
pub fn next_in(entries: &[Entry], entry: Entry) -> Option<u32> {
    if entry.parent.is_none() {
        return None;
    }
    let mut passed = false;
    for other in entries {
        if passed && other.parent == entry.parent {
            return Some(other.node);
        }
        if other.node == entry.node {
            passed = true;
        }
    }
    None
}

fn call(work: &mut Work, node: u32, to: Move) -> Result<(), Stop<TreeFault>> {
    match to {
        Move::Append { container } => append(work, id(container), id(node)),
        Move::Prepend { container } => prepend(work, id(container), id(node)),
        Move::Before { anchor } => insert_before(work, id(anchor), id(node)),
        Move::Behind { anchor } => insert_after(work, id(anchor), id(node)),
        Move::Replace { anchor } => replace_with(work, id(anchor), id(node)),
        Move::Remove => remove(work, id(node)),
    }
}

/// Whether the move was made on the work.
pub fn make_move(work: &mut Work, node: u32, to: Move) -> Result<bool, AllocError> {
    match call(work, node, to) {
        Ok(()) => Ok(true),
        Err(Stop::Fault(_)) => Ok(false),
        Err(Stop::Memory(error)) => Err(error),
    }
}
