// What plugins of the tests do: edit calls, which count for nothing where they are refused.
ghost use Rattle.sheet_tests.specs.Made.{IsEdited};

use css_text::stop::Stop;
use css_text::txt::Txt;
use edit_calls::making::{clone_tree, new_rule};
use edit_calls::moving::{append, insert_after, insert_before, remove};
use edit_calls::setting::set_prop;
use node_store::fault::TreeFault;
use node_store::id::NodeId;
use node_store::work::Work;
use plugin_api::visitor::VisitFault;
use std::alloc::Global;

/// One thing that a plugin does. Nodes are named by their numbers.
#[derive(Clone, Copy)]
pub enum Deed {
    /// Makes a loose rule with the selector `n`.
    MakeRule,
    /// Makes a rule with the selector `b`, the root's last child.
    AppendRule,
    /// Gives a declaration the property `x`.
    SetProp(u32),
    InsertBefore { anchor: u32, node: u32 },
    InsertAfter { anchor: u32, node: u32 },
    Append { container: u32, node: u32 },
    Remove(u32),
    /// Puts a copy of the visited node behind it.
    InsertClone,
    /// Takes the visited node's parent, its next sibling and the node itself out, and puts each back as a last child.
    Reinsert,
    /// Fails with the text `no`.
    Fail,
}

fn settled(answer: Result<(), Stop<TreeFault>>) -> Result<(), VisitFault> {
    match answer {
        Err(Stop::Memory(error)) => Err(VisitFault::Memory(error)),
        _ => Ok(()),
    }
}

fn settled_new(answer: Result<NodeId, Stop<TreeFault>>) -> Result<(), VisitFault> {
    match answer {
        Err(Stop::Memory(error)) => Err(VisitFault::Memory(error)),
        _ => Ok(()),
    }
}

fn append_rule(work: &mut Work) -> Result<(), Stop<TreeFault>>
    ensures { IsEdited work.old work.new }
{
    let made = new_rule(work, "b")?;
    append(work, NodeId::new(0), made)
}

fn insert_clone(work: &mut Work, node: NodeId) -> Result<(), Stop<TreeFault>>
    ensures { IsEdited work.old work.new }
{
    let copy = clone_tree(work, node)?;
    insert_after(work, node, copy)
}

fn remove_from(work: &mut Work, parent: NodeId, node: NodeId) -> Result<(), Stop<TreeFault>>
    ensures { IsEdited work.old work.new }
{
    remove(work, node)?;
    append(work, parent, node)
}

// Takes a node out of its parent, and puts it back as the last child.
fn reinsert(work: &mut Work, node: Option<NodeId>) -> Result<(), Stop<TreeFault>>
    ensures { IsEdited work.old work.new }
{
    match node {
        None => Ok(()),
        Some(node) => match work.parent(node) {
            Ok(Some(parent)) => remove_from(work, parent, node),
            _ => Ok(()),
        },
    }
}

fn reinsert_all(work: &mut Work, node: NodeId) -> Result<(), Stop<TreeFault>>
    ensures { IsEdited work.old work.new }
{
    let parent = work.parent(node).unwrap_or(None);
    let next = work.next_sibling(node).unwrap_or(None);
    reinsert(work, parent)?;
    reinsert(work, next)?;
    reinsert(work, Some(node))
}

fn no(alloc: Global) -> VisitFault {
    match Txt::new(alloc, "no") {
        Ok(text) => VisitFault::Plugin(text),
        Err(error) => VisitFault::Memory(error),
    }
}

/// Does it at a call with the node.
pub fn carry_out(alloc: Global, work: &mut Work, deed: Deed, node: NodeId) -> Result<(), VisitFault>
    ensures { IsEdited work.old work.new }
{
    match deed {
        Deed::MakeRule => settled_new(new_rule(work, "n")),
        Deed::AppendRule => settled(append_rule(work)),
        Deed::SetProp(node) => settled(set_prop(work, NodeId::new(node), "x")),
        Deed::InsertBefore { anchor, node } => {
            settled(insert_before(work, NodeId::new(anchor), NodeId::new(node)))
        }
        Deed::InsertAfter { anchor, node } => {
            settled(insert_after(work, NodeId::new(anchor), NodeId::new(node)))
        }
        Deed::Append { container, node } => {
            settled(append(work, NodeId::new(container), NodeId::new(node)))
        }
        Deed::Remove(node) => settled(remove(work, NodeId::new(node))),
        Deed::InsertClone => settled(insert_clone(work, node)),
        Deed::Reinsert => settled(reinsert_all(work, node)),
        Deed::Fail => Err(no(alloc)),
    }
}
