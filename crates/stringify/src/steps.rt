// The printing of a node with all nodes below it, step by step from node to node in document order.
ghost use Rattle.std.specs.Prelude.{◌≡◌, ◌<◌, ◌^◌, ◌≢◌, true, false, length, OnOk, IfOk, Some, if◌then◌else◌, nat_eq};
ghost use Rattle.css_tree.specs.Print.{opening};
ghost use Rattle.node_rows.specs.Nodes.{text_of, parent_of, depth_of};
ghost use Rattle.stringify.specs.Sheet.{put, begin, with_body, container_at};
ghost use Rattle.stringify.specs.Follows.{Follows, IsStep};

use crate::before::begin_child;
use crate::body::write_opening;
use crate::ending::end_node;
use crate::output::Output;
use crate::reads;
use node_store::id::NodeId;
use node_store::work::Work;
use std::alloc::AllocError;

/// A node of that depth. Its beginning is printed, or all of it with the `;` behind it.
#[derive(Clone, Copy)]
pub struct Step {
    node: NodeId,
    depth: usize,
    is_begun: bool,
}

fn depth_below(work: &Work, n: NodeId, depth: usize) -> usize
    requires given { n < length work.now.nodes }
    requires depth { depth ≡ depth_of work.now.nodes n }
    ensures value { result ≡ (container_at work.now.nodes n).depth }
    ensures few { result < 2 ^ 32 }
{
    work.facts();
    if n.number() == 0 { 0 } else { depth + 1 }
}

fn depth_above(work: &Work, n: NodeId, parent: NodeId, depth: usize) -> usize
    requires depth { depth ≡ depth_of work.now.nodes n }
    requires child { parent_of work.now.nodes n ≡ Some parent }
    ensures value { result ≡ depth_of work.now.nodes parent }
    ensures few { result < 2 ^ 32 }
{
    work.facts();
    if parent.number() == 0 { 0 } else { depth - 1 }
}

// Goes on behind a node's beginning.
fn descend(work: &Work, top: NodeId, at: Step, out: &mut Output) -> Result<Option<Step>, AllocError>
    requires step { IsStep work.now.nodes top at }
    requires begun { at.is_begun ≡ true }
    ensures { IfOk result (λ next. Follows work.now.nodes top at out.old next out.new) }
{
    work.facts();
    let depth = depth_below(work, at.node, at.depth);
    match reads::first_child(work, at.node) {
        Some(child) => {
            begin_child(work, at.node, depth, true, child, out)?;
            Ok(Some(Step {
                node: child,
                depth,
                is_begun: true,
            }))
        }
        None => {
            end_node(work, top, at.node, at.depth, out)?;
            Ok(Some(Step {
                node: at.node,
                depth: at.depth,
                is_begun: false,
            }))
        }
    }
}

// Goes on behind a node and the `;` behind it.
fn ascend(work: &Work, top: NodeId, at: Step, out: &mut Output) -> Result<Option<Step>, AllocError>
    requires step { IsStep work.now.nodes top at }
    requires ended { at.is_begun ≡ false }
    requires below { at.node ≢ top }
    ensures { IfOk result (λ next. Follows work.now.nodes top at out.old next out.new) }
{
    work.facts();
    let parent = match reads::parent_of(work, at.node) {
        Some(parent) => parent,
        None => unreachable!(),
    };
    match reads::next_sibling(work, at.node) {
        Some(sibling) => {
            begin_child(work, parent, at.depth, false, sibling, out)?;
            Ok(Some(Step {
                node: sibling,
                depth: at.depth,
                is_begun: true,
            }))
        }
        None => {
            let depth = depth_above(work, at.node, parent, at.depth);
            end_node(work, top, parent, depth, out)?;
            Ok(Some(Step {
                node: parent,
                depth,
                is_begun: false,
            }))
        }
    }
}

fn go_on(work: &Work, top: NodeId, at: Step, out: &mut Output) -> Result<Option<Step>, AllocError>
    requires { IsStep work.now.nodes top at }
    ensures { IfOk result (λ next. Follows work.now.nodes top at out.old next out.new) }
{
    work.facts();
    if at.is_begun {
        descend(work, top, at, out)
    } else if at.node == top {
        Ok(None)
    } else {
        ascend(work, top, at, out)
    }
}

// The start of a node below the root, and its body up to its children.
fn begin_body(work: &Work, n: NodeId, out: &mut Output) -> Result<(), AllocError>
    requires { n < length work.now.nodes }
    ensures { OnOk result (out.new ≡ put (opening (text_of work.now.nodes n)) (if nat_eq n 0 then out.old else begin n out.old)) }
{
    if n.number() != 0 {
        out.begin(n)?;
        return write_opening(reads::text_of(work, n), out);
    }
    write_opening(reads::text_of(work, n), out)
}

/// Prints the body of a node.
pub fn write_body(work: &Work, n: NodeId, out: &mut Output) -> Result<(), AllocError>
    requires { n < length work.now.nodes }
    ensures { OnOk result (out.new ≡ with_body work.now.nodes n out.old) }
{
    work.facts();
    let depth = reads::depth_of(work, n);
    begin_body(work, n, out)?;
    let mut at = Some(Step {
        node: n,
        depth,
        is_begun: true,
    });
    while let Some(step) = at {
        at = go_on(work, n, step, out)?;
    }
    Ok(())
}
