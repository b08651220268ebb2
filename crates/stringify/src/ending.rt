// The end of a node's body, and the `;` behind it.
ghost use Rattle.std.specs.Prelude.{◌≡◌, ◌<◌, ◌^◌, ◌∷◌, [], length, OnOk, Some, None, if◌then◌else◌};
ghost use Rattle.css_tree.specs.Print.{closing, closed_block, after_text, takes_semicolon, semicolon_after};
ghost use Rattle.node_rows.specs.Nodes.{text_of, parent_of, depth_of, siblings};
ghost use Rattle.node_rows.specs.NumberTrees.{plain, below, number_trees};
ghost use Rattle.stringify.specs.Sheet.{put, ended, container_at, semicolon_of};

use crate::output::Output;
use crate::reads;
use css_text::txt::Txt;
use css_tree::node::{Block, NodeText};
use node_store::id::NodeId;
use node_store::parts;
use node_store::work::Work;
use std::alloc::AllocError;

fn write_after(
    work: &Work,
    n: NodeId,
    depth: usize,
    after: &Option<Txt>,
    out: &mut Output,
) -> Result<(), AllocError>
    requires given { n < length work.now.nodes }
    requires few { depth < 2 ^ 32 }
    ensures { OnOk result (out.new ≡ put (after_text depth after.now (plain work.now.nodes (below work.now.nodes n))) out.old) }
{
    work.facts();
    match after {
        Some(text) => out.push_str(text.as_str()),
        None => match reads::first_child(work, n) {
            Some(_) => out.push_new_line(depth),
            None => Ok(()),
        },
    }
}

fn write_block_end(
    work: &Work,
    n: NodeId,
    depth: usize,
    block: &Block,
    out: &mut Output,
) -> Result<(), AllocError>
    requires given { n < length work.now.nodes }
    requires few { depth < 2 ^ 32 }
    ensures { OnOk result (out.new ≡ put (closed_block depth (Some block.now) (plain work.now.nodes (below work.now.nodes n))) out.old) }
{
    write_after(work, n, depth, &block.after, out)?;
    out.push('}')?;
    Ok(())
}

fn write_closing(work: &Work, n: NodeId, depth: usize, out: &mut Output) -> Result<(), AllocError>
    requires given { n < length work.now.nodes }
    requires few { depth < 2 ^ 32 }
    ensures { OnOk result (out.new ≡ put (closing depth (text_of work.now.nodes n) (plain work.now.nodes (below work.now.nodes n))) out.old) }
{
    match reads::text_of(work, n) {
        NodeText::Root { block, .. } => write_after(work, n, depth, &block.after, out),
        NodeText::AtRule { block, .. } => match block {
            Some(block) => write_block_end(work, n, depth, block, out),
            None => Ok(()),
        },
        NodeText::Rule { block, .. } => write_block_end(work, n, depth, block, out),
        NodeText::Declaration { .. } => Ok(()),
        NodeText::Comment { .. } => Ok(()),
    }
}

fn takes_semicolon(text: &NodeText) -> bool
    ensures { result ≡ takes_semicolon text.now }
{
    match text {
        NodeText::AtRule { block, .. } => block.is_none(),
        NodeText::Declaration { .. } => true,
        _ => false,
    }
}

// Whether a `;` stands behind a child of `parent`.
fn has_semicolon(work: &Work, n: NodeId, parent: NodeId) -> bool
    requires given { n < length work.now.nodes }
    requires child { parent_of work.now.nodes n ≡ Some parent }
    ensures { (if result then 59 ∷ [] else []) ≡ semicolon_after (container_at work.now.nodes parent) (text_of work.now.nodes n) (plain work.now.nodes (number_trees work.now.nodes (siblings work.now.nodes n))) }
{
    work.facts();
    if !takes_semicolon(reads::text_of(work, n)) {
        return false;
    }
    if !reads::are_comments(work, reads::next_sibling(work, n)) {
        return true;
    }
    match parts::block(reads::text_of(work, parent)) {
        Some(block) => block.semicolon,
        None => false,
    }
}

fn write_semicolon(work: &Work, top: NodeId, n: NodeId, out: &mut Output) -> Result<(), AllocError>
    requires { n < length work.now.nodes }
    ensures { OnOk result (out.new ≡ put (semicolon_of work.now.nodes top n) out.old) }
{
    if n == top {
        return Ok(());
    }
    match reads::parent_of(work, n) {
        Some(parent) => {
            if has_semicolon(work, n, parent) {
                out.push(';')
            } else {
                Ok(())
            }
        }
        None => Ok(()),
    }
}

/// Prints the body of n behind its children, and the `;` behind n where n isn't the top of what is printed.
pub fn end_node(
    work: &Work,
    top: NodeId,
    n: NodeId,
    depth: usize,
    out: &mut Output,
) -> Result<(), AllocError>
    requires given { n < length work.now.nodes }
    requires depth { depth ≡ depth_of work.now.nodes n }
    requires few { depth < 2 ^ 32 }
    ensures { OnOk result (out.new ≡ ended work.now.nodes top n out.old) }
{
    write_closing(work, n, depth, out)?;
    write_semicolon(work, top, n, out)?;
    Ok(())
}
