// What stands before a node.
ghost use Rattle.std.specs.Prelude.{◌≡◌, ◌<◌, ◌^◌, length, OnOk, Some, None, MatchOption, Option};
ghost use Rattle.std.specs.Str.{chars};
ghost use Rattle.css_tree.specs.Parts.{before_of};
ghost use Rattle.css_tree.specs.Print.{before_text, like_first, before_first};
ghost use Rattle.node_rows.specs.Nodes.{text_of};
ghost use Rattle.node_rows.specs.NumberTrees.{plain, below};
ghost use Rattle.stringify.specs.Sheet.{put, container_at, begun};

use crate::body::write_opening;
use crate::output::Output;
use crate::reads;
use node_store::id::NodeId;
use node_store::parts;
use node_store::work::Work;
use std::alloc::AllocError;

// The text before the first child.
fn first_before(work: &Work, parent: NodeId) -> Option<&str>
    requires { parent < length work.now.nodes }
    ensures { MatchOption result
        (before_first (plain work.now.nodes (below work.now.nodes parent)) ≡ None)
        (λ s. before_first (plain work.now.nodes (below work.now.nodes parent)) ≡ Some (chars s.now)) }
{
    work.facts();
    match reads::first_child(work, parent) {
        Some(child) => parts::before(reads::text_of(work, child)),
        None => None,
    }
}

// The white space before the first child, or a new line.
fn write_like_first(
    work: &Work,
    parent: NodeId,
    depth: usize,
    out: &mut Output,
) -> Result<(), AllocError>
    requires given { parent < length work.now.nodes }
    requires few { depth < 2 ^ 32 }
    ensures { OnOk result (out.new ≡ put (like_first depth (before_first (plain work.now.nodes (below work.now.nodes parent)))) out.old) }
{
    match first_before(work, parent) {
        Some(text) => out.push_spaces(text),
        None => out.push_new_line(depth),
    }
}

fn write_before(
    work: &Work,
    parent: NodeId,
    depth: usize,
    is_first: bool,
    child: NodeId,
    out: &mut Output,
) -> Result<(), AllocError>
    requires given { parent < length work.now.nodes }
    requires child { child < length work.now.nodes }
    requires depth { depth ≡ (container_at work.now.nodes parent).depth }
    requires few { depth < 2 ^ 32 }
    ensures { OnOk result (out.new ≡ put (before_text (container_at work.now.nodes parent) is_first (before_of (text_of work.now.nodes child))) out.old) }
{
    match parts::before(reads::text_of(work, child)) {
        Some(text) => out.push_str(text),
        None => match is_first {
            true => match depth {
                0 => Ok(()),
                _ => out.push_new_line(depth),
            },
            false => write_like_first(work, parent, depth, out),
        },
    }
}

/// Prints what stands before a child, and its body up to its children.
pub fn begin_child(
    work: &Work,
    parent: NodeId,
    depth: usize,
    is_first: bool,
    child: NodeId,
    out: &mut Output,
) -> Result<(), AllocError>
    requires given { parent < length work.now.nodes }
    requires child { child < length work.now.nodes }
    requires depth { depth ≡ (container_at work.now.nodes parent).depth }
    requires few { depth < 2 ^ 32 }
    ensures { OnOk result (out.new ≡ begun work.now.nodes (container_at work.now.nodes parent) is_first child out.old) }
{
    write_before(work, parent, depth, is_first, child, out)?;
    out.begin(child)?;
    write_opening(reads::text_of(work, child), out)?;
    Ok(())
}
