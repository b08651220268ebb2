// The printing of a tree, and of one node.
ghost use Rattle.std.specs.Prelude.{◌≡◌, ℕ, map, length, ◌<◌, IfOk, OnOk};
ghost use Rattle.css_tree.specs.Print.{print, starts};
ghost use Rattle.node_rows.specs.NumberTrees.{tree_at, numbers_below};
ghost use Rattle.node_store.specs.Forest.{tree_of};
ghost use Rattle.stringify.specs.Answers.{IsNodeAnswer};

use crate::output::Output;
use crate::steps::write_body;
use css_text::stop::Stop;
use css_text::txt::Txt;
use node_store::fault::TreeFault;
use node_store::id::NodeId;
use node_store::work::Work;
use std::alloc::{AllocError, Global};

/// A node with the byte of the printed text at which its body starts, counted from 0.
#[derive(Clone, Copy, PartialEq, Eq, Debug)]
pub struct Start {
    pub node: NodeId,
    pub at: u64,
}

/// A printed text, and the starts of the nodes in it, in the order of printing.
#[derive(Drop)]
pub struct Printed {
    pub text: Txt,
    pub starts: Vec<Start>,
}

/// The text of the tree, and the starts of all nodes below the root.
///
/// Fails for want of memory alone, of which a text of 4 GiB (4,294,967,296 bytes) or more is a case whatever memory there is. No sheet that was
/// read prints to that much by itself, but edits can copy nodes until it does.
pub fn print(alloc: Global, work: &Work) -> Result<Printed, AllocError>
    ensures text { IfOk result (λ p. p.text ≡ print (tree_of work.now)) }
    ensures nodes { IfOk result (λ p. map (λ s. s.node) p.starts.items ≡ numbers_below work.now.nodes 0) }
    ensures starts { IfOk result (λ p. map (λ s. s.at) p.starts.items ≡ starts (tree_of work.now)) }
{
    work.facts();
    // Most sheets are printed about as long as they were.
    let bytes = work.text().as_str().len();
    let mut out = Output::with_capacity(alloc, bytes, work.node_total() as usize)?;
    write_body(work, NodeId::new(0), &mut out)?;
    let printed = out.finish(alloc)?;
    Ok(printed)
}

/// The body of one node, in the tree or loose, and the starts of it and of all nodes below it. The root is not among
/// the starts.
///
/// NoSuchNode where the number was never given out; else it fails for want of memory alone.
pub fn print_node(alloc: Global, work: &Work, n: NodeId) -> Result<Printed, Stop<TreeFault>>
    ensures { IsNodeAnswer work.now n result }
{
    if n.number() >= work.node_total() {
        return Err(Stop::Fault(TreeFault::NoSuchNode));
    }
    let mut out = Output::new(alloc);
    match write_body(work, n, &mut out) {
        Ok(()) => match out.finish(alloc) {
            Ok(printed) => Ok(printed),
            Err(error) => Err(Stop::Memory(error)),
        },
        Err(error) => Err(Stop::Memory(error)),
    }
}
