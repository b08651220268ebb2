// A walk over the nodes of a tree in document order, without recursion.
ghost use Rattle.std.specs.Prelude.{◌≡◌, ◌<◌, length};
ghost use Rattle.node_rows.specs.Nodes.{IsGiven};
ghost use Rattle.css_job.specs.Walk.{from, later, onward};

use crate::lint::reads;
use node_store::id::NodeId;
use node_store::work::Work;

// The node after n and all that stands below it.
fn later(work: &Work, n: NodeId) -> Option<NodeId>
    requires { n < length work.now.nodes }
    ensures given { IsGiven work.now.nodes result }
    ensures value { from work.now.nodes result ≡ later work.now.nodes n }
{
    work.facts();
    let mut at = n;
    'up: loop {
        if let Some(sibling) = reads::next_sibling(work, at) {
            return Some(sibling);
        }
        match reads::parent_of(work, at) {
            Some(parent) => at = parent,
            None => return None,
        }
    }
}

/// The node after n in document order, which is n's first child where it has one; none after the last.
pub fn next(work: &Work, n: NodeId) -> Option<NodeId>
    requires { n < length work.now.nodes }
    ensures given { IsGiven work.now.nodes result }
    ensures value { from work.now.nodes result ≡ onward work.now.nodes n }
{
    work.facts();
    match reads::first_child(work, n) {
        Some(child) => Some(child),
        None => later(work, n),
    }
}
