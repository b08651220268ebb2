// Where a node is put.
use node_store::id::NodeId;

/// A spot among the children of a container.
#[derive(Clone, Copy)]
pub enum Spot {
    First,
    Last,
    Before(NodeId),
    Behind(NodeId),
}
