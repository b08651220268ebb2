// Why a call on the tree is refused.
use thiserror::Error;

/// The refusals of calls on the tree. Where several apply, the one written first is the answer.
#[derive(Clone, Copy, PartialEq, Eq, Drop, Debug, Error)]
pub enum TreeFault {
    /// The number was never given out.
    #[error("NoSuchNode")]
    NoSuchNode,
    /// The node's kind has no such field or raw, or the node has no block.
    #[error("WrongKind")]
    WrongKind,
    /// No cursor of that serial is open.
    #[error("NoSuchCursor")]
    NoSuchCursor,
    /// The root can't be moved, copied or taken out.
    #[error("IsRoot")]
    IsRoot,
    /// Both nodes are the same.
    #[error("SameNode")]
    SameNode,
    /// The node has no parent.
    #[error("Loose")]
    Loose,
    /// The node would stand below itself.
    #[error("Cycle")]
    Cycle,
    /// More than 5,000,000 numbers would be given out.
    #[error("Full")]
    Full,
}
