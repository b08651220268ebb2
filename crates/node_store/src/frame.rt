// What is left to copy of a tree.

/// A node that is copied next with the siblings behind it: into which copy, and at which place the first of them goes.
#[derive(Clone, Copy)]
pub struct Frame {
    pub(crate) node: u32,
    pub(crate) parent: u32,
    pub(crate) at: u32,
}
