// A tree as the list of its nodes.
ghost use Rattle.std.specs.Prelude.{◌≡◌, ◌<◌, ◌++◌, ◌∷◌, [], length, IfOk, MatchResult};
ghost use Rattle.node_rows.specs.NodeList.{nodes_of};
ghost use Rattle.node_rows.specs.Ends.{with_entry_block, with_entry_end};

use crate::rows::Rows;
use css_text::lexer::Span;
use css_tree::node::{Block, NodeText};
use std::alloc::{AllocError, Global};
use std::marker::Model;

/// A node of a list in document order: the number of its parent, which is the parent's place in the list counted
/// from 0, its text, and its body's bytes in the source. The first node is the root, and its `parent` isn't read.
#[derive(Drop)]
pub struct NodeAt {
    pub parent: u32,
    pub text: NodeText,
    pub span: Span,
}

/// Nodes in document order as they are read, kept as rows from the start, so that the rows of a large tree are made with no
/// second list beside them. A clause sees the list of the nodes.
#[derive(Drop)]
pub struct NodeList {
    pub(crate) rows: Rows,
}

impl Model for NodeList {
    ghost use Rattle.std.specs.Prelude.{List};
    ghost use Rattle.node_rows.specs.declared.node_list.NodeAt.{NodeAt};

    ghost Value = { List NodeAt };

    ghost use Rattle.node_rows.specs.Entries.{entries_of, IsBuilt};

    ghost view = { λ l. entries_of l.rows };

    ghost invariant = { λ l. IsBuilt l.rows };
}

// Real sheets have more bytes than so many for each node: minified Bootstrap 5 has 27.
const BYTES_A_NODE: usize = 16;

// No rows, with room for those of a sheet of so many bytes, or else for one.
fn roomy_rows(alloc: Global, bytes: usize) -> Result<Rows, AllocError>
    ensures { IfOk result (λ rows. rows ≡ []) }
{
    match Rows::with_capacity(alloc, bytes / BYTES_A_NODE + 1) {
        Ok(rows) => Ok(rows),
        Err(_) => Rows::with_capacity(alloc, 1),
    }
}

impl NodeList {
    /// The root alone. The only error is want of memory, as which a span counts whose start or end is above 4,294,967,294.
    pub fn new(alloc: Global, text: NodeText, span: Span) -> Result<NodeList, AllocError>
        ensures { IfOk result (λ list. list ≡ record { parent = 0; text = text; span = span } ∷ []) }
    {
        let mut rows = roomy_rows(alloc, span.end)?;
        rows.append(NodeAt {
            parent: 0,
            text,
            span,
        })?;
        Ok(NodeList { rows })
    }

    /// How many nodes there are.
    pub fn len(&self) -> usize
        ensures { result ≡ length self.now }
    {
        self.rows.len()
    }

    /// One more node, which stands below an earlier one. An error is want of memory, and leaves the list as it was. A span whose
    /// start or end is above 4,294,967,294 counts as want of memory.
    #[inline(always)]
    pub fn push(&mut self, node: NodeAt) -> Result<(), AllocError>
        requires room { length self.old < 67108865 }
        requires earlier { node.parent < length self.old }
        ensures { MatchResult result (λ _. self.new ≡ self.old ++ node ∷ []) (λ _. self.new ≡ self.old) }
    {
        self.rows.append(node)?;
        Ok(())
    }

    /// Writes the end of the container n: what stands behind its last child. A node that is no container stays as it is.
    pub fn set_block(&mut self, n: u32, block: Block)
        requires { n < length self.old }
        ensures { self.new ≡ with_entry_block self.old n block }
    {
        self.rows.set_block(n, block);
    }

    /// Lets the body of n end before the byte, counted from the start of the source.
    pub fn set_end(&mut self, n: u32, end: u32)
        requires { n < length self.old }
        ensures { self.new ≡ with_entry_end self.old n end }
    {
        self.rows.set_end(n, end);
    }

    /// The rows of the nodes. No node is moved.
    pub fn into_rows(self) -> Rows
        ensures { result ≡ nodes_of self }
    {
        self.rows
    }
}
