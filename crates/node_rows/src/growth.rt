// Many nodes at a time.
ghost use Rattle.std.specs.Prelude.{◌≡◌, ◌+◌, ◌≤◌, ◌++◌, length, map, IfOk, MatchResult};
ghost use Rattle.node_rows.specs.Growth.{made, row_of};

use crate::packed::PackedSpan;
use crate::rows::{Row, Rows, loose_row};
use css_text::lexer::Span;
use css_tree::node::NodeText;
use std::alloc::{AllocError, Global};

/// A node that is to be made: its text, and its body's bytes in the source.
#[derive(Drop)]
pub struct NewNode {
    pub text: NodeText,
    pub span: Option<Span>,
}

fn rows_of(alloc: Global, nodes: Vec<NewNode>) -> Result<Vec<Row>, AllocError>
    ensures { IfOk result (λ rows. rows.items ≡ map row_of nodes.items) }
{
    let mut rows = Vec::with_capacity(alloc, nodes.len())?;
    for node in nodes {
        let NewNode { text, span } = node;
        let span = PackedSpan::new(span)?;
        rows.push(loose_row(text, span))?;
    }
    Ok(rows)
}

impl Rows {
    /// More nodes, each loose and dirty, numbered in their order. An error is want of memory, and leaves the rows as they
    /// were. A span whose start or end is above 4,294,967,294 counts as want of memory.
    pub fn add_all(&mut self, alloc: Global, nodes: Vec<NewNode>) -> Result<(), AllocError>
        requires { length self.old + length nodes.items ≤ 67108865 }
        ensures { MatchResult result (λ _. self.new ≡ self.old ++ map made nodes.items) (λ _. self.new ≡ self.old) }
    {
        let mut rows = rows_of(alloc, nodes)?;
        self.items.append(&mut rows)?;
        Ok(())
    }
}
