// The rows of a forest, by node number. Siblings are linked both ways.
ghost use Rattle.std.specs.Prelude.{◌≡◌, ◌<◌, ◌≤◌, ◌++◌, ◌∷◌, [], length, slice_get, true, IfOk, MatchResult};
ghost use Rattle.node_rows.specs.Nodes.{Node, new_node, text_of, span_of, parent_of, children_of, is_dirty, next_sibling_of, previous_sibling_of};
ghost use Rattle.node_rows.specs.Sound.{IsSound};
ghost use Rattle.node_rows.specs.NodeList.{nodes_of, is_document_order, parents_in};
ghost use Rattle.node_rows.specs.Appended.{appended, IsAppendable};
ghost use Rattle.node_rows.specs.Growth.{row_of};

use crate::finger::Finger;
use crate::node_list::NodeAt;
use crate::packed::{Link, PackedSpan};
use crate::tally::Tally;
use css_text::lexer::Span;
use css_tree::node::NodeText;
use std::alloc::{AllocError, Global};
use std::marker::Model;

/// What a row holds of a node: its text, its body's bytes in the source, the numbers of its parent, of its first and
/// last child and of the siblings on both sides, the count of its children, and its mark.
#[derive(Drop)]
pub struct Row {
    pub(crate) text: NodeText,
    pub(crate) span: PackedSpan,
    pub(crate) parent: Link,
    pub(crate) first: Link,
    pub(crate) last: Link,
    pub(crate) before: Link,
    pub(crate) after: Link,
    pub(crate) tally: Tally,
}

const _: () = prove!(size_of::<Row>() == 184);

// The row of a new node, which has no links.
#[inline(always)]
pub(crate) fn loose_row(text: NodeText, span: PackedSpan) -> Row
    ensures { result ≡ row_of (record { text = text; span = span }) }
{
    Row {
        text,
        span,
        parent: Link::none(),
        first: Link::none(),
        last: Link::none(),
        before: Link::none(),
        after: Link::none(),
        tally: Tally::new(0, true),
    }
}

/// The nodes of a forest by number. A clause sees them as a list, each node with the list of its children.
#[derive(Drop)]
pub struct Rows {
    pub(crate) items: Vec<Row>,
    pub(crate) finger: Option<Finger>,
}

impl Model for Rows {
    ghost use Rattle.std.specs.Prelude.{List};
    ghost use Rattle.node_rows.specs.Nodes.{Node};

    ghost Value = { List Node };

    ghost use Rattle.node_rows.specs.Shown.{shown_rows, IsLinked};
    ghost use Rattle.node_rows.specs.Fingers.{IsFinger};

    ghost view = { λ r. shown_rows r.items.items };

    ghost invariant = { λ r. IsLinked r.items.items × IsFinger (shown_rows r.items.items) r.finger };
}

impl Rows {
    /// No nodes, with room for so many. The only error is want of memory.
    pub fn with_capacity(alloc: Global, count: usize) -> Result<Rows, AllocError>
        ensures { IfOk result (λ rows. rows ≡ []) }
    {
        let items = Vec::with_capacity(alloc, count)?;
        Ok(Rows {
            items,
            finger: None,
        })
    }

    /// How many nodes there are, loose ones too.
    pub fn len(&self) -> usize
        ensures { result ≡ length self.now }
    {
        self.items.len()
    }

    /// What is true of every `Rows`, for a caller's proof. It does nothing.
    pub fn facts(&self)
        ensures { IsSound self.now }
    {
        let _ = &self.items;
    }

    /// The node's text.
    pub fn text(&self, n: u32) -> &NodeText
        requires { n < length self.now }
        ensures { result.now ≡ text_of self.now n }
    {
        let row = &self.items[n as usize];
        &row.text
    }

    /// The bytes of the node's body in the source; none for a new node.
    pub fn span(&self, n: u32) -> Option<Span>
        requires { n < length self.now }
        ensures { result ≡ span_of self.now n }
    {
        self.items[n as usize].span.get()
    }

    /// The node's parent; none for the root and for a loose node.
    pub fn parent(&self, n: u32) -> Option<u32>
        requires { n < length self.now }
        ensures { result ≡ parent_of self.now n }
    {
        self.items[n as usize].parent.get()
    }

    /// Whether the node is marked dirty.
    pub fn is_dirty(&self, n: u32) -> bool
        requires { n < length self.now }
        ensures { result ≡ is_dirty self.now n }
    {
        self.items[n as usize].tally.is_dirty()
    }

    /// How many children the node has, in constant time.
    pub fn child_count(&self, n: u32) -> u32
        requires { n < length self.now }
        ensures { result ≡ length (children_of self.now n) }
    {
        self.items[n as usize].tally.count()
    }

    /// The node's first child, in constant time.
    pub fn first_child(&self, n: u32) -> Option<u32>
        requires { n < length self.now }
        ensures { result ≡ slice_get (children_of self.now n) 0 }
    {
        self.items[n as usize].first.get()
    }

    /// The sibling behind the node, in constant time.
    pub fn next_sibling(&self, n: u32) -> Option<u32>
        requires { n < length self.now }
        ensures { result ≡ next_sibling_of self.now n }
    {
        let row = &self.items[n as usize];
        match row.parent.get() {
            None => None,
            Some(_) => row.after.get(),
        }
    }

    /// The sibling before the node, in constant time.
    pub fn previous_sibling(&self, n: u32) -> Option<u32>
        requires { n < length self.now }
        ensures { result ≡ previous_sibling_of self.now n }
    {
        let row = &self.items[n as usize];
        match row.parent.get() {
            None => None,
            Some(_) => row.before.get(),
        }
    }

    /// One more node, loose and dirty, and its number. An error is want of memory, and leaves the rows as they were. A span whose
    /// start or end is above 4,294,967,294 counts as want of memory.
    #[inline(always)]
    pub fn add(&mut self, text: NodeText, span: Option<Span>) -> Result<u32, AllocError>
        requires { length self.old < 67108865 }
        ensures { MatchResult result (λ n. (n ≡ length self.old) × (self.new ≡ self.old ++ new_node text span ∷ [])) (λ _. self.new ≡ self.old) }
    {
        let span = PackedSpan::new(span)?;
        let number = self.items.len() as u32;
        self.items.push(loose_row(text, span))?;
        Ok(number)
    }

    // One more node as the last child of its parent; the first node is the root.
    // An error is want of memory, as which a span counts that `add` can't take, and leaves the rows as they were.
    #[inline(always)]
    pub(crate) fn append(&mut self, node: NodeAt) -> Result<(), AllocError>
        requires { IsAppendable self.old node }
        ensures { MatchResult result (λ _. self.new ≡ appended self.old node) (λ _. self.new ≡ self.old) }
    {
        self.facts();
        let NodeAt { parent, text, span } = node;
        let is_root = self.len() == 0;
        let n = self.add(text, Some(span))?;
        if !is_root {
            self.link_last(parent, n);
        }
        Ok(())
    }

    /// The nodes of a list in document order. The only error is want of memory, as which a span counts whose start or end is
    /// above 4,294,967,294.
    pub fn from_nodes(alloc: Global, nodes: Vec<NodeAt>) -> Result<Rows, AllocError>
        requires few { length nodes.items ≤ 67108865 }
        requires order { is_document_order (parents_in nodes.items) ≡ true }
        ensures { IfOk result (λ rows. rows ≡ nodes_of nodes.items) }
    {
        let mut rows = Rows::with_capacity(alloc, nodes.len())?;
        for node in nodes {
            rows.append(node)?;
        }
        Ok(rows)
    }
}
