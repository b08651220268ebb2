// The store of a style sheet's nodes.
ghost use Rattle.std.specs.Prelude.{◌≡◌, ℕ, ◌<◌, ◌≤◌, [], length, slice_get, Option, Some, None, Ok, Err, IfOk, MatchResult, MatchOption};
ghost use Rattle.std.specs.Str.{chars};
ghost use Rattle.css_tree.specs.Parts.{kind_of, field_of, source_of, important_of, raw_of};
ghost use Rattle.node_rows.specs.Nodes.{Node, text_of, parent_of, place_of, holds, next_sibling_of, previous_sibling_of};
ghost use Rattle.std.specs.Option.{option_map};
ghost use Rattle.node_store.specs.Forest.{Forest, IsForest, read, read_some, bom_of, has_block};
ghost use Rattle.node_store.specs.NodeList.{IsNodeList, forest_of};
ghost use Rattle.node_store.specs.Seats.{bare, IsStored};

use crate::fault::TreeFault;
use crate::id::NodeId;
use crate::item::Item;
use crate::parts;
use crate::seat::Seat;
use css_text::lexer::Span;
use css_text::text::Text;
use css_tree::node::{Field, Kind, NodeText, Raw};
use node_rows::node_list::{NodeAt, NodeList};
use node_rows::rows::Rows;
use std::alloc::{AllocError, Global};
use std::marker::Model;

/// A style sheet's tree, trees beside it that are loose, the source text, the open cursors, and the log.
#[derive(Drop)]
pub struct Work {
    pub(crate) alloc: Global,
    pub(crate) text: Text,
    pub(crate) rows: Rows,
    pub(crate) seats: Vec<Option<Seat>>,
    pub(crate) log: Vec<Item>,
    pub(crate) room: Option<u32>,
}

impl Model for Work {
    ghost use Rattle.std.specs.Prelude.{◌-◌, vec_len};
    ghost use Rattle.std.specs.Vec.{vec_capacity};
    ghost use Rattle.node_store.specs.Forest.{Forest};

    ghost Value = { Forest };

    ghost use Rattle.node_store.specs.Seats.{shown_seats, IsStored};

    ghost view = { λ w. record { text = w.text; nodes = w.rows; cursors = shown_seats w.rows w.seats.items; log = w.log.items; spare = vec_capacity w.log - vec_len w.log; room = w.room } };

    ghost invariant = { λ w. IsStored w.text w.rows w.seats.items };
}

fn id_of(number: Option<u32>) -> Option<NodeId>
    ensures { result ≡ number }
{
    match number {
        None => None,
        Some(number) => Some(NodeId::new(number)),
    }
}

impl Work {
    /// The work of a list of nodes in document order, each of which is dirty.
    ///
    /// Fails for want of memory alone, and drops the text and the nodes then.
    pub fn from_nodes(alloc: Global, text: Text, nodes: Vec<NodeAt>) -> Result<Work, AllocError>
        requires { IsNodeList text nodes.items }
        ensures { IfOk result (λ work. work ≡ forest_of text nodes.items) }
    {
        let rows = Rows::from_nodes(alloc, nodes)?;
        rows.facts();
        Ok(Work::over(alloc, text, rows))
    }

    /// The work of nodes in document order that were kept as rows from the start, each of which is dirty. It takes no memory.
    pub fn from_list(alloc: Global, text: Text, nodes: NodeList) -> Work
        requires { IsNodeList text nodes }
        ensures { result ≡ forest_of text nodes }
    {
        let rows = nodes.into_rows();
        rows.facts();
        Work::over(alloc, text, rows)
    }

    // The work of these nodes, with no cursor and an empty log.
    fn over(alloc: Global, text: Text, rows: Rows) -> Work
        requires { IsStored text rows [] }
        ensures { result ≡ bare text rows }
    {
        Work {
            alloc,
            text,
            rows,
            seats: Vec::new(alloc),
            log: Vec::new(alloc),
            room: None,
        }
    }

    /// Nothing: a caller learns by it what is true of every work.
    pub fn facts(&self)
        ensures { IsForest self.now }
    {
        let _ = &self.rows;
    }

    /// The source text.
    pub fn text(&self) -> &Text
        ensures { result.now ≡ self.now.text }
    {
        &self.text
    }

    /// The allocator that the work keeps.
    pub fn alloc(&self) -> Global {
        self.alloc
    }

    /// How many numbers were given out.
    pub fn node_total(&self) -> u32
        ensures { result ≡ length self.now.nodes }
    {
        self.rows.len() as u32
    }

    /// Whether a byte order mark stood at the start of the source.
    pub fn bom(&self) -> bool
        ensures { result ≡ bom_of (text_of self.now.nodes 0) }
    {
        match self.rows.text(0) {
            NodeText::Root { bom, .. } => *bom,
            _ => false,
        }
    }

    /// The log, the earliest item first.
    pub fn log(&self) -> &[Item]
        ensures { result.now ≡ self.now.log }
    {
        self.log.as_slice()
    }

    // The number as the rows know it, where it was given out.
    pub(crate) fn given(&self, n: NodeId) -> Option<u32>
        ensures { MatchOption result (length self.now.nodes ≤ n) (λ m. (m ≡ n) × (n < length self.now.nodes)) }
    {
        if (n.number() as usize) < self.rows.len() {
            Some(n.number())
        } else {
            None
        }
    }

    /// The node's text: its fields and its raws.
    ///
    /// Refused as NoSuchNode where the number was never given out; so are all calls below that read a node.
    pub fn node_text(&self, n: NodeId) -> Result<&NodeText, TreeFault>
        ensures { MatchResult result (λ t. read self.now n (λ x. x.text) ≡ Ok t.now) (λ e. read self.now n (λ x. x.text) ≡ Err e) }
    {
        match self.given(n) {
            Some(m) => Ok(self.rows.text(m)),
            None => Err(TreeFault::NoSuchNode),
        }
    }

    /// The node's kind.
    pub fn kind(&self, n: NodeId) -> Result<Kind, TreeFault>
        ensures { result ≡ read self.now n (λ x. kind_of x.text) }
    {
        match self.given(n) {
            Some(m) => Ok(parts::kind(self.rows.text(m))),
            None => Err(TreeFault::NoSuchNode),
        }
    }

    /// The node's parent; none for the root and for the top of a loose tree.
    pub fn parent(&self, n: NodeId) -> Result<Option<NodeId>, TreeFault>
        ensures { result ≡ read self.now n (λ x. x.parent) }
    {
        match self.given(n) {
            Some(m) => Ok(id_of(self.rows.parent(m))),
            None => Err(TreeFault::NoSuchNode),
        }
    }

    /// Whether the node is a container.
    pub fn has_block(&self, n: NodeId) -> Result<bool, TreeFault>
        ensures { result ≡ read self.now n (λ x. has_block x.text) }
    {
        match self.given(n) {
            Some(m) => Ok(parts::block(self.rows.text(m)).is_some()),
            None => Err(TreeFault::NoSuchNode),
        }
    }

    /// The number of children; 0 for a node without a block.
    pub fn child_count(&self, n: NodeId) -> Result<u32, TreeFault>
        ensures { result ≡ read self.now n (λ x. length x.children) }
    {
        match self.given(n) {
            Some(m) => Ok(self.rows.child_count(m)),
            None => Err(TreeFault::NoSuchNode),
        }
    }

    /// The child before which `at` children stand; none from the count on. It counts along the siblings: to go over
    /// all children take `first_child` and `next_sibling`.
    pub fn child_at(&self, n: NodeId, at: u32) -> Result<Option<NodeId>, TreeFault>
        ensures { result ≡ read self.now n (λ x. slice_get x.children at) }
    {
        match self.given(n) {
            Some(m) => Ok(id_of(self.rows.child_at(m, at as usize))),
            None => Err(TreeFault::NoSuchNode),
        }
    }

    /// The first child; none where there is no child.
    pub fn first_child(&self, n: NodeId) -> Result<Option<NodeId>, TreeFault>
        ensures { result ≡ read self.now n (λ x. slice_get x.children 0) }
    {
        match self.given(n) {
            Some(m) => Ok(id_of(self.rows.first_child(m))),
            None => Err(TreeFault::NoSuchNode),
        }
    }

    /// The sibling behind the node; none for the last child, the root and the top of a loose tree.
    pub fn next_sibling(&self, n: NodeId) -> Result<Option<NodeId>, TreeFault>
        ensures { result ≡ read self.now n (λ _. next_sibling_of self.now.nodes n) }
    {
        match self.given(n) {
            Some(m) => Ok(id_of(self.rows.next_sibling(m))),
            None => Err(TreeFault::NoSuchNode),
        }
    }

    /// The sibling before the node; none for the first child, the root and the top of a loose tree.
    pub fn previous_sibling(&self, n: NodeId) -> Result<Option<NodeId>, TreeFault>
        ensures { result ≡ read self.now n (λ _. previous_sibling_of self.now.nodes n) }
    {
        match self.given(n) {
            Some(m) => Ok(id_of(self.rows.previous_sibling(m))),
            None => Err(TreeFault::NoSuchNode),
        }
    }

    /// How many children of its parent stand before the node, which it walks back over; none for the root and for the
    /// top of a loose tree.
    pub fn place(&self, n: NodeId) -> Result<Option<u32>, TreeFault>
        ensures { result ≡ read self.now n (λ x. option_map (λ p. place_of self.now.nodes p n) x.parent) }
    {
        match self.given(n) {
            Some(m) => Ok(self.place_in_parent(m)),
            None => Err(TreeFault::NoSuchNode),
        }
    }

    fn place_in_parent(&self, n: u32) -> Option<u32>
        requires { n < length self.now.nodes }
        ensures { result ≡ option_map (λ p. place_of self.now.nodes p n) (parent_of self.now.nodes n) }
    {
        self.rows.facts();
        match self.rows.parent(n) {
            Some(parent) => Some(self.rows.place(parent, n) as u32),
            None => None,
        }
    }

    /// The bytes of the node's body in the source; none for a new node.
    pub fn span(&self, n: NodeId) -> Result<Option<Span>, TreeFault>
        ensures { result ≡ read self.now n (λ x. x.span) }
    {
        match self.given(n) {
            Some(m) => Ok(self.rows.span(m)),
            None => Err(TreeFault::NoSuchNode),
        }
    }

    /// Whether the node is marked dirty.
    pub fn is_dirty(&self, n: NodeId) -> Result<bool, TreeFault>
        ensures { result ≡ read self.now n (λ x. x.dirty) }
    {
        match self.given(n) {
            Some(m) => Ok(self.rows.is_dirty(m)),
            None => Err(TreeFault::NoSuchNode),
        }
    }

    /// Whether the node is in the tree: the root, or a node below it.
    pub fn is_below_root(&self, n: NodeId) -> Result<bool, TreeFault>
        ensures { result ≡ read self.now n (λ _. holds self.now.nodes 0 n) }
    {
        match self.given(n) {
            Some(m) => Ok(self.rows.is_below_root(m)),
            None => Err(TreeFault::NoSuchNode),
        }
    }

    /// Whether the node is `top` or stands below it. Both were given out.
    pub fn holds(&self, top: NodeId, n: NodeId) -> bool
        requires top_given { top < length self.now.nodes }
        requires given { n < length self.now.nodes }
        ensures { result ≡ holds self.now.nodes top n }
    {
        self.rows.holds(top.number(), n.number())
    }
}
