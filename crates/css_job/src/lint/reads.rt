// Reading a node whose number was given out.
ghost use Rattle.std.specs.Prelude.{◌≡◌, ◌<◌, length, slice_get};
ghost use Rattle.node_rows.specs.Nodes.{text_of, span_of, parent_of, children_of, next_sibling_of};

use css_text::lexer::Span;
use css_tree::node::NodeText;
use node_store::id::NodeId;
use node_store::work::Work;

/// The texts of a node, as the store's `node_text`.
pub fn text_of(work: &Work, n: NodeId) -> &NodeText
    requires { n < length work.now.nodes }
    ensures { result.now ≡ text_of work.now.nodes n }
{
    match work.node_text(n) {
        Ok(text) => text,
        Err(_) => unreachable!(),
    }
}

/// Where a node stands in the sheet, in bytes; none for a node that a plugin made.
pub fn span_of(work: &Work, n: NodeId) -> Option<Span>
    requires { n < length work.now.nodes }
    ensures { result ≡ span_of work.now.nodes n }
{
    match work.span(n) {
        Ok(span) => span,
        Err(_) => unreachable!(),
    }
}

/// The node that a node stands in; none for the root and for a loose node.
pub fn parent_of(work: &Work, n: NodeId) -> Option<NodeId>
    requires { n < length work.now.nodes }
    ensures { result ≡ parent_of work.now.nodes n }
{
    match work.parent(n) {
        Ok(parent) => parent,
        Err(_) => unreachable!(),
    }
}

/// The first node in a node's block; none where there is none.
pub fn first_child(work: &Work, n: NodeId) -> Option<NodeId>
    requires { n < length work.now.nodes }
    ensures { result ≡ slice_get (children_of work.now.nodes n) 0 }
{
    match work.first_child(n) {
        Ok(child) => child,
        Err(_) => unreachable!(),
    }
}

/// The node after a node in the same block; none after the last.
pub fn next_sibling(work: &Work, n: NodeId) -> Option<NodeId>
    requires { n < length work.now.nodes }
    ensures { result ≡ next_sibling_of work.now.nodes n }
{
    match work.next_sibling(n) {
        Ok(sibling) => sibling,
        Err(_) => unreachable!(),
    }
}
