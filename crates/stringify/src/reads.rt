// Reading a node whose number was given out.
ghost use Rattle.std.specs.Prelude.{◌≡◌, ◌<◌, length, slice_get, nat_lt, if◌then◌else◌};
ghost use Rattle.node_rows.specs.Nodes.{text_of, parent_of, children_of, next_sibling_of, depth_of, from_number, IsGiven};
ghost use Rattle.css_tree.specs.Print.{are_comments, is_comment};
ghost use Rattle.node_rows.specs.NumberTrees.{plain, number_trees};

use css_tree::node::NodeText;
use node_store::id::NodeId;
use node_store::work::Work;

/// The texts of a node, as the store's `node_text`.
pub fn text_of(work: &Work, n: NodeId) -> &NodeText
    requires { n < length work.now.nodes }
    ensures { result.now ≡ text_of work.now.nodes n }
{
    match work.node_text(n) {
        Ok(text) => text,
        Err(_) => unreachable!(),
    }
}

/// The node that a node stands in; none for the root and for a loose node.
pub fn parent_of(work: &Work, n: NodeId) -> Option<NodeId>
    requires { n < length work.now.nodes }
    ensures { result ≡ parent_of work.now.nodes n }
{
    match work.parent(n) {
        Ok(parent) => parent,
        Err(_) => unreachable!(),
    }
}

/// The first node in a node's block; none where there is none.
pub fn first_child(work: &Work, n: NodeId) -> Option<NodeId>
    requires { n < length work.now.nodes }
    ensures { result ≡ slice_get (children_of work.now.nodes n) 0 }
{
    match work.first_child(n) {
        Ok(child) => child,
        Err(_) => unreachable!(),
    }
}

/// The node behind a node in the same block; none behind the last.
pub fn next_sibling(work: &Work, n: NodeId) -> Option<NodeId>
    requires { n < length work.now.nodes }
    ensures { result ≡ next_sibling_of work.now.nodes n }
{
    match work.next_sibling(n) {
        Ok(sibling) => sibling,
        Err(_) => unreachable!(),
    }
}

// What an ancestor adds to a node's depth: the root nothing, and another one level.
fn levels_at(ancestor: NodeId) -> usize
    ensures { result ≡ (if nat_lt 0 ancestor then 1 else 0) }
{
    if ancestor.number() > 0 { 1 } else { 0 }
}

/// The number of the node's ancestors but the root.
pub fn depth_of(work: &Work, n: NodeId) -> usize
    requires { n < length work.now.nodes }
    ensures { result ≡ depth_of work.now.nodes n }
{
    work.facts();
    let mut depth = 0;
    let mut at = n;
    while let Some(parent) = parent_of(work, at) {
        depth += levels_at(parent);
        at = parent;
    }
    depth
}

fn is_comment(text: &NodeText) -> bool
    ensures { result ≡ is_comment text.now }
{
    matches!(text, NodeText::Comment { .. })
}

/// Whether the node and the siblings behind it are all comments. It stops at the first that isn't one.
pub fn are_comments(work: &Work, first: Option<NodeId>) -> bool
    requires { IsGiven work.now.nodes first }
    ensures { result ≡ are_comments (plain work.now.nodes (number_trees work.now.nodes (from_number work.now.nodes first))) }
{
    work.facts();
    let mut at = first;
    while let Some(n) = at {
        if !is_comment(text_of(work, n)) {
            return false;
        }
        at = next_sibling(work, n);
    }
    true
}
