// Reading a node whose number was given out.
ghost use Rattle.std.specs.Prelude.{◌≡◌, ◌<◌, ◌≤◌, length, slice_get, encode_utf8_all};
ghost use Rattle.std.specs.Str.{IsCharBoundary};
ghost use Rattle.css_text.specs.Ahead.{byte_len};
ghost use Rattle.node_rows.specs.Nodes.{text_of, span_of, parent_of, children_of};
ghost use Rattle.node_rows.specs.NumberTrees.{tree_at};
ghost use Rattle.node_store.specs.Fresh.{IsFresh};
ghost use Rattle.rule_sites.specs.Blocks.{start_byte};
ghost use Rattle.rule_sites.specs.Stands.{Stands};

use css_text::lexer::Span;
use css_tree::node::NodeText;
use node_store::id::NodeId;
use node_store::work::Work;

/// The texts of a node, as the store's `node_text`.
pub fn text_of(work: &Work, n: NodeId) -> &NodeText
    requires { n < length work.now.nodes }
    ensures { result.now ≡ text_of work.now.nodes n }
{
    match work.node_text(n) {
        Ok(text) => text,
        Err(_) => unreachable!(),
    }
}

/// Where a node stands in the sheet, in bytes; none for a node that was made.
pub fn span_of(work: &Work, n: NodeId) -> Option<Span>
    requires { n < length work.now.nodes }
    ensures { result ≡ span_of work.now.nodes n }
{
    match work.span(n) {
        Ok(span) => span,
        Err(_) => unreachable!(),
    }
}

/// The node that a node stands in; none for the root and for a loose node.
pub fn parent_of(work: &Work, n: NodeId) -> Option<NodeId>
    requires { n < length work.now.nodes }
    ensures { result ≡ parent_of work.now.nodes n }
{
    match work.parent(n) {
        Ok(parent) => parent,
        Err(_) => unreachable!(),
    }
}

/// The first node in a node's block; none where there is none.
pub fn first_child(work: &Work, n: NodeId) -> Option<NodeId>
    requires { n < length work.now.nodes }
    ensures { result ≡ slice_get (children_of work.now.nodes n) 0 }
{
    match work.first_child(n) {
        Ok(child) => child,
        Err(_) => unreachable!(),
    }
}

/// Nothing: a caller learns by it that a node's body, up to its children, stands in the sheet where its span
/// starts.
pub fn stands(work: &Work, n: NodeId)
    requires fresh { IsFresh work.now }
    requires given { n < length work.now.nodes }
    ensures { Stands work.now.text (text_of work.now.nodes n) (span_of work.now.nodes n) }
{
    work.facts();
    let _ = n;
}

/// Nothing: a caller learns by it how long a sheet is at most, in bytes.
pub fn is_short(work: &Work)
    ensures { byte_len work.now.text ≤ 67108864 }
{
    let _ = work.text().as_str();
}

/// Where the body of a node of a sheet that was just read starts, in bytes.
pub fn start_of(work: &Work, n: NodeId) -> u32
    requires fresh { IsFresh work.now }
    requires given { n < length work.now.nodes }
    ensures value { result ≡ start_byte (tree_at work.now.nodes n) }
    ensures boundary { IsCharBoundary (encode_utf8_all work.now.text) result }
{
    stands(work, n);
    is_short(work);
    match span_of(work, n) {
        Some(span) => span.start as u32,
        None => unreachable!(),
    }
}
