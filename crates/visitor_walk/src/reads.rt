// What the walk reads of a node.
ghost use Rattle.std.specs.Prelude.{◌≡◌, ◌∷◌, [], ◌<◌, length, true};
ghost use Rattle.std.specs.Str.{chars};
ghost use Rattle.css_tree.specs.Changes.{same_text};
ghost use Rattle.node_rows.specs.Nodes.{holds, is_dirty, parent_of, children_of};
ghost use Rattle.node_rows.specs.Sound.{is_number};
ghost use Rattle.visitor_machine.specs.Hooks.{enter_event, exit_event, lower, key_of};
ghost use Rattle.visitor_machine.specs.Machine.{kind_at, key_at};

use css_text::txt::Txt;
use css_tree::node::{Kind, NodeText};
use node_store::id::NodeId;
use node_store::item::Event;
use node_store::work::Work;

/// Whether the text is `*`.
pub fn is_star(text: &Txt) -> bool
    ensures { result ≡ same_text text.now (42 ∷ []) }
{
    text.as_str() == "*"
}

/// Whether the texts are equal in any ASCII case.
pub fn is_same(a: &str, b: &str) -> bool
    ensures { result ≡ same_text (lower (chars a.now)) (lower (chars b.now)) }
{
    a.eq_ignore_ascii_case(b)
}

/// Whether the node is in the tree.
pub fn is_in_tree(work: &Work, node: NodeId) -> bool
    ensures value { result ≡ holds work.now.nodes 0 node }
    ensures given { result ≡ true → node < length work.now.nodes }
{
    work.facts();
    match work.is_below_root(node) {
        Ok(is_below) => is_below,
        Err(_) => false,
    }
}

/// The node's parent; none for the root, for the top of a loose tree, and for a number that was never given out.
pub fn parent(work: &Work, node: NodeId) -> Option<NodeId>
    ensures { result ≡ parent_of work.now.nodes node }
{
    match work.parent(node) {
        Ok(parent) => parent,
        Err(_) => None,
    }
}

/// Whether the node is a child of that parent.
pub fn is_child(work: &Work, node: NodeId, of: NodeId) -> bool
    ensures { result ≡ is_number (parent_of work.now.nodes node) of }
{
    match parent(work, node) {
        None => false,
        Some(parent) => parent == of,
    }
}

/// How many children the node has; 0 for a number that was never given out.
pub fn child_count(work: &Work, node: NodeId) -> u32
    ensures { result ≡ length (children_of work.now.nodes node) }
{
    match work.child_count(node) {
        Ok(count) => count,
        Err(_) => 0,
    }
}

/// Whether the root is dirty.
pub fn is_root_dirty(work: &Work) -> bool
    ensures { result ≡ is_dirty work.now.nodes 0 }
{
    work.facts();
    match work.is_dirty(NodeId::new(0)) {
        Ok(dirty) => dirty,
        Err(_) => false,
    }
}

/// The node's kind.
pub fn kind(work: &Work, node: NodeId) -> Kind
    requires { node < length work.now.nodes }
    ensures { result ≡ kind_at work.now.nodes node }
{
    match work.kind(node) {
        Ok(kind) => kind,
        Err(_) => Kind::Comment,
    }
}

fn text_key(text: &NodeText) -> &str
    ensures { chars result.now ≡ key_of text.now }
{
    match text {
        NodeText::AtRule { name, .. } => name.as_str(),
        NodeText::Declaration { prop, .. } => prop.as_str(),
        NodeText::Root { .. } => "",
        NodeText::Rule { .. } => "",
        NodeText::Comment { .. } => "",
    }
}

/// What filters are compared with: an at-rule's name, a declaration's property.
pub fn key(work: &Work, node: NodeId) -> &str
    requires { node < length work.now.nodes }
    ensures { chars result.now ≡ key_at work.now.nodes node }
{
    match work.node_text(node) {
        Ok(text) => text_key(text),
        Err(_) => "",
    }
}

/// The event at which a node of that kind is entered.
pub fn enter_event(kind: Kind) -> Event
    ensures { result ≡ enter_event kind }
{
    match kind {
        Kind::Root => Event::Root,
        Kind::AtRule => Event::AtRule,
        Kind::Rule => Event::Rule,
        Kind::Declaration => Event::Declaration,
        Kind::Comment => Event::Comment,
    }
}

/// The event at which a node of that kind is left.
pub fn exit_event(kind: Kind) -> Event
    ensures { result ≡ exit_event kind }
{
    match kind {
        Kind::Root => Event::RootExit,
        Kind::AtRule => Event::AtRuleExit,
        Kind::Rule => Event::RuleExit,
        Kind::Declaration => Event::DeclarationExit,
        Kind::Comment => Event::CommentExit,
    }
}
