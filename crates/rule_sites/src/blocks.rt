// Blocks, and where the parts of a node stand in its sheet.
ghost use Rattle.std.specs.Prelude.{◌≡◌, ◌<◌, ◌^◌, length, encode_utf8_all};
ghost use Rattle.std.specs.Str.{IsCharBoundary};
ghost use Rattle.css_text.specs.Ahead.{byte_len};
ghost use Rattle.node_rows.specs.NumberTrees.{tree_at};
ghost use Rattle.node_store.specs.Fresh.{IsFresh};
ghost use Rattle.rule_sites.specs.Blocks.{is_block, is_root, is_at_rule, before_brace, brace_byte, before_value, value_byte};

use crate::reads;
use css_tree::node::NodeText;
use node_store::id::NodeId;
use node_store::work::Work;

/// Whether the node is a rule, or an at-rule with a block.
pub fn is_block(text: &NodeText) -> bool
    ensures { result ≡ is_block text.now }
{
    match text {
        NodeText::AtRule { block, .. } => block.is_some(),
        NodeText::Rule { .. } => true,
        _ => false,
    }
}

/// Whether the node is the root of a sheet.
pub fn is_root(text: &NodeText) -> bool
    ensures { result ≡ is_root text.now }
{
    match text {
        NodeText::Root { .. } => true,
        _ => false,
    }
}

/// Whether the node is an at-rule, with or without a block.
pub fn is_at_rule(text: &NodeText) -> bool
    ensures { result ≡ is_at_rule text.now }
{
    match text {
        NodeText::AtRule { .. } => true,
        _ => false,
    }
}

/// How many bytes stand before the `{` in the body of a node with a block.
fn before_brace_len(text: &NodeText) -> usize
    requires { byte_len (before_brace text.now) < 2 ^ 32 }
    ensures { result ≡ byte_len (before_brace text.now) }
{
    match text {
        NodeText::AtRule {
            name,
            after_name,
            params,
            between,
            ..
        } => {
            let head = 1 + name.as_str().len() + after_name.as_str().len();
            head + params.source.as_str().len() + between.as_str().len()
        }
        NodeText::Rule {
            selector,
            between,
            ..
        } => selector.source.as_str().len() + between.as_str().len(),
        _ => 0,
    }
}

/// The byte of the `{` of a node with a block; where the body ends of an at-rule without one, and where it starts
/// of any other node.
pub fn brace_of(work: &Work, n: NodeId) -> u32
    requires fresh { IsFresh work.now }
    requires given { n < length work.now.nodes }
    ensures value { result ≡ brace_byte (tree_at work.now.nodes n) }
    ensures boundary { IsCharBoundary (encode_utf8_all work.now.text) result }
{
    reads::stands(work, n);
    reads::is_short(work);
    let start = reads::start_of(work, n) as usize;
    (start + before_brace_len(reads::text_of(work, n))) as u32
}

/// How many bytes stand before the value in the body of a declaration.
fn before_value_len(text: &NodeText) -> usize
    requires { byte_len (before_value text.now) < 2 ^ 32 }
    ensures { result ≡ byte_len (before_value text.now) }
{
    match text {
        NodeText::Declaration { prop, between, .. } => {
            prop.as_str().len() + between.as_str().len()
        }
        _ => 0,
    }
}

/// The byte at which a declaration's value starts; where the body starts of any other node.
pub fn value_start(work: &Work, n: NodeId) -> u32
    requires fresh { IsFresh work.now }
    requires given { n < length work.now.nodes }
    ensures value { result ≡ value_byte (tree_at work.now.nodes n) }
    ensures boundary { IsCharBoundary (encode_utf8_all work.now.text) result }
{
    reads::stands(work, n);
    reads::is_short(work);
    let start = reads::start_of(work, n) as usize;
    (start + before_value_len(reads::text_of(work, n))) as u32
}
