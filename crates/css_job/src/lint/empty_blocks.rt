// The rule block-no-empty of stylelint, in this project's profile: a block without children, where a
// comment counts as a child.
ghost use Rattle.std.specs.Prelude.{◌≡◌, ◌<◌, ◌^◌, ◌∷◌, [], ◌++◌, IfOk, OnOk, Ok, true, length, map, encode_utf8_all};
ghost use Rattle.std.specs.Str.{IsCharBoundary};
ghost use Rattle.css_text.specs.Ahead.{byte_len};
ghost use Rattle.css_tree.specs.Tree.{none};
ghost use Rattle.css_tree.specs.Reads.{Reads};
ghost use Rattle.node_rows.specs.Nodes.{text_of, span_of};
ghost use Rattle.node_rows.specs.NumberTrees.{below, plain};
ghost use Rattle.node_store.specs.Forest.{tree_of};
ghost use Rattle.css_job.specs.Warnings.{is_empty_block, before_brace, brace_of, warnings};
ghost use Rattle.css_job.specs.Shown.{warning_seen};
ghost use Rattle.css_job.specs.Walk.{Stands, found};

use crate::lint::warning::Warning;
use crate::lint::{reads, walk};
use css_tree::node::NodeText;
use node_store::id::NodeId;
use node_store::work::Work;
use std::alloc::{AllocError, Global};

/// Whether the node is a rule or an at-rule with a block.
fn has_braces(text: &NodeText) -> bool
    ensures { result ≡ is_empty_block text.now none }
{
    match text {
        NodeText::AtRule { block, .. } => block.is_some(),
        NodeText::Rule { .. } => true,
        _ => false,
    }
}

fn is_empty_block(work: &Work, n: NodeId) -> bool
    requires { n < length work.now.nodes }
    ensures { result ≡ is_empty_block (text_of work.now.nodes n) (plain work.now.nodes (below work.now.nodes n)) }
{
    work.facts();
    match reads::first_child(work, n) {
        Some(_) => false,
        None => has_braces(reads::text_of(work, n)),
    }
}

/// How many bytes stand before the `{` in the body of a node with a block.
fn before_brace_len(text: &NodeText) -> usize
    requires { byte_len (before_brace text.now) < 2 ^ 32 }
    ensures { result ≡ byte_len (before_brace text.now) }
{
    match text {
        NodeText::AtRule {
            name,
            after_name,
            params,
            between,
            ..
        } => {
            let head = 1 + name.as_str().len() + after_name.as_str().len();
            head + params.source.as_str().len() + between.as_str().len()
        }
        NodeText::Rule {
            selector,
            between,
            ..
        } => selector.source.as_str().len() + between.as_str().len(),
        _ => 0,
    }
}

/// The byte of the `{` of an empty block.
fn brace_of(work: &Work, n: NodeId) -> u32
    requires few { byte_len work.now.text < 2 ^ 32 }
    requires given { n < length work.now.nodes }
    requires empty { is_empty_block (text_of work.now.nodes n) (plain work.now.nodes (below work.now.nodes n)) ≡ true }
    requires stands { Stands work.now.text (text_of work.now.nodes n) (span_of work.now.nodes n) }
    ensures value { brace_of (text_of work.now.nodes n) (span_of work.now.nodes n) ≡ result ∷ [] }
    ensures boundary { IsCharBoundary (encode_utf8_all work.now.text) result }
{
    let start = match reads::span_of(work, n) {
        Some(span) => span.start,
        None => unreachable!(),
    };
    (start + before_brace_len(reads::text_of(work, n))) as u32
}

// Adds the warning on the node, if its block is empty.
fn push_if_empty(warnings: &mut Vec<Warning>, work: &Work, n: NodeId) -> Result<(), AllocError>
    requires few { byte_len work.now.text < 2 ^ 32 }
    requires given { n < length work.now.nodes }
    requires stands { Stands work.now.text (text_of work.now.nodes n) (span_of work.now.nodes n) }
    ensures { OnOk result (map warning_seen warnings.new.items ≡ map warning_seen warnings.old.items ++ found work.now.text work.now.nodes (record { number = n; children = below work.now.nodes n })) }
{
    if is_empty_block(work, n) {
        let place = work.text().place(brace_of(work, n));
        warnings.push(Warning::empty_block(place))?;
    }
    Ok(())
}

/// The warnings on the empty blocks of a work that was just read, in the order of their places.
///
/// # Errors
///
/// Only when out of memory.
pub fn empty_block_warnings(alloc: Global, work: &Work) -> Result<Vec<Warning>, AllocError>
    requires few { byte_len work.now.text < 2 ^ 32 }
    requires read { Reads work.now.text (tree_of work.now) }
    ensures { IfOk result (λ ws. map warning_seen ws.items ≡ warnings work.now.text (Ok (tree_of work.now))) }
{
    work.facts();
    let mut warnings = Vec::new(alloc);
    let mut at = walk::next(work, NodeId::new(0));
    while let Some(n) = at {
        push_if_empty(&mut warnings, work, n)?;
        at = walk::next(work, n);
    }
    Ok(warnings)
}
