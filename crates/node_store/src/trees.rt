// A work for tests, and edits that are made where they may be.
ghost use Rattle.std.specs.Prelude.{IsSome, ◌≡◌, ℕ, List, [], true, length, IfOk};
ghost use Rattle.node_store.specs.declared.item.Edit.TheVariants as E;
ghost use Rattle.node_store.specs.Edits.{is_allowed};
ghost use Rattle.css_tree.specs.Parts.{block_of};
ghost use Rattle.node_rows.specs.Nodes.{text_of};

use crate::id::NodeId;
use crate::parts;
use crate::work::Work;
use css_text::lexer::Span;
use css_text::stop::Stop;
use css_text::text::Text;
use css_text::txt::Txt;
use css_tree::node::{Block, Field, Kind, NodeText, Raw, Source};
use node_rows::node_list::NodeAt;
use std::alloc::{AllocError, Global};

/// The node of that number.
pub fn id(number: u32) -> NodeId
    ensures { result ≡ number }
{
    NodeId::new(number)
}

fn empty_text(alloc: Global) -> Result<Text, AllocError>
    ensures { IfOk result (λ text. text ≡ []) }
{
    match Text::new(alloc, Vec::new(alloc)) {
        Ok(text) => Ok(text),
        Err(Stop::Memory(error)) => Err(error),
        Err(Stop::Fault(_)) => unreachable!(),
    }
}

/// A root alone.
pub fn empty_sheet(alloc: Global) -> Result<Work, AllocError> {
    let text = empty_text(alloc)?;
    let block = Block {
        semicolon: false,
        after: None,
    };
    let mut nodes = Vec::new(alloc);
    nodes.push(NodeAt {
        parent: 0,
        text: NodeText::Root { bom: false, block },
        span: Span { start: 0, end: 0 },
    })?;
    Work::from_nodes(alloc, text, nodes)
}

/// A new node; none where it may not be made.
pub fn make(work: &mut Work, text: NodeText) -> Result<Option<NodeId>, AllocError> {
    if work.node_total() >= 5_000_000 {
        return Ok(None);
    }
    match parts::kind(&text) {
        Kind::Root => Ok(None),
        _ => Ok(Some(work.make(text, None)?)),
    }
}

fn may_put(work: &Work, parent: NodeId, at: u32, node: NodeId) -> bool
    ensures { result ≡ true → is_allowed work.now.nodes (E.Insert node parent at) ≡ true }
{
    if node.number() >= work.node_total() || parent.number() >= work.node_total() {
        return false;
    }
    if node.number() == 0 || work.holds(node, parent) {
        return false;
    }
    match (
        work.parent(node),
        work.has_block(parent),
        work.child_count(parent),
    ) {
        (Ok(None), Ok(true), Ok(count)) => at <= count,
        _ => false,
    }
}

/// Whether the node was put in.
pub fn put(work: &mut Work, parent: NodeId, at: u32, node: NodeId) -> Result<bool, AllocError> {
    if !may_put(work, parent, at, node) {
        return Ok(false);
    }
    work.put_in(parent, at, node)?;
    Ok(true)
}

fn is_container(work: &Work, node: NodeId) -> bool
    ensures { result ≡ true → IsSome (block_of (text_of work.now.nodes node)) }
{
    match work.has_block(node) {
        Ok(found) => found,
        Err(_) => false,
    }
}

/// Whether a place is kept in the node.
pub fn reserve(work: &mut Work, node: NodeId) -> Result<bool, AllocError> {
    if !is_container(work, node) {
        return Ok(false);
    }
    work.reserve_place(node)?;
    Ok(true)
}

/// Whether the node was taken out.
pub fn take(work: &mut Work, node: NodeId) -> Result<bool, AllocError> {
    match work.parent(node) {
        Ok(Some(_)) => {
            work.take_out(node)?;
            Ok(true)
        }
        _ => Ok(false),
    }
}

fn may_set(work: &Work, node: NodeId, field: Field) -> bool
    ensures { result ≡ true → (t : List ℕ) → is_allowed work.now.nodes (E.Set field node t) ≡ true }
{
    match work.node_text(node) {
        Ok(text) => parts::field(text, field).is_some(),
        Err(_) => false,
    }
}

/// Whether the field may be set.
pub fn set(work: &mut Work, node: NodeId, field: Field, text: &str) -> Result<bool, AllocError> {
    if !may_set(work, node, field) {
        return Ok(false);
    }
    work.set_field(node, field, text)?;
    Ok(true)
}

fn may_shape(work: &Work, node: NodeId, raw: Raw) -> bool
    ensures { result ≡ true → (t : List ℕ) → is_allowed work.now.nodes (E.SetRaw raw node t) ≡ true }
{
    match work.node_text(node) {
        Ok(text) => parts::raw(text, raw).is_ok(),
        Err(_) => false,
    }
}

/// Whether the raw may be set.
pub fn shape(work: &mut Work, node: NodeId, raw: Raw, text: &str) -> Result<bool, AllocError> {
    if !may_shape(work, node, raw) {
        return Ok(false);
    }
    work.set_shape(node, raw, text)?;
    Ok(true)
}

/// A rule with every raw.
pub fn rule(alloc: Global, selector: &str) -> Result<NodeText, AllocError> {
    let source = Txt::new(alloc, selector)?;
    let clean = Txt::new(alloc, selector)?;
    Ok(NodeText::Rule {
        before: Some(Txt::new(alloc, "1")?),
        selector: Source { source, clean },
        between: Txt::new(alloc, "2")?,
        block: Block {
            semicolon: true,
            after: Some(Txt::new(alloc, "3")?),
        },
    })
}

/// A declaration with every raw.
pub fn declaration(alloc: Global, prop: &str, value: &str) -> Result<NodeText, AllocError> {
    let source = Txt::new(alloc, value)?;
    let clean = Txt::new(alloc, value)?;
    Ok(NodeText::Declaration {
        before: Some(Txt::new(alloc, "4")?),
        prop: Txt::new(alloc, prop)?,
        between: Txt::new(alloc, "5")?,
        value: Source { source, clean },
        important: true,
        important_raw: Txt::new(alloc, "6")?,
        tail: Txt::new(alloc, "7")?,
    })
}

/// An at-rule with every raw.
pub fn at_rule(alloc: Global, name: &str, params: &str) -> Result<NodeText, AllocError> {
    let source = Txt::new(alloc, params)?;
    let clean = Txt::new(alloc, params)?;
    Ok(NodeText::AtRule {
        before: Some(Txt::new(alloc, "8")?),
        name: Txt::new(alloc, name)?,
        after_name: Txt::new(alloc, "9")?,
        params: Source { source, clean },
        between: Txt::new(alloc, "10")?,
        block: Some(Block {
            semicolon: false,
            after: Some(Txt::new(alloc, "11")?),
        }),
    })
}

/// A comment with every raw.
pub fn comment(alloc: Global, text: &str) -> Result<NodeText, AllocError> {
    Ok(NodeText::Comment {
        before: Some(Txt::new(alloc, "12")?),
        left: Txt::new(alloc, "13")?,
        text: Txt::new(alloc, text)?,
        right: Txt::new(alloc, "14")?,
    })
}
