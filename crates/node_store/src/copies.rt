// Copies of the texts of nodes, in linear time.
ghost use Rattle.std.specs.Prelude.{◌≡◌, IfOk};

use css_text::txt::Txt;
use css_tree::node::{Block, NodeText, Source};
use std::alloc::{AllocError, Global};

fn copy_text(alloc: Global, text: &Txt) -> Result<Txt, AllocError>
    ensures { IfOk result (λ copy. copy ≡ text.now) }
{
    Txt::new(alloc, text.as_str())
}

fn copy_some(alloc: Global, text: &Option<Txt>) -> Result<Option<Txt>, AllocError>
    ensures { IfOk result (λ copy. copy ≡ text.now) }
{
    match text {
        None => Ok(None),
        Some(text) => {
            let copy = copy_text(alloc, text)?;
            Ok(Some(copy))
        }
    }
}

fn copy_source(alloc: Global, text: &Source) -> Result<Source, AllocError>
    ensures { IfOk result (λ copy. copy ≡ text.now) }
{
    let source = copy_text(alloc, &text.source)?;
    let clean = copy_text(alloc, &text.clean)?;
    Ok(Source { source, clean })
}

fn copy_block(alloc: Global, block: &Block) -> Result<Block, AllocError>
    ensures { IfOk result (λ copy. copy ≡ block.now) }
{
    let after = copy_some(alloc, &block.after)?;
    Ok(Block {
        semicolon: block.semicolon,
        after,
    })
}

fn copy_some_block(alloc: Global, block: &Option<Block>) -> Result<Option<Block>, AllocError>
    ensures { IfOk result (λ copy. copy ≡ block.now) }
{
    match block {
        None => Ok(None),
        Some(block) => {
            let copy = copy_block(alloc, block)?;
            Ok(Some(copy))
        }
    }
}

/// A copy of a node's text. Its only error is want of memory.
pub fn copy_node(alloc: Global, text: &NodeText) -> Result<NodeText, AllocError>
    ensures { IfOk result (λ copy. copy ≡ text.now) }
{
    match text {
        NodeText::Root { bom, block } => {
            let block = copy_block(alloc, block)?;
            Ok(NodeText::Root { bom: *bom, block })
        }
        NodeText::AtRule {
            before,
            name,
            after_name,
            params,
            between,
            block,
        } => {
            let before = copy_some(alloc, before)?;
            let name = copy_text(alloc, name)?;
            let after_name = copy_text(alloc, after_name)?;
            let params = copy_source(alloc, params)?;
            let between = copy_text(alloc, between)?;
            let block = copy_some_block(alloc, block)?;
            Ok(NodeText::AtRule {
                before,
                name,
                after_name,
                params,
                between,
                block,
            })
        }
        NodeText::Rule {
            before,
            selector,
            between,
            block,
        } => {
            let before = copy_some(alloc, before)?;
            let selector = copy_source(alloc, selector)?;
            let between = copy_text(alloc, between)?;
            let block = copy_block(alloc, block)?;
            Ok(NodeText::Rule {
                before,
                selector,
                between,
                block,
            })
        }
        NodeText::Declaration {
            before,
            prop,
            between,
            value,
            important,
            important_raw,
            tail,
        } => {
            let before = copy_some(alloc, before)?;
            let prop = copy_text(alloc, prop)?;
            let between = copy_text(alloc, between)?;
            let value = copy_source(alloc, value)?;
            let important_raw = copy_text(alloc, important_raw)?;
            let tail = copy_text(alloc, tail)?;
            Ok(NodeText::Declaration {
                before,
                prop,
                between,
                value,
                important: *important,
                important_raw,
                tail,
            })
        }
        NodeText::Comment {
            before,
            left,
            text,
            right,
        } => {
            let before = copy_some(alloc, before)?;
            let left = copy_text(alloc, left)?;
            let text = copy_text(alloc, text)?;
            let right = copy_text(alloc, right)?;
            Ok(NodeText::Comment {
                before,
                left,
                text,
                right,
            })
        }
    }
}
