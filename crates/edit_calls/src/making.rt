// New nodes, which are loose, and copies.
ghost use Rattle.std.specs.Prelude.{◌≡◌, ◌≢◌, ◌∷◌, [], length, codes, Ok, Some, None, IfOk, MatchResult, if◌then◌else◌};
ghost use Rattle.std.specs.Str.{chars};
ghost use Rattle.css_tree.specs.Changes.{written as written_source};
ghost use Rattle.css_tree.specs.Parts.{kind_of};
ghost use Rattle.css_tree.specs.declared.node.Kind.TheVariants as K;
ghost use Rattle.node_store.specs.declared.item.Edit.TheVariants as E;
ghost use Rattle.node_store.specs.Forest.{unreserved};
ghost use Rattle.edit_calls.specs.Plans.{making, cloning, refused_root, refused_new, space_before, space_text, new_block as new_block_end, new_declaration, new_rule as new_rule_text, new_at_rule as new_at_rule_text, new_comment as new_comment_text};
ghost use Rattle.edit_calls.specs.Checks.{checked};
ghost use Rattle.edit_calls.specs.Answers.{Makes, AnswersNew};

use css_text::stop::Stop;
use css_text::txt::Txt;
use css_tree::clean::clean_text;
use css_tree::node::{Block, NodeText, Source};
use node_store::fault::TreeFault;
use node_store::id::NodeId;
use node_store::laws::copies_can;
use node_store::work::Work;
use std::alloc::{AllocError, Global};

fn written(alloc: Global, text: &str) -> Result<Source, AllocError>
    ensures { IfOk result (λ s. s ≡ written_source (chars text.now)) }
{
    let source = Txt::new(alloc, text)?;
    let clean = clean_text(alloc, &source)?;
    Ok(Source { source, clean })
}

fn nothing(alloc: Global) -> Result<Txt, AllocError>
    ensures { IfOk result (λ t. t ≡ []) }
{
    Txt::new(alloc, "")
}

fn space(alloc: Global) -> Result<Txt, AllocError>
    ensures { IfOk result (λ t. t ≡ space_text) }
{
    Txt::new(alloc, " ")
}

fn colon(alloc: Global) -> Result<Txt, AllocError>
    ensures { IfOk result (λ t. t ≡ codes ": ") }
{
    Txt::new(alloc, ": ")
}

// What stands before the parameters of an at-rule.
fn space_before(alloc: Global, params: &str) -> Result<Txt, AllocError>
    ensures { IfOk result (λ t. t ≡ space_before (chars params.now)) }
{
    if params.is_empty() {
        nothing(alloc)
    } else {
        space(alloc)
    }
}

// What stands before the block of an at-rule.
fn space_where(alloc: Global, block: bool) -> Result<Txt, AllocError>
    ensures { IfOk result (λ t. t ≡ (if block then space_text else [])) }
{
    if block { space(alloc) } else { nothing(alloc) }
}

fn new_block() -> Block
    ensures { result ≡ new_block_end }
{
    Block {
        semicolon: true,
        after: None,
    }
}

fn block_where(block: bool) -> Option<Block>
    ensures { result ≡ (if block then Some new_block_end else None) }
{
    if block { Some(new_block()) } else { None }
}

fn declaration_text(alloc: Global, prop: &str, value: &str) -> Result<NodeText, AllocError>
    ensures { IfOk result (λ t. t ≡ new_declaration (chars prop.now) (chars value.now)) }
{
    let prop = Txt::new(alloc, prop)?;
    let between = colon(alloc)?;
    let value = written(alloc, value)?;
    let important_raw = nothing(alloc)?;
    let tail = nothing(alloc)?;
    Ok(NodeText::Declaration {
        before: None,
        prop,
        between,
        value,
        important: false,
        important_raw,
        tail,
    })
}

fn rule_text(alloc: Global, selector: &str) -> Result<NodeText, AllocError>
    ensures { IfOk result (λ t. t ≡ new_rule_text (chars selector.now)) }
{
    let selector = written(alloc, selector)?;
    let between = space(alloc)?;
    Ok(NodeText::Rule {
        before: None,
        selector,
        between,
        block: new_block(),
    })
}

fn at_rule_text(
    alloc: Global,
    name: &str,
    params: &str,
    block: bool,
) -> Result<NodeText, AllocError>
    ensures { IfOk result (λ t. t ≡ new_at_rule_text (chars name.now) (chars params.now) block) }
{
    let name = Txt::new(alloc, name)?;
    let after_name = space_before(alloc, params)?;
    let params = written(alloc, params)?;
    let between = space_where(alloc, block)?;
    let block = block_where(block);
    Ok(NodeText::AtRule {
        before: None,
        name,
        after_name,
        params,
        between,
        block,
    })
}

fn comment_text(alloc: Global, text: &str) -> Result<NodeText, AllocError>
    ensures { IfOk result (λ t. t ≡ new_comment_text (chars text.now)) }
{
    let left = space(alloc)?;
    let text = Txt::new(alloc, text)?;
    let right = space(alloc)?;
    Ok(NodeText::Comment {
        before: None,
        left,
        text,
        right,
    })
}

fn check_room(work: &Work) -> Result<(), TreeFault>
    ensures { result ≡ checked (refused_new work.now.nodes) }
{
    if work.node_total() >= 5_000_000 {
        return Err(TreeFault::Full);
    }
    Ok(())
}

// Makes a loose node of the text, where there was memory for it.
fn make(work: &mut Work, text: NodeText) -> Result<NodeId, AllocError>
    requires room { checked (refused_new work.old.nodes) ≡ Ok tt }
    requires kind { kind_of text ≢ K.Root }
    ensures { MatchResult result
        (λ n. (n ≡ length work.old.nodes) × Makes work.old work.new (E.New (length work.old.nodes) text None ∷ []))
        (λ _. unreserved work.new ≡ unreserved work.old) }
{
    work.make(text, None)
}

fn check_not_root(work: &Work, n: NodeId) -> Result<(), TreeFault>
    ensures { result ≡ checked (refused_root work.now.nodes n) }
{
    work.parent(n)?;
    if n.number() == 0 {
        return Err(TreeFault::IsRoot);
    }
    Ok(())
}

/// A new declaration, with `: ` between property and value. Refused as Full where 5,000,000 numbers are given out.
pub fn new_decl(work: &mut Work, prop: &str, value: &str) -> Result<NodeId, Stop<TreeFault>>
    ensures { AnswersNew (making work.old.nodes (new_declaration (chars prop.now) (chars value.now))) work.old work.new result }
{
    check_room(work).map_err(Stop::Fault)?;
    let text = declaration_text(work.alloc(), prop, value).map_err(Stop::Memory)?;
    make(work, text).map_err(Stop::Memory)
}

/// A new rule without children. Refused as `new_decl`.
pub fn new_rule(work: &mut Work, selector: &str) -> Result<NodeId, Stop<TreeFault>>
    ensures { AnswersNew (making work.old.nodes (new_rule_text (chars selector.now))) work.old work.new result }
{
    check_room(work).map_err(Stop::Fault)?;
    let text = rule_text(work.alloc(), selector).map_err(Stop::Memory)?;
    make(work, text).map_err(Stop::Memory)
}

/// A new at-rule, with a block or without one. Refused as `new_decl`.
pub fn new_at_rule(
    work: &mut Work,
    name: &str,
    params: &str,
    block: bool,
) -> Result<NodeId, Stop<TreeFault>>
    ensures { AnswersNew (making work.old.nodes (new_at_rule_text (chars name.now) (chars params.now) block)) work.old work.new result }
{
    check_room(work).map_err(Stop::Fault)?;
    let text = at_rule_text(work.alloc(), name, params, block).map_err(Stop::Memory)?;
    make(work, text).map_err(Stop::Memory)
}

/// A new comment, with a space at both ends of its text. Refused as `new_decl`.
pub fn new_comment(work: &mut Work, text: &str) -> Result<NodeId, Stop<TreeFault>>
    ensures { AnswersNew (making work.old.nodes (new_comment_text (chars text.now))) work.old work.new result }
{
    check_room(work).map_err(Stop::Fault)?;
    let text = comment_text(work.alloc(), text).map_err(Stop::Memory)?;
    make(work, text).map_err(Stop::Memory)
}

/// A loose copy of the node with all below it, with the same texts, raws and spans. Refused as NoSuchNode, IsRoot, and Full
/// where more than 5,000,000 numbers would be given out.
pub fn clone_tree(work: &mut Work, n: NodeId) -> Result<NodeId, Stop<TreeFault>>
    ensures { AnswersNew (cloning work.old.nodes n) work.old work.new result }
{
    work.facts();
    copies_can();
    check_not_root(work, n).map_err(Stop::Fault)?;
    work.copy_tree(n)
}
