// White space inside a comment's markers, where runs of `*` directly inside count as parts of them.
ghost use Rattle.std.specs.Prelude.{◌≡◌, ◌<◌, ◌≤◌, ◌+◌, ◌^◌, ◌++◌, ℕ, List, IfOk, OnOk, MatchOption, None, Some, codes, length, map, reverse, encode_utf8_all};
ghost use Rattle.std.specs.Str.{IsCharBoundary, chars};
ghost use Rattle.css_text.specs.Ahead.{byte_len};
ghost use Rattle.node_rows.specs.Nodes.{text_of};
ghost use Rattle.node_rows.specs.NumberTrees.{tree_at};
ghost use Rattle.node_store.specs.Fresh.{IsFresh};
ghost use Rattle.rule_sites.specs.Blocks.{start_byte};
ghost use Rattle.rule_sites.specs.ContextAt.{context_at};
ghost use Rattle.rule_sites.specs.Finding.{site_of};
ghost use Rattle.rules_tree.specs.CommentWhitespaceInside.{at_closing, at_opening, findings, in_comment, inner_of, is_exempt, stars};

use crate::names::begins;
use crate::no_empty_source::is_white_text;
use crate::stars::{
    lacks_leading_space, lacks_trailing_space, leading_stars, trailing_stars_start,
};
use css_text::lexer::Span;
use css_text::txt::Txt;
use css_tree::node::NodeText;
use lint_config::found::{Repair, Site};
use lint_config::rule::Rule;
use node_store::id::NodeId;
use node_store::work::Work;
use rule_sites::reads;
use rule_sites::sites::push_site;
use std::alloc::{AllocError, Global};

/// How many bytes stand between a comment's markers; none for any other node.
fn inner_len(text: &NodeText) -> Option<usize>
    requires { (s : List ℕ) → inner_of text.now ≡ Some s → byte_len s < 2 ^ 32 }
    ensures { MatchOption result (inner_of text.now ≡ None) (λ size. (s : List ℕ) × (inner_of text.now ≡ Some s) × (size ≡ byte_len s)) }
{
    match text {
        NodeText::Comment {
            left,
            text,
            right,
            ..
        } => Some(left.as_str().len() + text.as_str().len() + right.as_str().len()),
        _ => None,
    }
}

/// What stands between a comment's markers, as a part of the sheet; none for any other node.
fn inner_of(work: &Work, n: NodeId) -> Option<&str>
    requires fresh { IsFresh work.now }
    requires given { n < length work.now.nodes }
    ensures value { MatchOption result (inner_of (text_of work.now.nodes n) ≡ None) (λ s. inner_of (text_of work.now.nodes n) ≡ Some (chars s.now)) }
    ensures end { MatchOption result (Unit {0}) (λ s. start_byte (tree_at work.now.nodes n) + 2 + length s.now ≤ byte_len work.now.text) }
    ensures boundary { MatchOption result (Unit {0}) (λ s. IsCharBoundary (encode_utf8_all work.now.text) (start_byte (tree_at work.now.nodes n) + 2 + length s.now)) }
{
    reads::stands(work, n);
    reads::is_short(work);
    match inner_len(reads::text_of(work, n)) {
        Some(size) => {
            let start = reads::start_of(work, n) as usize + 2;
            let end = start + size;
            let inner = &work.text().as_str()[start..end];
            Some(inner)
        }
        None => None,
    }
}

/// Whether the inner text is white space alone, or begins `!` or `#`.
fn is_exempt(inner: &str) -> bool
    ensures { result ≡ is_exempt (chars inner.now) }
{
    is_white_text(inner) || begins(inner, b'!') || begins(inner, b'#')
}

/// A space that goes in at the byte.
fn space_at(alloc: Global, at: usize) -> Result<Repair, AllocError>
    ensures { IfOk result (λ repair. repair ≡ record { span = record { start = at; end = at }; text = codes " " }) }
{
    Ok(Repair {
        span: Span { start: at, end: at },
        text: Txt::new(alloc, " ")?,
    })
}

/// Adds the site at a comment's `/*`, which stands at that byte, where no white space follows it.
fn visit_opening(
    alloc: Global,
    sites: &mut Vec<Site>,
    work: &Work,
    start: u32,
    inner: &str,
) -> Result<(), AllocError>
    requires end { start + 2 + length inner.now ≤ byte_len work.now.text }
    requires boundary { IsCharBoundary (encode_utf8_all work.now.text) start }
    ensures { OnOk result (sites.new.items ≡ sites.old.items ++ map (site_of work.now.text Rule.CommentWhitespaceInside) (at_opening start (chars inner.now))) }
{
    reads::is_short(work);
    let bytes = inner.as_bytes();
    if lacks_leading_space(bytes) {
        let text = Txt::new(alloc, "Expected whitespace after \"/*\"")?;
        let repair = space_at(alloc, start as usize + 2 + leading_stars(bytes))?;
        push_site(
            sites,
            work,
            Rule::CommentWhitespaceInside,
            start,
            text,
            Some(repair),
        )?;
    }
    Ok(())
}

/// Adds the site at the `*/` of a comment that starts at that byte, where no white space stands before it.
fn visit_closing(
    alloc: Global,
    sites: &mut Vec<Site>,
    work: &Work,
    start: u32,
    inner: &str,
) -> Result<(), AllocError>
    requires end { start + 2 + length inner.now ≤ byte_len work.now.text }
    requires boundary { IsCharBoundary (encode_utf8_all work.now.text) (start + 2 + length inner.now) }
    ensures { OnOk result (sites.new.items ≡ sites.old.items ++ map (site_of work.now.text Rule.CommentWhitespaceInside) (at_closing start (chars inner.now))) }
{
    reads::is_short(work);
    let bytes = inner.as_bytes();
    if lacks_trailing_space(bytes) {
        let text = Txt::new(alloc, "Expected whitespace before \"*/\"")?;
        let first = start as usize + 2;
        let repair = space_at(alloc, first + trailing_stars_start(bytes))?;
        let at = (first + bytes.len()) as u32;
        push_site(
            sites,
            work,
            Rule::CommentWhitespaceInside,
            at,
            text,
            Some(repair),
        )?;
    }
    Ok(())
}

/// Adds the sites of the node where it is a comment without white space inside its markers. White space alone, and what
/// begins `!` or `#`, are exempt.
///
/// # Errors
///
/// Only when out of memory.
#[tactic(auto, unfolding(crate::specs::CommentWhitespaceInside::findings, rule_sites::specs::ContextAt::context_at))]
pub fn visit(alloc: Global, sites: &mut Vec<Site>, work: &Work, n: NodeId) -> Result<(), AllocError>
    requires fresh { IsFresh work.now }
    requires given { n < length work.now.nodes }
    ensures { OnOk result (sites.new.items ≡ sites.old.items ++ map (site_of work.now.text Rule.CommentWhitespaceInside) (findings (context_at work.now.nodes n))) }
{
    let Some(inner) = inner_of(work, n) else {
        return Ok(());
    };
    if is_exempt(inner) {
        return Ok(());
    }
    let start = reads::start_of(work, n);
    visit_opening(alloc, sites, work, start, inner)?;
    visit_closing(alloc, sites, work, start, inner)
}
