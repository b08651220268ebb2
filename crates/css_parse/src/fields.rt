// The texts of nodes, by the pieces that they are made of.
ghost use Rattle.std.specs.Prelude.{◌≡◌, ◌+◌, ◌-◌, ◌++◌, [], ◌∷◌, ◌<◌, ◌≤◌, ◌==◌, if◌then◌else◌, IfOk, length, None, take, drop};
ghost use Rattle.std.specs.Str.{chars};
ghost use Rattle.css_tree.specs.Pieces.{join, shape, Shape as S};
ghost use Rattle.css_tree.proofs.Split.{mark_of};
ghost use Rattle.css_tree.proofs.TreeOf.{comment_text, at_rule_text, rule_text, declaration_text};
ghost use Rattle.css_parse.specs.Gaps.{gap_of};
ghost use Rattle.css_parse.specs.Marks.{IsIn, IsMarkOf, IsMarkStart};
ghost use Rattle.css_parse.specs.Standing.{sheet, gap_text, AreParts, IsBehind};
ghost use Rattle.css_parse.specs.Values.{IsValue, IsValueLen, IsPast};

use crate::gap::Gap;
use crate::mark::{Mark, find_mark};
use crate::piece::Piece;
use crate::spaces;
use crate::texts::{Texts, last_end, lead_len, solid_len, source_of, text_of};
use css_text::txt::Txt;
use css_tree::node::{Block, NodeText, Source};
use std::alloc::AllocError;

/// The value of a declaration, and its mark.
#[derive(Drop)]
struct Value {
    source: Source,
    important: bool,
    important_raw: Txt,
}

/// A comment.
pub fn comment(texts: Texts, before: Gap, piece: &Piece) -> Result<NodeText, AllocError>
    requires comment { shape piece.now ≡ S.comment }
    requires behind { IsBehind (sheet texts) before (piece.now ∷ []) }
    ensures { IfOk result (λ n. n ≡ comment_text (gap_of (gap_text (sheet texts.entry) before)) piece.now) }
{
    let lens = spaces::trim(piece.inner());
    let start = piece.start() + 2;
    let text_start = start + lens.left as u32;
    let text_end = text_start + lens.text as u32;
    let before = texts.part(before.start, before.end)?;
    let left = texts.part(start, text_start)?;
    let text = texts.part(text_start, text_end)?;
    let right = texts.part(text_end, piece.end() - 2)?;
    Ok(NodeText::Comment {
        before: Some(before),
        left,
        text,
        right,
    })
}

/// The place, or the start where nothing stands from `front` to `end`.
fn unless_empty(front: usize, end: usize, place: usize) -> usize
    ensures { result ≡ (if front == end then 0 else place) }
{
    if front == end { 0 } else { place }
}

/// An at-rule, of an at-word and what stands behind it.
pub fn at_rule(
    texts: Texts,
    before: Gap,
    word: &Piece,
    rest: &[Piece],
    block: Option<Block>,
) -> Result<NodeText, AllocError>
    requires at_name { shape word.now ≡ S.at_name }
    requires behind { IsBehind (sheet texts) before (word.now ∷ rest.now) }
    ensures { IfOk result (λ n. n ≡ at_rule_text (gap_of (gap_text (sheet texts.entry) before)) word.now rest.now block) }
{
    let front = lead_len(rest);
    let end = front + solid_len(&rest[front..]);
    let before = texts.part(before.start, before.end)?;
    let name = texts.part(word.name_start(), word.end())?;
    let source = text_of(texts, &rest[front..end])?;
    let params = source_of(texts.alloc, source)?;
    let name_end = unless_empty(front, end, front);
    let after_name = text_of(texts, &rest[..name_end])?;
    let between_start = unless_empty(front, end, end);
    let between = text_of(texts, &rest[between_start..])?;
    Ok(NodeText::AtRule {
        before: Some(before),
        name,
        after_name,
        params,
        between,
        block,
    })
}

/// A rule, of the pieces before its `{`.
pub fn rule(texts: Texts, before: Gap, run: &[Piece], block: Block) -> Result<NodeText, AllocError>
    requires { IsBehind (sheet texts) before run.now }
    ensures { IfOk result (λ n. n ≡ rule_text (gap_of (gap_text (sheet texts.entry) before)) run.now block) }
{
    let end = solid_len(run);
    let before = texts.part(before.start, before.end)?;
    let source = text_of(texts, &run[..end])?;
    let selector = source_of(texts.alloc, source)?;
    let between = text_of(texts, &run[end..])?;
    Ok(NodeText::Rule {
        before: Some(before),
        selector,
        between,
        block,
    })
}

/// How many pieces before the mark's word are no trailing blanks of the value.
fn value_len(body: &[Piece], mark: &Mark) -> usize
    requires { mark.now.before < length body.now }
    ensures { IsValueLen result mark.now body.now }
{
    if mark.word.front.is_empty() {
        solid_len(&body[..mark.before])
    } else {
        mark.before
    }
}

fn read_value(texts: Texts, body: &[Piece]) -> Result<Value, AllocError>
    requires { AreParts (sheet texts) body.now }
    ensures { IfOk result (λ v. IsValue v body.now) }
{
    match find_mark(body) {
        None => unmarked_value(texts, body),
        Some(mark) => marked_value(texts, body, &mark),
    }
}

fn unmarked_value(texts: Texts, body: &[Piece]) -> Result<Value, AllocError>
    requires parts { AreParts (sheet texts) body.now }
    requires unmarked { mark_of body.now ≡ None }
    ensures { IfOk result (λ v. IsValue v body.now) }
{
    let text = text_of(texts, body)?;
    let source = source_of(texts.alloc, text)?;
    let important_raw = texts.empty()?;
    Ok(Value {
        source,
        important: false,
        important_raw,
    })
}

/// The byte at which the mark begins.
fn mark_start(body: &[Piece], mark: &Mark) -> u32
    requires mark { IsIn mark.now body.now }
    requires short { (h : IsIn mark.now body.now) → h.word.at + length mark.now.word.front.now ≤ 67108864 }
    ensures { IsMarkStart result mark.now body.now }
{
    body[mark.before].start() + mark.word.front.len() as u32
}

/// The text before the mark, without its trailing blanks, of so many pieces and what stands in the mark's word before the mark.
fn value_text(texts: Texts, body: &[Piece], mark: &Mark, end: usize) -> Result<Txt, AllocError>
    requires parts { AreParts (sheet texts) body.now }
    requires mark { IsIn mark.now body.now }
    requires end { IsValueLen end mark.now body.now }
    ensures { IfOk result (λ t. t ≡ join (take end body.now) ++ chars mark.now.word.front.now) }
{
    if mark.word.front.is_empty() {
        text_of(texts, &body[..end])
    } else {
        texts.part(body[0].start(), mark_start(body, mark))
    }
}

/// The blanks behind so many pieces of the value, and the mark.
fn mark_text(texts: Texts, body: &[Piece], mark: &Mark, end: usize) -> Result<Txt, AllocError>
    requires parts { AreParts (sheet texts) body.now }
    requires mark { IsIn mark.now body.now }
    requires end { IsValueLen end mark.now body.now }
    ensures { IfOk result (λ t. t ≡ join (take (mark.now.before - end) (drop end body.now)) ++ (chars mark.now.word.back.now ++ join (drop (mark.now.before + 1) body.now))) }
{
    if mark.word.front.is_empty() {
        text_of(texts, &body[end..])
    } else {
        let start = mark_start(body, mark);
        texts.part(start, last_end(start, body))
    }
}

fn marked_value(texts: Texts, body: &[Piece], mark: &Mark) -> Result<Value, AllocError>
    requires parts { AreParts (sheet texts) body.now }
    requires mark { IsMarkOf mark.now body.now }
    ensures { IfOk result (λ v. IsValue v body.now) }
{
    let end = value_len(body, mark);
    let text = value_text(texts, body, mark, end)?;
    let source = source_of(texts.alloc, text)?;
    let important_raw = mark_text(texts, body, mark, end)?;
    Ok(Value {
        source,
        important: true,
        important_raw,
    })
}

/// Behind the colon, which stands at that place.
fn past_colon(rest: &[Piece], front: usize) -> usize
    requires { front ≤ length rest.now }
    ensures { IsPast result front rest.now }
{
    if front < rest.len() { front + 1 } else { front }
}

/// A declaration, of a word and what stands behind it.
#[inline(always)]
pub fn declaration(
    texts: Texts,
    before: Gap,
    word: &Piece,
    rest: &[Piece],
) -> Result<NodeText, AllocError>
    requires { IsBehind (sheet texts) before (word.now ∷ rest.now) }
    ensures { IfOk result (λ n. n ≡ declaration_text (gap_of (gap_text (sheet texts.entry) before)) word.now rest.now) }
{
    let front = lead_len(rest);
    let colon = past_colon(rest, front);
    let start = colon + lead_len(&rest[colon..]);
    let end = start + solid_len(&rest[start..]);
    let prop_start = word.hack_end();
    let before = texts.part(before.start, prop_start)?;
    let prop = texts.part(prop_start, word.end())?;
    let between = text_of(texts, &rest[..start])?;
    let value = read_value(texts, &rest[start..end])?;
    let tail = text_of(texts, &rest[end..])?;
    Ok(NodeText::Declaration {
        before: Some(before),
        prop,
        between,
        value: value.source,
        important: value.important,
        important_raw: value.important_raw,
        tail,
    })
}
