// Statements that are read from their bytes at once.
ghost use Rattle.std.specs.Prelude.{◌≡◌, ◌+◌, ◌-◌, ◌≤◌, ◌<◌, ◌∷◌, ◌++◌, ◌==◌, ◌||◌, true, false, drop, length, slice_index, IfSome};
ghost use Rattle.std.specs.List.{prefix_len};
ghost use Rattle.css_text.specs.Characters.{is_space as is_space_of};
ghost use Rattle.css_text.specs.Shared.{part};
ghost use Rattle.css_tree.specs.Classes.{Each};
ghost use Rattle.css_parse.specs.Plain.{is_name as is_name_of, is_flat as is_flat_of, mark_text, IsPlain};
ghost use Rattle.css_parse.specs.PlainScan.{IsCalmRun, IsScanned, IsValueStart};

use css_text::scan::{byte_at, is_space, spaces_end};

/// A declaration `name:value;` by its bytes: where its colon, its value, its value's end and its `;` stand. Between the value's
/// end and the `;` is nothing, or blanks and the mark `!important`.
#[derive(Clone, Copy)]
pub struct PlainLeaf {
    pub colon: usize,
    pub value: usize,
    pub end: usize,
    pub semicolon: usize,
}

/// The head of a rule `selector{` by its bytes: where its selector ends, and its `{`.
#[derive(Clone, Copy)]
pub struct PlainHead {
    pub end: usize,
    pub brace: usize,
}

/// A declaration, or the head of a rule.
#[derive(Clone, Copy)]
pub enum Plain {
    Leaf(PlainLeaf),
    Head(PlainHead),
}

// ASCII but for white space, quotes, `{ } ( ) [ ] : ; ,`, `@`, `!`, `/` and the backslash.
static NAME: [bool; 256] = [
    true, true, true, true, true, true, true, true, true, false, false, true, false, false, true,
    true, true, true, true, true, true, true, true, true, true, true, true, true, true, true, true,
    true, false, false, false, true, true, true, true, false, false, false, true, true, false,
    true, true, false, true, true, true, true, true, true, true, true, true, true, false, false,
    true, true, true, true, false, true, true, true, true, true, true, true, true, true, true,
    true, true, true, true, true, true, true, true, true, true, true, true, true, true, true, true,
    false, false, false, true, true, true, true, true, true, true, true, true, true, true, true,
    true, true, true, true, true, true, true, true, true, true, true, true, true, true, true, true,
    true, false, true, false, true, true, false, false, false, false, false, false, false, false,
    false, false, false, false, false, false, false, false, false, false, false, false, false,
    false, false, false, false, false, false, false, false, false, false, false, false, false,
    false, false, false, false, false, false, false, false, false, false, false, false, false,
    false, false, false, false, false, false, false, false, false, false, false, false, false,
    false, false, false, false, false, false, false, false, false, false, false, false, false,
    false, false, false, false, false, false, false, false, false, false, false, false, false,
    false, false, false, false, false, false, false, false, false, false, false, false, false,
    false, false, false, false, false, false, false, false, false, false, false, false, false,
    false, false, false, false, false, false, false, false, false, false, false, false, false,
    false, false, false,
];

// The same, white space, `:` and `,`.
static FLAT: [bool; 256] = [
    true, true, true, true, true, true, true, true, true, true, true, true, true, true, true, true,
    true, true, true, true, true, true, true, true, true, true, true, true, true, true, true, true,
    true, false, false, true, true, true, true, false, false, false, true, true, true, true, true,
    false, true, true, true, true, true, true, true, true, true, true, true, false, true, true,
    true, true, false, true, true, true, true, true, true, true, true, true, true, true, true,
    true, true, true, true, true, true, true, true, true, true, true, true, true, true, false,
    false, false, true, true, true, true, true, true, true, true, true, true, true, true, true,
    true, true, true, true, true, true, true, true, true, true, true, true, true, true, true, true,
    false, true, false, true, true, false, false, false, false, false, false, false, false, false,
    false, false, false, false, false, false, false, false, false, false, false, false, false,
    false, false, false, false, false, false, false, false, false, false, false, false, false,
    false, false, false, false, false, false, false, false, false, false, false, false, false,
    false, false, false, false, false, false, false, false, false, false, false, false, false,
    false, false, false, false, false, false, false, false, false, false, false, false, false,
    false, false, false, false, false, false, false, false, false, false, false, false, false,
    false, false, false, false, false, false, false, false, false, false, false, false, false,
    false, false, false, false, false, false, false, false, false, false, false, false, false,
    false, false, false, false, false, false, false, false, false, false, false, false, false,
    false, false,
];

/// A word unit wherever it stands, of ASCII.
fn is_name(b: u8) -> bool
    ensures { result ≡ is_name_of b }
{
    NAME[b as usize]
}

/// The same, white space, `:` or `,`.
fn is_flat(b: u8) -> bool
    ensures { result ≡ is_flat_of b }
{
    FLAT[b as usize]
}

/// Where the run of bytes of names from `from` on ends.
#[inline(always)]
fn name_end(bytes: &[u8], from: usize) -> usize
    requires { from ≤ length bytes.now }
    ensures within { result ≤ length bytes.now }
    ensures value { result ≡ from + prefix_len is_name_of (drop from bytes.now) }
{
    let mut i = from;
    while i < bytes.len() && is_name(bytes[i]) {
        i += 1;
    }
    i
}

/// Where the run of flat bytes from `from` on ends.
#[inline(always)]
fn flat_end(bytes: &[u8], from: usize) -> usize
    requires { from ≤ length bytes.now }
    ensures within { result ≤ length bytes.now }
    ensures value { result ≡ from + prefix_len is_flat_of (drop from bytes.now) }
{
    let mut i = from;
    while i < bytes.len() && is_flat(bytes[i]) {
        i += 1;
    }
    i
}

/// Directly before the byte `at` stands an `l`.
fn follows_l(bytes: &[u8], at: usize) -> bool
    requires some { 0 < at }
    requires within { at ≤ length bytes.now }
    ensures { result ≡ (slice_index bytes.now (at - 1) == 108 || slice_index bytes.now (at - 1) == 76) }
{
    bytes[at - 1] == b'l' || bytes[at - 1] == b'L'
}

/// How many round brackets are open behind the one at `at`, where `depth` are before it; `None` where there is none, or one that
/// closes none or might open `url(`.
fn depth_behind(bytes: &[u8], at: usize, depth: usize) -> Option<usize>
    requires some { 0 < at }
    requires within { at ≤ length bytes.now }
    requires few { depth ≤ at }
    ensures run { IfSome result (λ behind. IsCalmRun bytes.now at (at + 1) depth behind) }
    ensures few { IfSome result (λ behind. behind ≤ at + 1) }
{
    match byte_at(bytes, at) {
        b'(' if !follows_l(bytes, at) => Some(depth + 1),
        b')' if depth > 0 => Some(depth - 1),
        _ => None,
    }
}

/// Where the run of calm bytes ends whose first round bracket stands at `from`, if all its brackets are closed there.
fn brackets_end(bytes: &[u8], from: usize) -> Option<usize>
    requires some { 0 < from }
    requires within { from ≤ length bytes.now }
    ensures { IfSome result (λ end. IsCalmRun bytes.now from end 0 0) }
{
    let mut depth = 0;
    let mut i = from;
    while let Some(behind) = depth_behind(bytes, i, depth) {
        depth = behind;
        i = flat_end(bytes, i + 1);
    }
    if depth == 0 { Some(i) } else { None }
}

/// Where the white space before `end` begins, behind the byte `from`, which is none.
#[inline(always)]
fn spaces_start(bytes: &[u8], from: usize, end: usize) -> usize
    requires order { from < end }
    requires within { end ≤ length bytes.now }
    requires solid { is_space_of (slice_index bytes.now from) ≡ false }
    ensures behind { from < result }
    ensures before { result ≤ end }
    ensures class { Each is_space_of (part bytes.now result end) }
    ensures last { is_space_of (slice_index bytes.now (result - 1)) ≡ false }
{
    let mut i = end;
    while is_space(bytes[i - 1]) {
        i -= 1;
    }
    i
}

/// Where the value begins of a declaration whose name ends at `colon`, and whose value begins before `end`.
#[inline(always)]
fn value_start(bytes: &[u8], at: usize, colon: usize, end: usize) -> Option<usize>
    requires colon { at ≤ colon }
    requires order { colon ≤ end }
    requires within { end < length bytes.now }
    ensures { IfSome result (λ value. IsValueStart bytes.now at colon end value) }
{
    if at == colon || bytes[colon] != b':' || bytes[at] == b'*' || bytes[at] == b'_' {
        return None;
    }
    let value = spaces_end(bytes, colon + 1);
    if value < end { Some(value) } else { None }
}

/// At the index stands `!important;`.
fn begins_mark(bytes: &[u8], at: usize) -> bool
    requires { at ≤ length bytes.now }
    ensures { result ≡ true → drop at bytes.now ≡ mark_text ++ 59 ∷ drop (at + 11) bytes.now }
{
    bytes[at..].starts_with(b"!important;")
}

/// A declaration that has its `;` at `end`.
#[inline(always)]
fn leaf_at(bytes: &[u8], at: usize, colon: usize, end: usize) -> Option<Plain>
    requires scanned { IsScanned bytes.now at colon end }
    requires semicolon { slice_index bytes.now end ≡ 59 }
    ensures { IfSome result (λ s. IsPlain bytes.now at s) }
{
    let value = value_start(bytes, at, colon, end)?;
    if is_space(bytes[end - 1]) {
        return None;
    }
    Some(Plain::Leaf(PlainLeaf {
        colon,
        value,
        end,
        semicolon: end,
    }))
}

/// A declaration that has the `!` of its mark at `bang`.
fn marked_at(bytes: &[u8], at: usize, colon: usize, bang: usize) -> Option<Plain>
    requires scanned { IsScanned bytes.now at colon bang }
    requires bang { slice_index bytes.now bang ≡ 33 }
    ensures { IfSome result (λ s. IsPlain bytes.now at s) }
{
    let value = value_start(bytes, at, colon, bang)?;
    let end = spaces_start(bytes, value, bang);
    // Without a blank before it, the mark is a part of the value's last word.
    if end == bang || !begins_mark(bytes, bang) {
        return None;
    }
    Some(Plain::Leaf(PlainLeaf {
        colon,
        value,
        end,
        semicolon: bang + 10,
    }))
}

/// The head of a rule that has its `{` at `brace`.
#[inline(always)]
fn head_at(bytes: &[u8], at: usize, colon: usize, brace: usize) -> Option<Plain>
    requires scanned { IsScanned bytes.now at colon brace }
    requires brace { slice_index bytes.now brace ≡ 123 }
    ensures { IfSome result (λ s. IsPlain bytes.now at s) }
{
    if at == brace || is_space(bytes[at]) || bytes[at] == b'-' {
        return None;
    }
    let end = spaces_start(bytes, at, brace);
    Some(Plain::Head(PlainHead { end, brace }))
}

/// The statement that has its `;`, `!` or `{` at `end`.
#[inline(always)]
fn ended_at(bytes: &[u8], at: usize, colon: usize, end: usize) -> Option<Plain>
    requires { IsScanned bytes.now at colon end }
    ensures { IfSome result (λ s. IsPlain bytes.now at s) }
{
    match byte_at(bytes, end) {
        b';' => leaf_at(bytes, at, colon, end),
        b'!' => marked_at(bytes, at, colon, end),
        b'{' => head_at(bytes, at, colon, end),
        _ => None,
    }
}

/// The statement whose first round bracket stands at `first`.
fn bracketed_at(bytes: &[u8], at: usize, colon: usize, first: usize) -> Option<Plain>
    requires scanned { IsScanned bytes.now at colon first }
    requires bracket { slice_index bytes.now first ≡ 40 }
    ensures { IfSome result (λ s. IsPlain bytes.now at s) }
{
    let end = brackets_end(bytes, first)?;
    ended_at(bytes, at, colon, end)
}

/// The plain statement at the index, if one is found there.
#[inline(always)]
pub fn statement_at(bytes: &[u8], at: usize) -> Option<Plain>
    requires { at ≤ length bytes.now }
    ensures { IfSome result (λ s. IsPlain bytes.now at s) }
{
    let colon = name_end(bytes, at);
    if at == colon && byte_at(bytes, at) != b':' {
        return None;
    }
    let end = flat_end(bytes, colon);
    if byte_at(bytes, end) == b'(' {
        bracketed_at(bytes, at, colon, end)
    } else {
        ended_at(bytes, at, colon, end)
    }
}
