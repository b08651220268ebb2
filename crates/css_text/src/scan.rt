// How far each form of piece reaches, on the bytes of a text.
ghost use Rattle.std.specs.Prelude.{◌≡◌, ◌==◌, ◌&&◌, ◌||◌, not, ◌+◌, ◌≤◌, ◌<◌, true, false, drop, length, slice_index, IfSome};
ghost use Rattle.css_text.specs.Characters.{is_space as is_space_of, is_quote as is_quote_of, is_single as is_single_of, ends_word as ends_word_of};
ghost use Rattle.css_text.specs.Forms.{unit_end as unit_end_of, shifted, space_len, unit_len, through as through_of, through_comment as through_comment_of, begins_url as begins_url_of};

/// Space, tab, LF, CR or FF.
#[tactic(auto, unfolding(crate::specs::Characters::is_space))]
pub fn is_space(b: u8) -> bool
    ensures { result ≡ is_space_of b }
{
    b == b' ' || b == b'\t' || b == b'\n' || b == b'\r' || b == 12
}

/// `"` or `'`.
#[tactic(auto, unfolding(crate::specs::Characters::is_quote))]
pub fn is_quote(b: u8) -> bool
    ensures { result ≡ is_quote_of b }
{
    b == b'"' || b == b'\''
}

/// One of `{ } ( ) [ ] : ; ,`.
#[tactic(auto, unfolding(crate::specs::Characters::is_single))]
pub fn is_single(b: u8) -> bool
    ensures { result ≡ is_single_of b }
{
    matches!(
        b,
        b'{' | b'}' | b'(' | b')' | b'[' | b']' | b':' | b';' | b','
    )
}

// All but white space, quotes, `{ } ( ) [ ] : ; ,`, `@`, `/` and the backslash. The scan of words reads one entry a byte.
static PLAIN: [bool; 256] = [
    true, true, true, true, true, true, true, true, true, false, false, true, false, false, true,
    true, true, true, true, true, true, true, true, true, true, true, true, true, true, true, true,
    true, false, true, false, true, true, true, true, false, false, false, true, true, false, true,
    true, false, true, true, true, true, true, true, true, true, true, true, false, false, true,
    true, true, true, false, true, true, true, true, true, true, true, true, true, true, true,
    true, true, true, true, true, true, true, true, true, true, true, true, true, true, true,
    false, false, false, true, true, true, true, true, true, true, true, true, true, true, true,
    true, true, true, true, true, true, true, true, true, true, true, true, true, true, true, true,
    true, false, true, false, true, true, true, true, true, true, true, true, true, true, true,
    true, true, true, true, true, true, true, true, true, true, true, true, true, true, true, true,
    true, true, true, true, true, true, true, true, true, true, true, true, true, true, true, true,
    true, true, true, true, true, true, true, true, true, true, true, true, true, true, true, true,
    true, true, true, true, true, true, true, true, true, true, true, true, true, true, true, true,
    true, true, true, true, true, true, true, true, true, true, true, true, true, true, true, true,
    true, true, true, true, true, true, true, true, true, true, true, true, true, true, true, true,
    true, true, true, true, true, true, true, true, true, true, true, true, true, true, true, true,
    true, true, true, true, true, true, true,
];

/// White space, a quote, a Single or `@`: what no word unit begins with.
#[tactic(auto, unfolding(crate::specs::Characters::ends_word))]
fn ends_word(b: u8) -> bool
    ensures { result ≡ ends_word_of b }
{
    is_space(b) || is_quote(b) || is_single(b) || b == b'@'
}

/// Whether the byte is a word unit wherever it stands, whatever follows: most are.
fn is_plain(b: u8) -> bool
    ensures { result ≡ (not (ends_word_of b || b == 47 || b == 92)) }
{
    PLAIN[b as usize]
}

/// The byte at the index, or 0 past the end.
pub fn byte_at(s: &[u8], at: usize) -> u8
    ensures { result ≡ slice_index s.now at }
{
    if at < s.len() { s[at] } else { 0 }
}

/// At the index stands `/*`.
pub fn begins_comment(s: &[u8], at: usize) -> bool
    requires { at < length s.now }
    ensures { result ≡ (slice_index s.now at == 47 && slice_index s.now (at + 1) == 42) }
{
    s[at] == b'/' && byte_at(s, at + 1) == b'*'
}

/// Where the run of white space from `from` on ends.
pub fn spaces_end(s: &[u8], from: usize) -> usize
    requires { from ≤ length s.now }
    ensures within { result ≤ length s.now }
    ensures value { result ≡ from + space_len (drop from s.now) }
{
    let mut i = from;
    while i < s.len() && is_space(s[i]) {
        i += 1;
    }
    i
}

/// Where the character or the escape at the index ends.
#[tactic(auto, unfolding(crate::specs::Forms::unit_end))]
pub fn unit_end(s: &[u8], at: usize) -> usize
    requires { at < length s.now }
    ensures within { result ≤ length s.now }
    ensures longer { at < result }
    ensures value { result ≡ unit_end_of s.now at }
{
    if s[at] == b'\\' && at + 1 < s.len() {
        at + 2
    } else {
        at + 1
    }
}

/// Where the run of word units from `from` on ends.
#[tactic(auto, using(crate::proofs::Steps::unit_steps))]
pub fn units_end(s: &[u8], from: usize) -> usize
    requires { from ≤ length s.now }
    ensures within { result ≤ length s.now }
    ensures value { result ≡ from + unit_len false (drop from s.now) }
{
    let mut i = from;
    while i < s.len() {
        let b = s[i];
        if is_plain(b) {
            i += 1;
        } else if ends_word(b) || begins_comment(s, i) {
            return i;
        } else {
            i = unit_end(s, i);
        }
    }
    i
}

/// Just behind the first `last` from `from` on that no backslash hides.
#[tactic(auto, using(crate::proofs::Steps::through_steps))]
pub fn through(s: &[u8], from: usize, last: u8) -> Option<usize>
    requires { from ≤ length s.now }
    ensures within { IfSome result (λ end. (from ≤ end) × (end ≤ length s.now)) }
    ensures value { result ≡ shifted from (through_of last false (drop from s.now)) }
{
    let mut i = from;
    while i < s.len() {
        let b = s[i];
        if b == last {
            return Some(i + 1);
        }
        i = unit_end(s, i);
    }
    None
}

/// Just behind the first `*/` from `from` on.
#[tactic(auto, using(crate::proofs::Steps::comment_steps))]
pub fn through_comment(s: &[u8], from: usize) -> Option<usize>
    requires { from ≤ length s.now }
    ensures within { IfSome result (λ end. (from ≤ end) × (end ≤ length s.now)) }
    ensures value { result ≡ shifted from (through_comment_of (drop from s.now)) }
{
    let mut i = from;
    while i < s.len() {
        if s[i] == b'*' && byte_at(s, i + 1) == b'/' {
            return Some(i + 2);
        }
        i += 1;
    }
    None
}

/// At the index stands `url(` in any ASCII case, with no quote after the white space behind it.
#[tactic(auto, using(crate::proofs::Steps::url_steps))]
pub fn begins_url(s: &[u8], at: usize) -> bool
    requires { at < length s.now }
    ensures within { result ≡ true → at + 4 ≤ length s.now }
    ensures value { result ≡ begins_url_of (drop at s.now) }
{
    if s[at].to_ascii_lowercase() != b'u' {
        return false;
    }
    let r = byte_at(s, at + 1).to_ascii_lowercase();
    let l = byte_at(s, at + 2).to_ascii_lowercase();
    let open = byte_at(s, at + 3).to_ascii_lowercase();
    if r != b'r' || l != b'l' || open != b'(' {
        return false;
    }
    !is_quote(byte_at(s, spaces_end(s, at + 4)))
}
