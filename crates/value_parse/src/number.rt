// A number and its unit.
ghost use Rattle.std.specs.Prelude.{◌≡◌, ◌==◌, ◌&&◌, ◌+◌, ◌-◌, ◌≤◌, drop, length, slice_index};
ghost use Rattle.std.specs.Char.{is_ascii_alphabetic};
ghost use Rattle.std.specs.List.{list_all};
ghost use Rattle.std.specs.Str.{chars};
ghost use Rattle.value_parse.specs.NumberLengths.{digits_len, sign_len, with_digits as with_digits_of, fraction_len, exponent_len, number_len, is_unit as is_unit_of};
ghost use Rattle.value_parse.specs.Number.{TellsNumber};

use css_text::lexer::Span;
use css_text::scan::byte_at;

/// Where the run of digits from `from` on ends.
fn digits_end(s: &[u8], from: usize) -> usize
    requires { from ≤ length s.now }
    ensures within { (from ≤ result) × (result ≤ length s.now) }
    ensures value { result ≡ from + digits_len (drop from s.now) }
{
    let mut i = from;
    while i < s.len() && s[i].is_ascii_digit() {
        i += 1;
    }
    i
}

/// Behind the sign at the index, if one stands there.
#[tactic(auto, using(crate::proofs::Numbers::number_steps))]
fn sign_end(s: &[u8], at: usize) -> usize
    requires { at ≤ length s.now }
    ensures within { (at ≤ result) × (result ≤ length s.now) }
    ensures value { result ≡ at + sign_len (drop at s.now) }
{
    if matches!(byte_at(s, at), b'+' | b'-') {
        at + 1
    } else {
        at
    }
}

/// Behind the digits from `from` on, or `at` where no digit stands there.
#[tactic(auto, using(crate::proofs::Numbers::number_steps))]
fn with_digits(s: &[u8], at: usize, from: usize) -> usize
    requires order { at ≤ from }
    requires within { from ≤ length s.now }
    ensures within { (at ≤ result) × (result ≤ length s.now) }
    ensures value { result ≡ at + with_digits_of (from - at) (drop at s.now) }
{
    let end = digits_end(s, from);
    if end == from { at } else { end }
}

/// Behind the `.` at the index and its digits, if they stand there.
#[tactic(auto, using(crate::proofs::Numbers::number_steps))]
fn fraction_end(s: &[u8], at: usize) -> usize
    requires { at ≤ length s.now }
    ensures within { (at ≤ result) × (result ≤ length s.now) }
    ensures value { result ≡ at + fraction_len (drop at s.now) }
{
    if byte_at(s, at) == b'.' {
        with_digits(s, at, at + 1)
    } else {
        at
    }
}

/// Behind the exponent at the index, if one stands there.
#[tactic(auto, using(crate::proofs::Numbers::number_steps))]
fn exponent_end(s: &[u8], at: usize) -> usize
    requires { at ≤ length s.now }
    ensures within { (at ≤ result) × (result ≤ length s.now) }
    ensures value { result ≡ at + exponent_len (drop at s.now) }
{
    if matches!(byte_at(s, at), b'e' | b'E') {
        with_digits(s, at, sign_end(s, at + 1))
    } else {
        at
    }
}

/// Behind the number at the start, or 0 where none stands there.
#[tactic(auto, using(crate::proofs::Numbers::number_steps))]
fn number_end(s: &[u8]) -> usize
    ensures within { result ≤ length s.now }
    ensures value { result ≡ number_len s.now }
{
    let start = sign_end(s, 0);
    let end = fraction_end(s, digits_end(s, start));
    if end == start {
        0
    } else {
        exponent_end(s, end)
    }
}

/// The bytes are `%`.
fn is_percent(s: &[u8]) -> bool
    ensures { result ≡ (length s.now == 1 && slice_index s.now 0 == 37) }
{
    s.len() == 1 && s[0] == b'%'
}

/// The bytes are ASCII letters, or none.
fn is_letters(s: &[u8]) -> bool
    ensures { result ≡ list_all is_ascii_alphabetic s.now }
{
    s.iter().all(|b| b.is_ascii_alphabetic())
}

/// The bytes are a unit.
#[tactic(auto, using(crate::proofs::Numbers::number_steps))]
fn is_unit(s: &[u8]) -> bool
    ensures { result ≡ is_unit_of s.now }
{
    is_percent(s) || is_letters(s)
}

/// The number that a word of a value begins with and the unit that is the rest of the word, in bytes of the word; `None`
/// where the word is anything else. Takes no memory.
///
/// A number is an optional sign, digits with an optional fraction or a fraction alone, and an optional exponent, as in CSS;
/// a unit is `%`, ASCII letters, or nothing. An `e` without digits behind it begins the unit.
pub fn number_and_unit(word: &str) -> Option<(Span, Span)>
    ensures { TellsNumber (chars word.now) result }
{
    let s = word.as_bytes();
    let end = number_end(s);
    if end == 0 {
        return None;
    }
    if !is_unit(&s[end..]) {
        return None;
    }
    let number = Span { start: 0, end };
    let unit = Span {
        start: end,
        end: s.len(),
    };
    Some((number, unit))
}
