// How far each form of a part reaches, on the bytes of a value.
ghost use Rattle.std.specs.Prelude.{◌≡◌, ◌+◌, ◌≤◌, ◌<◌, false, drop, length};
ghost use Rattle.css_text.specs.ValueParts.{ends_value as ends_value_of, value_len};
ghost use Rattle.value_parse.specs.Tree.{form_of};
ghost use Rattle.value_parse.specs.Found.{first_at};

use crate::part::ValueKind;
use css_text::scan::{
    begins_comment, begins_url, is_quote, is_single, is_space, spaces_end, through,
    through_comment, unit_end,
};

/// White space, a quote, a parenthesis or one of `, / : ; [ ] { }`: what no Word goes over.
#[tactic(auto, unfolding(css_text::specs::ValueParts::ends_value))]
fn ends_value(b: u8) -> bool
    ensures { result ≡ ends_value_of b }
{
    is_space(b) || is_quote(b) || is_single(b) || b == b'/'
}

/// Where the Word from `from` on ends.
#[tactic(auto, using(crate::proofs::Steps::word_steps))]
fn word_end(s: &[u8], from: usize) -> usize
    requires { from ≤ length s.now }
    ensures within { result ≤ length s.now }
    ensures value { result ≡ from + value_len false (drop from s.now) }
{
    let mut i = from;
    while i < s.len() {
        if ends_value(s[i]) {
            return i;
        }
        i = unit_end(s, i);
    }
    i
}

/// The part at the index, nesting left aside: its kind, and where it ends.
#[tactic(auto, using(crate::proofs::Found::found_steps))]
pub fn part_at(s: &[u8], at: usize) -> (ValueKind, usize)
    requires { at < length s.now }
    ensures within { (at < result.1) × (result.1 ≤ length s.now) }
    ensures value { (form_of result.0, result.1) ≡ first_at at (drop at s.now) }
{
    let c = s[at];
    if is_space(c) {
        (ValueKind::Space, spaces_end(s, at + 1))
    } else if begins_comment(s, at) {
        (
            ValueKind::Comment,
            through_comment(s, at + 2).unwrap_or(s.len()),
        )
    } else if is_quote(c) {
        (ValueKind::Quoted, through(s, at + 1, c).unwrap_or(s.len()))
    } else if begins_url(s, at) {
        (ValueKind::Url, through(s, at + 4, b')').unwrap_or(s.len()))
    } else if ends_value(c) {
        (ValueKind::Mark, at + 1)
    } else {
        (ValueKind::Word, word_end(s, at))
    }
}
