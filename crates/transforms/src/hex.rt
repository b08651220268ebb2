// Words that are hexadecimal colours.
ghost use Rattle.std.specs.Prelude.{◌≡◌, ◌≤◌, ◌==◌, ◌++◌, ℕ, [], ◌∷◌, ◌&&◌, ◌||◌, nat_eq, length, MatchOption, OnOk};
ghost use Rattle.std.specs.Str.{chars, IsUtf8};
ghost use Rattle.std.specs.String.{string_bytes};
ghost use Rattle.plugin_api.specs.Effect.{is_hex, short_word};
ghost use Rattle.transforms.specs.Hex.{is_pair, is_paired, firsts};

use crate::texts::{char_count, first_char};
use std::alloc::AllocError;

fn is_hex(c: char) -> bool
    ensures { result ≡ is_hex c }
{
    matches!(c, '0'..='9' | 'A'..='F' | 'a'..='f')
}

fn is_pair(c: char, d: char) -> bool
    ensures { result ≡ is_pair c d }
{
    is_hex(c) && is_hex(d) && c.to_ascii_lowercase() == d.to_ascii_lowercase()
}

fn is_paired(digits: &str) -> bool
    ensures { result ≡ is_paired (chars digits.now) }
{
    let mut rest = digits;
    while let Some((first, behind)) = first_char(rest) {
        match first_char(behind) {
            Some((second, next)) if is_pair(first, second) => rest = next,
            _ => return false,
        }
    }
    true
}

// Six or eight digits in equal pairs.
fn is_long(digits: &str) -> bool
    ensures { result ≡ ((nat_eq (length (chars digits.now)) 6 || nat_eq (length (chars digits.now)) 8) && is_paired (chars digits.now)) }
{
    matches!(char_count(digits), 6 | 8) && is_paired(digits)
}

fn is_long_word(first: char, digits: &str) -> bool
    ensures { result ≡ (first == 35 && ((nat_eq (length (chars digits.now)) 6 || nat_eq (length (chars digits.now)) 8) && is_paired (chars digits.now))) }
{
    first == '#' && is_long(digits)
}

// The digits of a word that is shortened.
#[tactic(auto, using(crate::proofs::Shorts::word_steps))]
fn long_digits(word: &str) -> Option<&str>
    ensures { MatchOption result (short_word (chars word.now) ≡ chars word.now) (λ d. short_word (chars word.now) ≡ 35 ∷ firsts (chars d.now)) }
{
    let (first, digits) = first_char(word)?;
    if is_long_word(first, digits) {
        Some(digits)
    } else {
        None
    }
}

fn push_char(text: &mut String, c: char) -> Result<(), AllocError>
    ensures { OnOk result (chars (string_bytes text.new) ≡ chars (string_bytes text.old) ++ c ∷ []) }
{
    text.push(c)?;
    Ok(())
}

// Behind the second character, or the end.
fn behind_pair(behind: &str) -> &str
    ensures firsts { (c : ℕ) → firsts (c ∷ chars behind.now) ≡ c ∷ firsts (chars result.now) }
    ensures utf8 { IsUtf8 result.now }
    ensures shorter { length (chars result.now) ≤ length (chars behind.now) }
{
    match first_char(behind) {
        Some((_, next)) => next,
        None => behind,
    }
}

fn push_firsts(text: &mut String, digits: &str) -> Result<(), AllocError>
    ensures { OnOk result (chars (string_bytes text.new) ≡ chars (string_bytes text.old) ++ firsts (chars digits.now)) }
{
    let mut rest = digits;
    while let Some((first, behind)) = first_char(rest) {
        push_char(text, first)?;
        rest = behind_pair(behind);
    }
    Ok(())
}

// The word goes behind what is written, shortened where it is a long hexadecimal colour.
pub(crate) fn push_word(text: &mut String, word: &str) -> Result<(), AllocError>
    ensures { OnOk result (chars (string_bytes text.new) ≡ chars (string_bytes text.old) ++ short_word (chars word.now)) }
{
    match long_digits(word) {
        Some(digits) => {
            text.push('#')?;
            push_firsts(text, digits)
        }
        None => text.push_str(word),
    }
}
