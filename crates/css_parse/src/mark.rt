// The important mark at the end of a value.
ghost use Rattle.std.specs.Prelude.{◌≡◌, ◌+◌, ◌<◌, ◌==◌, ◌&&◌, not, false, length, drop, slice_index};
ghost use Rattle.std.specs.Str.{chars};
ghost use Rattle.css_text.proofs.Transport.{AllLow};
ghost use Rattle.std.specs.Char.{to_ascii_lowercase};
ghost use Rattle.css_tree.specs.Mark.{is_text as is_text_of, mark_at as mark_at_of};
ghost use Rattle.css_tree.proofs.Split.{mark_of, is_word as is_word_of};
ghost use Rattle.css_parse.specs.Marks.{IsSplit, IsFoundBang, IsFoundMark};

use crate::piece::{Piece, Shape};
use crate::texts::solid_len;

/// A text in two parts.
#[derive(Clone, Copy)]
pub struct Split<'t> {
    pub front: &'t str,
    pub back: &'t str,
}

/// Where a mark begins: in the piece behind so many others, which is cut there.
#[derive(Clone, Copy)]
pub struct Mark<'t> {
    pub before: usize,
    pub word: Split<'t>,
}

fn lower(b: u8) -> u8
    ensures { result ≡ to_ascii_lowercase b }
{
    if b >= b'A' && b <= b'Z' { b + 32 } else { b }
}

/// The text is these letters in any ASCII case. They are in lower case.
fn is_text(letters: &[u8], text: &[u8]) -> bool
    ensures { result ≡ is_text_of letters.now text.now }
{
    if text.len() != letters.len() {
        return false;
    }
    for (i, b) in text.iter().enumerate() {
        if lower(*b) != letters[i] {
            return false;
        }
    }
    true
}

/// At the index stands `!`, which no backslash hides, and then these letters to the end of the text.
fn begins_mark(hidden: bool, letters: &[u8], text: &[u8], i: usize) -> bool
    requires { i < length text.now }
    ensures { result ≡ (not hidden && (slice_index text.now i == 33 && is_text_of letters.now (drop (i + 1) text.now))) }
{
    if hidden || text[i] != b'!' {
        return false;
    }
    is_text(letters, &text[i + 1..])
}

/// A character that may be hidden is a backslash that hides the next one.
fn hides(hidden: bool, b: u8) -> bool
    ensures { result ≡ (not hidden && b == 92) }
{
    !hidden && b == b'\\'
}

/// The byte from which on the text is `!` and these letters, where no backslash hides the `!`.
fn mark_at(letters: &[u8], text: &[u8]) -> Option<usize>
    ensures { result ≡ mark_at_of false letters.now text.now }
{
    let mut hidden = false;
    for (i, b) in text.iter().enumerate() {
        if begins_mark(hidden, letters, text, i) {
            return Some(i);
        }
        hidden = hides(hidden, *b);
    }
    None
}

/// The text in two at its mark with these ASCII letters.
fn split_at_mark<'t>(letters: &[u8], text: &'t str) -> Option<Split<'t>>
    requires { AllLow letters.now }
    ensures { IsSplit result letters.now (chars text.now) }
{
    match mark_at(letters, text.as_bytes()) {
        None => None,
        Some(at) => Some(Split {
            front: &text[..at],
            back: &text[at..],
        }),
    }
}

fn is_word(piece: &Piece) -> bool
    ensures { result ≡ is_word_of piece.now }
{
    matches!(piece.shape(), Shape::Word)
}

/// The `!` at the end of the last of these pieces that isn't blank.
fn find_bang<'t>(pieces: &[Piece<'t>]) -> Option<Mark<'t>>
    ensures { IsFoundBang result pieces.now }
{
    match &pieces[..solid_len(pieces)] {
        [] => None,
        [front @ .., word] => {
            if !is_word(word) {
                return None;
            }
            match split_at_mark(b"", word.text()) {
                None => None,
                Some(split) => Some(Mark {
                    before: front.len(),
                    word: split,
                }),
            }
        }
    }
}

/// The mark at the end of a value with its mark, which ends with no blank.
pub fn find_mark<'t>(body: &[Piece<'t>]) -> Option<Mark<'t>>
    ensures { IsFoundMark result body.now }
{
    match body {
        [] => None,
        [front @ .., last] => {
            if !is_word(last) {
                return None;
            }
            if let Some(split) = split_at_mark(b"important", last.text()) {
                return Some(Mark {
                    before: front.len(),
                    word: split,
                });
            }
            if is_text(b"important", last.text().as_bytes()) {
                find_bang(front)
            } else {
                None
            }
        }
    }
}
