// The pieces of a text, one per call.
ghost use Rattle.std.specs.Prelude.{◌≡◌, ◌+◌, ◌≤◌, ◌<◌, drop, length, IfOk, IfSome};
ghost use Rattle.css_text.specs.Found.{first_at};
ghost use Rattle.css_text.specs.Ahead.{ahead, next_of, rest_of, behind, end_or, pieces, bom_len as bom_len_of};
ghost use Rattle.std.specs.Str.{chars};

use crate::scan;
use crate::text::Text;
use std::marker::Model;

/// The forms of pieces. At each place the first form of this order that fits is taken: `Space`, `Comment`, `Quoted`,
/// `Url`, `AtWord`, `Single`, `Word`. The forms are csswork's own, near to the tokens of PostCSS.
///
/// A word unit is a backslash with the character after it, a backslash at the text's end, or any character that isn't
/// white space, a quote, a Single, `@`, a backslash, or a `/` with a `*` after it.
#[derive(Clone, Copy, PartialEq, Eq, Debug)]
pub enum PieceKind {
    /// The longest run of space, tab, LF, CR and FF.
    Space,
    /// From `/*` through the first `*/` after it. `/*/` has no end.
    Comment,
    /// From `"` or `'` through the next equal quote that no backslash hides. Line breaks are allowed.
    Quoted,
    /// From `url(` in any ASCII case through the first `)` that no backslash hides, where the first character after the
    /// parenthesis and white space isn't a quote, or there is none.
    Url,
    /// `@` and the longest run of word units, perhaps none.
    AtWord,
    /// The longest run of word units, at least one.
    Word,
    /// One of `{ } ( ) [ ] : ; ,`.
    Single,
}

/// A part of a text, in bytes from the text's start: from the byte `start` up to the byte `end`.
#[derive(Clone, Copy, PartialEq, Eq, Debug)]
pub struct Span {
    pub start: usize,
    pub end: usize,
}

/// A piece: its form, and where it stands. A text may be cut at both ends of the span.
#[derive(Clone, Copy, PartialEq, Eq, Debug)]
pub struct Piece {
    pub kind: PieceKind,
    pub span: Span,
}

/// A `Quoted`, `Comment` or `Url` without its end. `at` is its first byte, counted from the text's start.
#[derive(Clone, Copy, PartialEq, Eq, Debug)]
pub enum LexFault {
    UnclosedString { at: usize },
    UnclosedComment { at: usize },
    UnclosedUrl { at: usize },
}

/// The piece at the index: its kind, and where it ends.
#[tactic(auto, using(crate::proofs::Found::found_steps))]
#[inline(always)]
fn piece_at(s: &[u8], at: usize) -> Result<(PieceKind, usize), LexFault>
    requires { at < length s.now }
    ensures within { IfOk result (λ p. (at < p.1) × (p.1 ≤ length s.now)) }
    ensures value { result ≡ first_at at (drop at s.now) }
{
    let c = s[at];
    if scan::is_space(c) {
        Ok((PieceKind::Space, scan::spaces_end(s, at + 1)))
    } else if scan::begins_comment(s, at) {
        match scan::through_comment(s, at + 2) {
            Some(end) => Ok((PieceKind::Comment, end)),
            None => Err(LexFault::UnclosedComment { at }),
        }
    } else if scan::is_quote(c) {
        match scan::through(s, at + 1, c) {
            Some(end) => Ok((PieceKind::Quoted, end)),
            None => Err(LexFault::UnclosedString { at }),
        }
    } else if scan::begins_url(s, at) {
        match scan::through(s, at + 4, b')') {
            Some(end) => Ok((PieceKind::Url, end)),
            None => Err(LexFault::UnclosedUrl { at }),
        }
    } else if c == b'@' {
        Ok((PieceKind::AtWord, scan::units_end(s, at + 1)))
    } else if scan::is_single(c) {
        Ok((PieceKind::Single, at + 1))
    } else {
        Ok((PieceKind::Word, scan::units_end(s, at)))
    }
}

/// How many bytes the byte order mark (U+FEFF) at the start of the text takes: 3, or 0 where there is none.
pub fn bom_len(s: &str) -> usize
    ensures { result ≡ bom_len_of (chars s.now) }
{
    match s.chars().next() {
        Some('\u{feff}') => 3,
        _ => 0,
    }
}

/// The next piece of a text at one of its bytes, counted from its start; `None` behind the last. A caller that goes on behind the piece's
/// end reads all pieces, as a [`Lexer`] does, and one that knows what stands ahead may go on behind it.
///
/// # Errors
///
/// A `LexFault` exactly where the first form that fits has no end.
#[tactic(auto, using(crate::proofs::Ahead::ahead_steps))]
#[inline(always)]
pub fn next_at(bytes: &[u8], at: usize) -> Result<Option<Piece>, LexFault>
    requires { at ≤ length bytes.now }
    ensures answer { result ≡ next_of (ahead at (drop at bytes.now)).pieces (ahead at (drop at bytes.now)).fault }
    ensures within { IfOk result (λ p. IfSome p (λ p. p.span.end ≤ length bytes.now)) }
    ensures rest { IfOk result (λ p. ahead (end_or at p) (drop (end_or at p) bytes.now) ≡ behind (ahead at (drop at bytes.now))) }
{
    if at >= bytes.len() {
        return Ok(None);
    }
    let (kind, end) = piece_at(bytes, at)?;
    Ok(Some(Piece {
        kind,
        span: Span { start: at, end },
    }))
}

/// Reads a text piece by piece, in one pass over its bytes. No call takes memory.
///
/// What a clause sees of it is what is still to come: the pieces, and the fault after them if there is one.
#[derive(Drop)]
pub struct Lexer<'t> {
    bytes: &'t [u8],
    at: usize,
    fault: Option<LexFault>,
}

impl<'t> Model for Lexer<'t> {
    ghost use Rattle.std.specs.Prelude.{◌≤◌, length, drop};
    ghost use Rattle.css_text.specs.Ahead.{Ahead, ahead, met};

    ghost Value = { Ahead };

    ghost view = { λ l. met l.fault (ahead l.at (drop l.at l.bytes.now)) };

    ghost invariant = { λ l. l.at ≤ length l.bytes.now };
}

impl<'t> Lexer<'t> {
    /// Reads a text from its start. A byte order mark there is in no piece; one inside the text is a word's character.
    pub fn new(text: &'t Text) -> Lexer<'t>
        ensures { result ≡ pieces text.now }
    {
        Lexer::over(text.as_str())
    }

    /// The same of a `str`, which may have any length.
    #[tactic(auto, using(crate::proofs::Start::start_steps))]
    pub fn over(src: &'t str) -> Lexer<'t>
        ensures { result ≡ pieces (chars src.now) }
    {
        let at = bom_len(src);
        Lexer {
            bytes: src.as_bytes(),
            at,
            fault: None,
        }
    }

    /// The next piece. After the last piece the answer is `None` again and again. Where a piece has no end it is the
    /// fault, again and again, and the rest of the text isn't read again.
    ///
    /// # Errors
    ///
    /// A `LexFault` exactly where the first form that fits has no end.
    #[tactic(auto, using(crate::proofs::Ahead::ahead_steps))]
    #[inline(always)]
    pub fn next(&mut self) -> Result<Option<Piece>, LexFault>
        ensures answer { result ≡ next_of self.old.pieces self.old.fault }
        ensures rest { self.new ≡ record self.old { pieces = rest_of self.old.pieces } }
    {
        if let Some(fault) = self.fault {
            return Err(fault);
        }
        match next_at(self.bytes, self.at) {
            Ok(Some(piece)) => {
                self.at = piece.span.end;
                Ok(Some(piece))
            }
            Ok(None) => Ok(None),
            Err(fault) => {
                self.fault = Some(fault);
                Err(fault)
            }
        }
    }
}

#[cfg(test)]
mod tests {
    use super::*;
    use LexFault::{UnclosedComment, UnclosedString, UnclosedUrl};
    use PieceKind::{AtWord, Comment, Quoted, Single, Space, Url, Word};
    use std::process::Abort;
    use std::test::Fail;

    // The pieces of the text are these, each with its end, and then the answer is this one, twice.
    fn reads(
        rt: &impl Abort,
        src: &str,
        want: &[(PieceKind, usize)],
        last: Option<LexFault>,
    ) -> Result<(), Fail> {
        let mut lexer = Lexer::over(src);
        let mut start = bom_len(src);
        for (kind, end) in want {
            let piece = lexer.next().ok().flatten().ok_or("a piece")?;
            let span = Span { start, end: *end };
            assert_eq!(rt; piece, Piece { kind: *kind, span }, "in {src}");
            start = *end;
        }
        for _again in 0..2 {
            match lexer.next() {
                Ok(piece) => assert_eq!(rt; (piece, last), (None, None), "in {src}"),
                Err(fault) => assert_eq!(rt; Some(fault), last, "in {src}"),
            }
        }
        Ok(())
    }

    #[test]
    fn pieces_of_texts(rt: HostRuntime) -> Result<(), Fail> {
        let table: [(&str, &[(PieceKind, usize)], Option<LexFault>); 40] = [
            ("", &[], None),
            (" \t\n\r\x0c", &[(Space, 5)], None),
            (
                "{}()[]:;,",
                &[
                    (Single, 1),
                    (Single, 2),
                    (Single, 3),
                    (Single, 4),
                    (Single, 5),
                    (Single, 6),
                    (Single, 7),
                    (Single, 8),
                    (Single, 9),
                ],
                None,
            ),
            ("a/b/*c*/d", &[(Word, 3), (Comment, 8), (Word, 9)], None),
            ("/**/*/", &[(Comment, 4), (Word, 6)], None),
            ("/ *", &[(Word, 1), (Space, 2), (Word, 3)], None),
            ("a//", &[(Word, 3)], None),
            ("\"a'b\"'c\"\nd'", &[(Quoted, 5), (Quoted, 11)], None),
            ("'a\\'b'c", &[(Quoted, 6), (Word, 7)], None),
            ("'a\\\\'b", &[(Quoted, 5), (Word, 6)], None),
            ("url(a b\\)c)d", &[(Url, 11), (Word, 12)], None),
            ("URL( a)", &[(Url, 7)], None),
            ("uRl( a/*)*/", &[(Url, 9), (Word, 11)], None),
            ("url()", &[(Url, 5)], None),
            (
                "url( 'a')",
                &[(Word, 3), (Single, 4), (Space, 5), (Quoted, 8), (Single, 9)],
                None,
            ),
            (
                "url(\"a\")",
                &[(Word, 3), (Single, 4), (Quoted, 7), (Single, 8)],
                None,
            ),
            (
                "my-url(x)",
                &[(Word, 6), (Single, 7), (Word, 8), (Single, 9)],
                None,
            ),
            (
                "url (x)",
                &[(Word, 3), (Space, 4), (Single, 5), (Word, 6), (Single, 7)],
                None,
            ),
            (
                "u\\rl(x)",
                &[(Word, 4), (Single, 5), (Word, 6), (Single, 7)],
                None,
            ),
            ("@media", &[(AtWord, 6)], None),
            ("@", &[(AtWord, 1)], None),
            ("@@a@", &[(AtWord, 1), (AtWord, 3), (AtWord, 4)], None),
            ("@a\\{b c", &[(AtWord, 5), (Space, 6), (Word, 7)], None),
            ("a@b", &[(Word, 1), (AtWord, 3)], None),
            ("a\\ b", &[(Word, 4)], None),
            ("\\{\\\n;", &[(Word, 4), (Single, 5)], None),
            ("\\\\;", &[(Word, 2), (Single, 3)], None),
            ("a\\", &[(Word, 2)], None),
            ("\\", &[(Word, 1)], None),
            ("@\\", &[(AtWord, 2)], None),
            ("\u{feff}a", &[(Word, 4)], None),
            (
                "\u{feff}\u{feff} a\u{feff}b",
                &[(Word, 6), (Space, 7), (Word, 12)],
                None,
            ),
            (
                "\u{1f600}b'\u{1f600}'\\\u{1f600}{",
                &[(Word, 5), (Quoted, 11), (Word, 16), (Single, 17)],
                None,
            ),
            ("a'b", &[(Word, 1)], Some(UnclosedString { at: 1 })),
            ("'a\\'", &[], Some(UnclosedString { at: 0 })),
            ("\"a'", &[], Some(UnclosedString { at: 0 })),
            ("a/*/ b", &[(Word, 1)], Some(UnclosedComment { at: 1 })),
            (
                "\u{feff}:url(a\\)",
                &[(Single, 4)],
                Some(UnclosedUrl { at: 4 }),
            ),
            ("url(", &[], Some(UnclosedUrl { at: 0 })),
            (
                "url( \"",
                &[(Word, 3), (Single, 4), (Space, 5)],
                Some(UnclosedString { at: 5 }),
            ),
        ];
        for (src, want, last) in table {
            reads(&rt, src, want, last)?;
        }
        Ok(())
    }
}
