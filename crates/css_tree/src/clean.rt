// A text without its comments.
ghost use Rattle.std.specs.Prelude.{◌≡◌, ◌≤◌, ◌-◌, ◌++◌, take, drop, IfOk, OnOk, encode_utf8_all};
ghost use Rattle.std.specs.Str.{chars, IsCharBoundary};
ghost use Rattle.std.specs.String.{string_bytes};
ghost use Rattle.css_tree.specs.Clean.{clean_of, kept};

use css_text::lexer::{Lexer, Piece, PieceKind, bom_len};
use css_text::txt::Txt;
use std::alloc::{AllocError, Global};

/// Adds the piece, unless it is a comment.
#[tactic(auto, using(crate::proofs::Cleaning::kept_other))]
fn push_kept(out: &mut String, src: &str, piece: Piece) -> Result<(), AllocError>
    requires order { piece.span.start ≤ piece.span.end }
    requires start { IsCharBoundary src.now piece.span.start }
    requires end { IsCharBoundary src.now piece.span.end }
    ensures { OnOk result (string_bytes out.new ≡ string_bytes out.old ++ kept piece.kind (take (piece.span.end - piece.span.start) (drop piece.span.start src.now))) }
{
    match piece.kind {
        PieceKind::Comment => Ok(()),
        _ => out.push_str(&src[piece.span.start..piece.span.end]),
    }
}

/// Adds what follows the place.
fn with_rest(mut out: String, src: &str, from: usize) -> Result<String, AllocError>
    requires { IsCharBoundary src.now from }
    ensures { IfOk result (λ t. string_bytes t ≡ string_bytes out ++ drop from src.now) }
{
    out.push_str(&src[from..])?;
    Ok(out)
}

/// The text without its comments, as a string.
fn cleaned(alloc: Global, src: &str) -> Result<String, AllocError>
    ensures { IfOk result (λ t. string_bytes t ≡ encode_utf8_all (clean_of (chars src.now))) }
{
    let mut out = String::new(alloc);
    let mut lexer = Lexer::over(src);
    let mut done = bom_len(src);
    out.push_str(&src[..done])?;
    'pieces: loop {
        match lexer.next() {
            Ok(Some(piece)) => {
                push_kept(&mut out, src, piece)?;
                done = piece.span.end;
            }
            Ok(None) => return with_rest(out, src, done),
            Err(_) => return with_rest(out, src, done),
        }
    }
}

/// The text without its comments. A byte order mark at its start is kept, and from a comment, string or `url(` without
/// its end on the rest stays as it is. The only error is want of memory.
pub fn clean(alloc: Global, src: &str) -> Result<Txt, AllocError>
    ensures { IfOk result (λ t. t ≡ clean_of (chars src.now)) }
{
    let text = cleaned(alloc, src)?;
    Txt::from_string(alloc, text)
}

/// The same of a text, whose string it shares where the text has no comment.
pub fn clean_text(alloc: Global, source: &Txt) -> Result<Txt, AllocError>
    ensures { IfOk result (λ t. t ≡ clean_of source.now) }
{
    // A text without a star has no comment.
    if !source.as_str().as_bytes().contains(&b'*') {
        return source.share();
    }
    clean(alloc, source.as_str())
}

#[cfg(test)]
mod tests {
    use super::*;

    #[test]
    fn cleans(rt: HostRuntime) -> Result<(), AllocError> {
        let table = [
            ("", ""),
            ("a/*x*/b", "ab"),
            ("a/*", "a/*"),
            ("/*a*//**/", ""),
            ("/*a*/b\"/*c*/\"/*d", "b\"/*c*/\"/*d"),
            ("url(/*a*/)/*b*/ url( \"\"/*c*/)", "url(/*a*/) url( \"\")"),
            (
                "\u{feff}/*a*/\u{feff}\u{1f600}",
                "\u{feff}\u{feff}\u{1f600}",
            ),
            ("1/**/2 \\/*3*/", "12 \\/*3*/"),
        ];
        for (src, want) in table {
            assert_eq!(rt; clean(rt.alloc(), src)?.as_str(), want);
            let text = Txt::new(rt.alloc(), src)?;
            assert_eq!(rt; clean_text(rt.alloc(), &text)?.as_str(), want);
        }
        Ok(())
    }
}
