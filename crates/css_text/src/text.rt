// A text, and the places in it.
ghost use Rattle.std.specs.Prelude.{length, ◌≡◌, ◌≤◌, IsOk, encode_utf8_all, vec_len};
ghost use Rattle.std.specs.Str.{chars, IsCharBoundary};
ghost use Rattle.css_text.specs.TextAnswer.{IsTextOf};
ghost use Rattle.css_text.specs.Place.{place_of};
ghost use Rattle.css_text.specs.Ahead.{begins_bom};

use crate::lexer::bom_len;
use crate::stop::{Stop, TextFault};
use crate::txt::Txt;
use crate::{blocks, lines};
use std::alloc::Global;
use std::marker::Model;

/// A place in a text, for people and for source maps. Both numbers count from 1. A column counts UTF-16 units, as in the
/// Source Map revision 3 text, and a byte order mark at the text's start for none.
#[derive(Clone, Copy, PartialEq, Eq, Debug)]
pub struct Place {
    pub line: u32,
    pub column: u32,
}

/// A text of at most 67,108,864 bytes (64 MiB) in UTF-8, with tables for `place`.
///
/// What a clause sees of it is its characters, a byte order mark at its start among them.
#[derive(Drop)]
pub struct Text {
    text: Txt,
    starts: Vec<u32>,
    blocks: Vec<u32>,
}

impl Model for Text {
    ghost use Rattle.std.specs.Prelude.{length, ◌≡◌, ◌≤◌, ℕ, List, encode_utf8_all};
    ghost use Rattle.css_text.specs.Lines.{starts_from};
    ghost use Rattle.css_text.specs.Blocks.{IsBlockTable};

    ghost Value = { List ℕ };

    ghost view = { λ t. t.text };

    ghost invariant = { λ t. (length (encode_utf8_all t.text) ≤ 67108864) × (t.starts.items ≡ starts_from 0 (encode_utf8_all t.text)) × IsBlockTable t.blocks.items (encode_utf8_all t.text) };
}

impl Text {
    /// Takes the bytes as a text.
    ///
    /// # Errors
    ///
    /// `Fault(NotUtf8 { at })` exactly where the bytes aren't UTF-8; `at` counts the bytes before the first wrong sequence,
    /// as Rust's `Utf8Error::valid_up_to`. `Memory` where there is no memory for the tables. The bytes are dropped then.
    #[tactic(auto, using(crate::proofs::Valid::valid_steps))]
    pub fn new(alloc: Global, bytes: Vec<u8>) -> Result<Text, Stop<TextFault>>
        requires { vec_len bytes ≤ 67108864 }
        ensures { IsTextOf bytes.items result }
    {
        let text = match String::from_utf8(bytes) {
            Ok(text) => text,
            Err(error) => {
                let at = error.utf8_error().valid_up_to();
                return Err(Stop::Fault(TextFault::NotUtf8 { at }));
            }
        };
        let starts = match lines::line_starts(alloc, text.as_bytes()) {
            Ok(starts) => starts,
            Err(error) => return Err(Stop::Memory(error)),
        };
        let blocks = match blocks::block_units(alloc, text.as_bytes()) {
            Ok(blocks) => blocks,
            Err(error) => return Err(Stop::Memory(error)),
        };
        match Txt::from_string(alloc, text) {
            Ok(text) => Ok(Text {
                text,
                starts,
                blocks,
            }),
            Err(error) => Err(Stop::Memory(error)),
        }
    }

    /// The text as one whose string other texts can share.
    pub fn as_txt(&self) -> &Txt
        ensures { result.now ≡ self.now }
    {
        &self.text
    }

    /// The text, with a byte order mark where it begins with one.
    pub fn as_str(&self) -> &str
        ensures bytes { result.now ≡ encode_utf8_all self.now }
        ensures characters { chars result.now ≡ self.now }
        ensures short { length result.now ≤ 67108864 }
    {
        self.text.as_str()
    }

    /// Whether the text begins with a byte order mark (U+FEFF).
    pub fn has_bom(&self) -> bool
        ensures { result ≡ begins_bom self.now }
    {
        bom_len(self.text.as_str()) > 0
    }

    /// The place of the character at the byte, or of the text's end. The line is 1 plus the line feeds (LF) before the byte,
    /// the column 1 plus the UTF-16 units since the last of them. It needs a character boundary, takes no memory, and reads
    /// at most 512 bytes of the text, however long the line is.
    pub fn place(&self, byte: u32) -> Place
        requires { IsCharBoundary (encode_utf8_all self.now) byte }
        ensures { result ≡ place_of self.now byte }
    {
        lines::place_in(
            self.text.as_str(),
            self.starts.as_slice(),
            self.blocks.as_slice(),
            byte,
        )
    }
}

#[cfg(test)]
mod tests {
    use super::*;
    use std::test::Fail;

    fn text_of(alloc: Global, bytes: &[u8]) -> Result<Text, Stop<TextFault>>
        requires { length bytes.now ≤ 10000 }
    {
        match bytes.to_vec(alloc) {
            Ok(bytes) => Text::new(alloc, bytes),
            Err(error) => Err(Stop::Memory(error)),
        }
    }

    #[test]
    fn not_utf8(rt: HostRuntime) -> Result<(), Fail> {
        let table: [(&[u8], Option<usize>); 7] = [
            (b"", None),
            (b"\xef\xbb\xbfa", None),
            (b"ab\xff", Some(2)),
            (b"\xe2\x82", Some(0)),
            (b"a\xc0\x80", Some(1)),
            (b"\xed\xa0\x80", Some(0)),
            (b"\xe2\x82\xac\xf4\x90\x80\x80", Some(3)),
        ];
        for (bytes, want) in table {
            assert!(rt; bytes.len() <= 10);
            match text_of(rt.alloc(), bytes) {
                Ok(text) => {
                    assert_eq!(rt; want, None);
                    assert_eq!(rt; text.as_str().as_bytes(), bytes);
                    assert_eq!(rt; text.has_bom(), bytes.len() == 4);
                }
                Err(Stop::Fault(TextFault::NotUtf8 { at })) => assert_eq!(rt; want, Some(at)),
                Err(Stop::Memory(error)) => return Err(error.into()),
            }
        }
        let fault = TextFault::NotUtf8 { at: 1 };
        assert_eq!(rt; format!(in rt.alloc(); "{fault}")?.as_str(), "NotUtf8 at 1");
        let stop: Stop<TextFault> = Stop::Fault(fault);
        assert_eq!(rt;
            format!(in rt.alloc(); "{stop:?}")?.as_str(),
            "Fault(NotUtf8 { at: 1 })"
        );
        Ok(())
    }

    #[test]
    fn places(rt: HostRuntime) -> Result<(), Fail> {
        let short = "a\u{e9}\u{20ac}\u{1d11e}b\r\nc";
        let table: [(&str, u32, u32, u32); 16] = [
            ("", 0, 1, 1),
            (short, 0, 1, 1),
            (short, 1, 1, 2),
            (short, 3, 1, 3),
            (short, 6, 1, 4),
            (short, 10, 1, 6),
            (short, 12, 1, 8),
            (short, 13, 2, 1),
            (short, 14, 2, 2),
            ("\u{feff}a\nb", 0, 1, 1),
            ("\u{feff}a\nb", 3, 1, 1),
            ("\u{feff}a\nb", 4, 1, 2),
            ("\u{feff}a\nb", 5, 2, 1),
            ("\u{feff}\u{feff}a", 6, 1, 2),
            ("\n\n\u{feff}a", 5, 3, 2),
            ("\n\n", 2, 3, 1),
        ];
        for (src, byte, line, column) in table {
            assert!(rt; src.len() <= 100);
            let text = text_of(rt.alloc(), src.as_bytes()).ok().ok_or("a text")?;
            assert!(rt; text.as_str().is_char_boundary(byte as usize));
            assert_eq!(rt;
                text.place(byte),
                Place { line, column },
                "of {byte} in {src}"
            );
        }
        let long = vec![in rt.alloc(); b'a'; 10000]?;
        let text = Text::new(rt.alloc(), long).ok().ok_or("a text")?;
        assert!(rt; text.as_str().is_char_boundary(9000));
        assert_eq!(rt;
            text.place(9000),
            Place {
                line: 1,
                column: 9001
            }
        );
        Ok(())
    }
}
