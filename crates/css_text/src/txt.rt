// The project's own text type.
ghost use Rattle.std.specs.Prelude.{◌≡◌, IfOk, encode_utf8_all};
ghost use Rattle.std.specs.Str.{chars};
ghost use Rattle.std.specs.String.{string_bytes};
ghost use Rattle.css_text.specs.Shared.{part, IsPart};

use std::alloc::{AllocError, Global};
use std::marker::Model;
use std::rc::Rc;

/// The project's own text type: what a clause sees of it is the list of its characters, also inside other types.
///
/// A text is a part of a string that several texts may share, so that the texts of a sheet's nodes need no memory of their own.
/// The string has at most 4,294,967,295 bytes: a longer one counts as want of memory.
pub struct Txt {
    whole: Rc<String>,
    start: u32,
    end: u32,
}

impl Model for Txt {
    ghost use Rattle.std.specs.Prelude.{ℕ, List};
    ghost use Rattle.std.specs.Str.{chars};
    ghost use Rattle.std.specs.String.{string_bytes};
    ghost use Rattle.std.specs.Rc.{rc_value};
    ghost use Rattle.css_text.specs.Shared.{part, IsPart};

    ghost Value = { List ℕ };

    ghost view = { λ t. chars (part (string_bytes (rc_value t.whole)) t.start t.end) };

    ghost invariant = { λ t. IsPart (string_bytes (rc_value t.whole)) t.start t.end };
}

impl Drop for Txt {
    fn drop(self) {
        let Txt {
            whole: _,
            start: _,
            end: _,
        } = self;
    }
}

impl Txt {
    /// A copy of the text. Its only error is want of memory.
    pub fn new(alloc: Global, s: &str) -> Result<Txt, AllocError>
        ensures { IfOk result (λ t. t ≡ chars s.now) }
    {
        Txt::from_string(alloc, String::from_str(alloc, s)?)
    }

    /// The text that a string holds, which is moved and not copied. Its only error is want of memory.
    pub fn from_string(alloc: Global, text: String) -> Result<Txt, AllocError>
        ensures { IfOk result (λ t. t ≡ chars (string_bytes text)) }
    {
        let Ok(end) = u32::try_from(text.len()) else {
            return Err(AllocError);
        };
        match Rc::new(alloc, text) {
            Ok(whole) => Ok(Txt {
                whole,
                start: 0,
                end,
            }),
            Err(_) => Err(AllocError),
        }
    }

    /// The same text, of the same string. Its only error is want of memory.
    pub fn share(&self) -> Result<Txt, AllocError>
        ensures { IfOk result (λ t. t ≡ self.now) }
    {
        Ok(Txt {
            whole: self.whole.clone()?,
            start: self.start,
            end: self.end,
        })
    }

    /// The part of this text from one byte up to another, both counted from its start; it shares the string. Its only error is
    /// want of memory.
    #[inline(always)]
    pub fn part(&self, start: u32, end: u32) -> Result<Txt, AllocError>
        requires { IsPart (encode_utf8_all self.now) start end }
        ensures { IfOk result (λ t. t ≡ chars (part (encode_utf8_all self.now) start end)) }
    {
        prove!(self.start <= self.end);
        Ok(Txt {
            whole: self.whole.clone()?,
            start: self.start + start,
            end: self.start + end,
        })
    }

    /// The text.
    pub fn as_str(&self) -> &str
        ensures bytes { result.now ≡ encode_utf8_all self.now }
        ensures characters { chars result.now ≡ self.now }
    {
        &self.whole.as_str()[self.start as usize..self.end as usize]
    }
}

#[cfg(test)]
mod tests {
    use super::*;
    use std::test::Fail;

    #[test]
    fn copies(rt: HostRuntime) -> Result<(), Fail> {
        for src in ["", "\u{feff}a\u{20ac}\u{1f600}"] {
            assert_eq!(rt; Txt::new(rt.alloc(), src)?.as_str(), src);
        }
        Ok(())
    }

    #[test]
    fn parts(rt: HostRuntime) -> Result<(), Fail> {
        let whole = Txt::new(rt.alloc(), "a{b:\u{20ac}}")?;
        for (start, end, s) in [(0, 1, "a"), (2, 7, "b:\u{20ac}"), (8, 8, "")] {
            assert!(rt; start <= end);
            assert!(rt; whole.as_str().is_char_boundary(start as usize));
            assert!(rt; whole.as_str().is_char_boundary(end as usize));
            assert_eq!(rt; whole.part(start, end)?.as_str(), s);
        }
        Ok(())
    }
}
