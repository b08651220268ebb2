// The normal form of selectors.
ghost use Rattle.std.specs.Prelude.{◌≡◌, ◌==◌, ◌||◌, ◌++◌, ◌∷◌, [], IfOk, OnOk, true, map, length};
ghost use Rattle.std.specs.Str.{chars};
ghost use Rattle.std.specs.String.{string_bytes};
ghost use Rattle.selector_parse.specs.Forms.{is_symbol as is_symbol_of};
ghost use Rattle.selector_parse.specs.Row.{comma_unless};
ghost use Rattle.selector_parse.specs.Reading.{is_between as is_between_of, read_sign};
ghost use Rattle.selector_parse.specs.Normal.{IsNormal, all_of, joined, normal_of_args, normal_of_part, normal_of_complex, normal_bytes};

use crate::part::{Args, Complex, Part, PartKind, Selectors};
use crate::print::write_comma;
use crate::reading::{Gap, Reading, is_symbol};
use css_text::txt::Txt;
use std::alloc::{AllocError, Global};

fn is_between(reading: Reading) -> bool
    ensures { result ≡ is_between_of reading }
{
    matches!(reading, Reading::Blank(_))
}

/// The sign of a combinator, on its bytes; a space where it has none.
fn sign(s: &[u8]) -> u8
    ensures value { result ≡ read_sign s.now }
    ensures known { (result == 32 || is_symbol_of result) ≡ true }
{
    let mut reading = Reading::Blank(Gap::Comments);
    for b in s {
        if is_between(reading) && is_symbol(*b) {
            return *b;
        }
        match reading.step(*b) {
            None => return b' ',
            Some(next) => reading = next,
        }
    }
    b' '
}

/// A combinator's normal form goes after what is written.
fn write_sign(text: &mut String, sign: u8) -> Result<(), AllocError>
    requires { (sign == 32 || is_symbol_of sign) ≡ true }
    ensures { OnOk result (chars (string_bytes text.new)
        ≡ chars (string_bytes text.old) ++ sign ∷ []) }
{
    text.push(sign as char)?;
    Ok(())
}

/// Arguments in normal form go after what is written.
#[cycle(normal)]
fn write_args(text: &mut String, args: &Args) -> Result<(), AllocError>
    ensures { OnOk result (chars (string_bytes text.new)
        ≡ chars (string_bytes text.old) ++ normal_of_args args.now) }
{
    match args {
        Args::Absent => Ok(()),
        Args::Plain(plain) => {
            text.push('(')?;
            text.push_str(plain.as_str())?;
            text.push(')')?;
            Ok(())
        }
        Args::List(inner) => {
            text.push('(')?;
            write_list(text, &inner.list)?;
            text.push(')')?;
            Ok(())
        }
    }
}

/// A part in normal form goes after what is written.
#[cycle(normal)]
fn write_part(text: &mut String, part: &Part) -> Result<(), AllocError>
    ensures { OnOk result (chars (string_bytes text.new)
        ≡ chars (string_bytes text.old) ++ normal_of_part part.now) }
{
    match part.kind {
        PartKind::Blank | PartKind::Comment => Ok(()),
        PartKind::Combinator => {
            write_sign(text, sign(part.text.as_str().as_bytes()))?;
            Ok(())
        }
        _ => {
            text.push_str(part.text.as_str())?;
            write_args(text, &part.args)?;
            Ok(())
        }
    }
}

/// Parts in normal form, one after another, go after what is written.
#[cycle(normal)]
fn write_parts(text: &mut String, parts: &[Part]) -> Result<(), AllocError>
    ensures { OnOk result (chars (string_bytes text.new)
        ≡ chars (string_bytes text.old) ++ all_of (map normal_of_part parts.now)) }
{
    for part in parts {
        write_part(text, part)?;
    }
    Ok(())
}

/// Complex selectors in normal form with commas between them go after what is written.
#[cycle(normal)]
fn write_list(text: &mut String, list: &[Complex]) -> Result<(), AllocError>
    ensures { OnOk result (chars (string_bytes text.new)
        ≡ chars (string_bytes text.old) ++ joined (map normal_of_complex list.now)) }
{
    let mut is_first = true;
    for complex in list {
        write_comma(text, is_first)?;
        write_parts(text, &complex.parts)?;
        is_first = false;
    }
    Ok(())
}

/// The normal forms of complex selectors.
fn normal_texts(alloc: Global, list: &[Complex]) -> Result<Vec<String>, AllocError>
    ensures { IfOk result (λ texts. map string_bytes texts.items ≡ map normal_bytes list.now) }
{
    let mut texts = Vec::new(alloc);
    for complex in list {
        let mut text = String::new(alloc);
        write_parts(&mut text, &complex.parts)?;
        texts.push(text)?;
    }
    Ok(texts)
}

/// Texts with commas between them.
fn join(alloc: Global, texts: &[String]) -> Result<String, AllocError>
    ensures { IfOk result (λ text. string_bytes text ≡ joined (map string_bytes texts.now)) }
{
    let mut joint = String::new(alloc);
    let mut is_first = true;
    for text in texts {
        write_comma(&mut joint, is_first)?;
        joint.push_str(text.as_str())?;
        is_first = false;
    }
    Ok(joint)
}

/// The normal form of selectors, in which lists that differ in blanks, comments and order alone are one: each complex selector
/// without Blank and Comment parts, a combinator as one space or its sign, and lists of arguments in the same way but in their
/// own order; then the texts sorted by their bytes and joined by `,`. The only error is want of memory.
pub fn normalised(alloc: Global, s: &Selectors) -> Result<Txt, AllocError>
    ensures { IfOk result (λ text. IsNormal s.now text) }
{
    let mut texts = normal_texts(alloc, &s.list)?;
    texts.sort()?;
    let text = join(alloc, texts.as_slice())?;
    Txt::from_string(alloc, text)
}
