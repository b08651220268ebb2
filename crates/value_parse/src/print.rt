// Printing a value.
ghost use Rattle.std.specs.Prelude.{◌≡◌, ◌++◌, IfOk, OnOk};
ghost use Rattle.std.specs.Str.{chars};
ghost use Rattle.std.specs.String.{string_bytes};
ghost use Rattle.css_text.specs.ValueParts.{written, none};
ghost use Rattle.value_parse.specs.Tree.{form_of, is_function as is_function_of, before, parts_of};

use crate::part::{ValueKind, ValuePart};
use css_text::txt::Txt;
use std::alloc::{AllocError, Global};

/// The part is a Function.
fn is_function(kind: ValueKind) -> bool
    ensures { result ≡ is_function_of (form_of kind) }
{
    match kind {
        ValueKind::Function => true,
        _ => false,
    }
}

/// The text of one part goes behind what is written.
#[cycle(write)]
fn write_part(text: &mut String, part: &ValuePart) -> Result<(), AllocError>
    ensures { OnOk result (chars (string_bytes text.new)
        ≡ chars (string_bytes text.old) ++ written (before part.now none)) }
{
    text.push_str(part.text.as_str())?;
    if !is_function(part.kind) {
        return Ok(());
    }
    text.push('(')?;
    write_parts(text, &part.inner)?;
    if !part.closed {
        return Ok(());
    }
    text.push(')')?;
    Ok(())
}

/// The texts of parts, one after another, go behind what is written.
#[cycle(write)]
fn write_parts(text: &mut String, parts: &[ValuePart]) -> Result<(), AllocError>
    ensures { OnOk result (chars (string_bytes text.new)
        ≡ chars (string_bytes text.old) ++ written (parts_of parts.now)) }
{
    for part in parts {
        write_part(text, part)?;
    }
    Ok(())
}

/// The text that parts make: each part's text in turn, and a Function as its name, `(`, the parts inside it and, where it is
/// closed, `)`. Of what `parse_value` gives it is the source. The only error is want of memory.
pub fn print_value(alloc: Global, parts: &[ValuePart]) -> Result<Txt, AllocError>
    ensures { IfOk result (λ text. text ≡ written (parts_of parts.now)) }
{
    let mut text = String::new(alloc);
    write_parts(&mut text, parts)?;
    Txt::from_string(alloc, text)
}
