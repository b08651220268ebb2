// Printing selectors.
ghost use Rattle.std.specs.Prelude.{◌≡◌, ◌++◌, IfOk, OnOk};
ghost use Rattle.std.specs.Str.{chars};
ghost use Rattle.std.specs.String.{string_bytes};
ghost use Rattle.selector_parse.specs.Tree.{written, none, tree_of, args_of, part_before};
ghost use Rattle.selector_parse.specs.Row.{complex_parts, comma_unless, list_parts, enclosed};

use crate::part::{Args, Complex, Part, Selectors};
use css_text::txt::Txt;
use std::alloc::{AllocError, Global};

/// Arguments with their parentheses go after what is written.
#[cycle(write)]
fn write_args(text: &mut String, args: &Args) -> Result<(), AllocError>
    ensures { OnOk result (chars (string_bytes text.new)
        ≡ chars (string_bytes text.old) ++ enclosed (args_of args.now)) }
{
    match args {
        Args::Absent => Ok(()),
        Args::Plain(plain) => {
            text.push('(')?;
            text.push_str(plain.as_str())?;
            text.push(')')?;
            Ok(())
        }
        Args::List(inner) => {
            text.push('(')?;
            write_list(text, &inner.list)?;
            text.push(')')?;
            Ok(())
        }
    }
}

/// The text of one part goes after what is written.
#[cycle(write)]
fn write_part(text: &mut String, part: &Part) -> Result<(), AllocError>
    ensures { OnOk result (chars (string_bytes text.new)
        ≡ chars (string_bytes text.old) ++ written (part_before part.now none)) }
{
    text.push_str(part.text.as_str())?;
    write_args(text, &part.args)?;
    Ok(())
}

/// The texts of parts, one after another, go after what is written.
#[cycle(write)]
fn write_parts(text: &mut String, parts: &[Part]) -> Result<(), AllocError>
    ensures { OnOk result (chars (string_bytes text.new)
        ≡ chars (string_bytes text.old) ++ written (complex_parts parts.now)) }
{
    for part in parts {
        write_part(text, part)?;
    }
    Ok(())
}

/// A comma goes after what is written, but before the first.
pub fn write_comma(text: &mut String, is_first: bool) -> Result<(), AllocError>
    ensures { OnOk result (chars (string_bytes text.new)
        ≡ chars (string_bytes text.old) ++ comma_unless is_first) }
{
    if is_first {
        return Ok(());
    }
    text.push(',')?;
    Ok(())
}

/// The texts of complex selectors with commas between them go after what is written.
#[cycle(write)]
fn write_list(text: &mut String, list: &[Complex]) -> Result<(), AllocError>
    ensures { OnOk result (chars (string_bytes text.new)
        ≡ chars (string_bytes text.old) ++ written (list_parts list.now)) }
{
    let mut is_first = true;
    for complex in list {
        write_comma(text, is_first)?;
        write_parts(text, &complex.parts)?;
        is_first = false;
    }
    Ok(())
}

/// The text that selectors make: each part's text in turn, arguments in parentheses, and complex selectors with `,` between
/// them. Of what `parse_selector` gives it is the source. The only error is want of memory.
pub fn print_selectors(alloc: Global, s: &Selectors) -> Result<Txt, AllocError>
    ensures { IfOk result (λ text. text ≡ written (tree_of s.now)) }
{
    let mut text = String::new(alloc);
    write_list(&mut text, &s.list)?;
    Txt::from_string(alloc, text)
}
