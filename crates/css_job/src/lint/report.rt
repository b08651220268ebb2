// The report on warnings.
ghost use Rattle.std.specs.Prelude.{◌≡◌, ◌≤◌, ◌-◌, ◌++◌, IfOk, OnOk, map, count_by, string_bytes, encode_utf8_all};
ghost use Rattle.std.specs.Str.{chars};
ghost use Rattle.std.specs.List.{flat_map};
ghost use Rattle.css_job.specs.Report.{is_error, place_text, warning_line, counted, total_line, report};
ghost use Rattle.css_job.specs.LintPlan.{lint_status};
ghost use Rattle.css_job.specs.Shown.{warning_seen};

use crate::lint::warning::Warning;
use css_text::text::Place;
use std::alloc::{AllocError, Global};

/// How many of the warnings are errors.
fn error_count(warnings: &[Warning]) -> usize
    ensures { result ≡ count_by is_error (map warning_seen warnings.now) }
{
    let mut count = 0;
    for warning in warnings {
        if warning.severity.is_error() {
            count += 1;
        }
    }
    count
}

/// The status of `lint` after these warnings: 2, or 0 where none of them is an error.
pub fn lint_status(warnings: &[Warning]) -> u8
    ensures { result ≡ lint_status (map warning_seen warnings.now) }
{
    if error_count(warnings) == 0 { 0 } else { 2 }
}

fn push_text(to: &mut String, text: &str) -> Result<(), AllocError>
    ensures { OnOk result (string_bytes to.new ≡ string_bytes to.old ++ encode_utf8_all (chars text.now)) }
{
    to.push_str(text)?;
    Ok(())
}

fn push_place(to: &mut String, place: Place) -> Result<(), AllocError>
    ensures { OnOk result (string_bytes to.new ≡ string_bytes to.old ++ place_text place) }
{
    let Place { line, column } = place;
    write!(to, "  {line}:{column}")?;
    Ok(())
}

fn push_warning(to: &mut String, warning: &Warning) -> Result<(), AllocError>
    ensures { OnOk result (string_bytes to.new ≡ string_bytes to.old ++ warning_line (warning_seen warning.now)) }
{
    push_place(to, warning.place)?;
    to.push_str("  ")?;
    to.push_str(warning.severity.name())?;
    to.push_str("  ")?;
    push_text(to, warning.text)?;
    to.push_str("  ")?;
    push_text(to, warning.rule)?;
    to.push_str("\n")?;
    Ok(())
}

fn push_warnings(to: &mut String, warnings: &[Warning]) -> Result<(), AllocError>
    ensures { OnOk result (string_bytes to.new ≡ string_bytes to.old ++ flat_map warning_line (map warning_seen warnings.now)) }
{
    for warning in warnings {
        push_warning(to, warning)?;
    }
    Ok(())
}

/// So many of these, in the singular at 1.
fn push_counted(to: &mut String, n: usize, things: &str) -> Result<(), AllocError>
    ensures { OnOk result (string_bytes to.new ≡ string_bytes to.old ++ counted n things.now) }
{
    let ending = if n == 1 { "" } else { "s" };
    write!(to, "{n} {things}{ending}")?;
    Ok(())
}

fn push_total(to: &mut String, problems: usize, errors: usize) -> Result<(), AllocError>
    requires { errors ≤ problems }
    ensures { OnOk result (string_bytes to.new ≡ string_bytes to.old ++ total_line problems errors (problems - errors)) }
{
    push_counted(to, problems, "problem")?;
    to.push_str(" (")?;
    push_counted(to, errors, "error")?;
    to.push_str(", ")?;
    push_counted(to, problems - errors, "warning")?;
    to.push_str(")\n")?;
    Ok(())
}

/// The report on the warnings of the file of that name, in the layout of stylelint's `string`
/// formatter as this program defines it. It is empty without any.
///
/// # Errors
///
/// Only when out of memory.
pub fn report(alloc: Global, name: &str, warnings: &[Warning]) -> Result<String, AllocError>
    ensures { IfOk result (λ s. string_bytes s ≡ report (chars name.now) (map warning_seen warnings.now)) }
{
    let mut text = String::new(alloc);
    if warnings.is_empty() {
        return Ok(text);
    }
    push_text(&mut text, name)?;
    text.push_str("\n")?;
    push_warnings(&mut text, warnings)?;
    text.push_str("\n")?;
    push_total(&mut text, warnings.len(), error_count(warnings))?;
    Ok(text)
}
