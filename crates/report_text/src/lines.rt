// The report `string`.
ghost use Rattle.std.specs.Prelude.{◌≡◌, ◌++◌, IfOk, OnOk, string_bytes, length, count_by};
ghost use Rattle.std.specs.List.{flat_map};
ghost use Rattle.report_text.specs.Lines.{warning_line, lines_of, file_lines, total_line, lines as report_lines};

use crate::counts::count_all;
use crate::shared::{end_line, push_counted, push_text, severity_name};
use css_text::txt::Txt;
use lint_config::found::{FileWarnings, Warning};
use std::alloc::{AllocError, Global};

fn push_warning(to: &mut String, warning: &Warning) -> Result<(), AllocError>
    ensures { OnOk result (string_bytes to.new ≡ string_bytes to.old ++ warning_line warning.now) }
{
    let line = warning.place.line;
    let column = warning.place.column;
    let severity = severity_name(warning.severity);
    let text = warning.text.as_str();
    let rule = warning.rule.as_str();
    write!(to, "  {line}:{column}  {severity}  {text}  {rule}\n")?;
    Ok(())
}

fn push_warnings(to: &mut String, warnings: &[Warning]) -> Result<(), AllocError>
    ensures { OnOk result (string_bytes to.new ≡ string_bytes to.old ++ flat_map warning_line warnings.now) }
{
    for warning in warnings {
        push_warning(to, warning)?;
    }
    Ok(())
}

fn push_file(to: &mut String, name: &Txt, warnings: &[Warning]) -> Result<(), AllocError>
    ensures { OnOk result (string_bytes to.new ≡ string_bytes to.old ++ lines_of name.now warnings.now) }
{
    if warnings.is_empty() {
        return Ok(());
    }
    push_text(to, name)?;
    end_line(to)?;
    push_warnings(to, warnings)?;
    end_line(to)?;
    Ok(())
}

fn push_files(to: &mut String, files: &[FileWarnings]) -> Result<(), AllocError>
    ensures { OnOk result (string_bytes to.new ≡ string_bytes to.old ++ flat_map file_lines files.now) }
{
    for file in files {
        push_file(to, &file.name, file.warnings.as_slice())?;
    }
    Ok(())
}

fn push_total(
    to: &mut String,
    problems: usize,
    errors: usize,
    warnings: usize,
) -> Result<(), AllocError>
    ensures { OnOk result (string_bytes to.new ≡ string_bytes to.old ++ total_line problems errors warnings) }
{
    push_counted(to, problems, "problem")?;
    to.push_str(" (")?;
    push_counted(to, errors, "error")?;
    to.push_str(", ")?;
    push_counted(to, warnings, "warning")?;
    to.push_str(")\n")?;
    Ok(())
}

/// The report in lines.
pub(crate) fn lines(alloc: Global, files: &[FileWarnings]) -> Result<String, AllocError>
    ensures { IfOk result (λ text. string_bytes text ≡ report_lines files.now) }
{
    let mut text = String::new(alloc);
    let counts = count_all(files)?;
    let problems = counts.problems()?;
    push_files(&mut text, files)?;
    if problems > 0 {
        push_total(&mut text, problems, counts.errors, counts.warnings)?;
    }
    Ok(text)
}
