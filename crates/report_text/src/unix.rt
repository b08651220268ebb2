// The report `unix`.
ghost use Rattle.std.specs.Prelude.{◌≡◌, ◌++◌, IfOk, OnOk, string_bytes};
ghost use Rattle.std.specs.List.{flat_map};
ghost use Rattle.report_text.specs.Unix.{warning_line, file_lines, unix as report_unix};

use crate::counts::count_all;
use crate::shared::{end_line, push_counted, severity_name};
use css_text::txt::Txt;
use lint_config::found::{FileWarnings, Warning};
use std::alloc::{AllocError, Global};

fn push_warning(to: &mut String, name: &Txt, warning: &Warning) -> Result<(), AllocError>
    ensures { OnOk result (string_bytes to.new ≡ string_bytes to.old ++ warning_line name.now warning.now) }
{
    let name = name.as_str();
    let line = warning.place.line;
    let column = warning.place.column;
    let text = warning.text.as_str();
    let rule = warning.rule.as_str();
    let severity = severity_name(warning.severity);
    write!(to, "{name}:{line}:{column}: {text} ({rule}) [{severity}]\n")?;
    Ok(())
}

fn push_warnings(to: &mut String, name: &Txt, warnings: &[Warning]) -> Result<(), AllocError>
    ensures { OnOk result (string_bytes to.new ≡ string_bytes to.old ++ flat_map (warning_line name.now) warnings.now) }
{
    for warning in warnings {
        push_warning(to, name, warning)?;
    }
    Ok(())
}

fn push_files(to: &mut String, files: &[FileWarnings]) -> Result<(), AllocError>
    ensures { OnOk result (string_bytes to.new ≡ string_bytes to.old ++ flat_map file_lines files.now) }
{
    for file in files {
        push_warnings(to, &file.name, file.warnings.as_slice())?;
    }
    Ok(())
}

/// The report with a line for each warning.
pub(crate) fn unix(alloc: Global, files: &[FileWarnings]) -> Result<String, AllocError>
    ensures { IfOk result (λ text. string_bytes text ≡ report_unix files.now) }
{
    let mut text = String::new(alloc);
    let problems = count_all(files)?.problems()?;
    push_files(&mut text, files)?;
    if problems > 0 {
        text.push_str("\n")?;
        push_counted(&mut text, problems, "problem")?;
        end_line(&mut text)?;
    }
    Ok(text)
}
