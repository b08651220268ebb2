// The report `json`.
ghost use Rattle.std.specs.Prelude.{◌≡◌, ◌++◌, false, IfOk, OnOk, string_bytes, map, encode_utf8_all};
ghost use Rattle.serde_json.specs.Data.{string};
ghost use Rattle.serde_json.specs.View.{view, items_of};
ghost use Rattle.serde_json.specs.Written.{compact_text, comma_if, items_text};
ghost use Rattle.report_text.specs.Json.{warning_data, file_data, json as report_json};

use crate::shared::severity_name;
use css_text::txt::Txt;
use lint_config::found::{FileWarnings, Warning};
use serde_json::{Value, json};
use std::alloc::{AllocError, Global};

/// A warning's value.
fn warning_value(alloc: Global, warning: &Warning) -> Result<Value, AllocError>
    ensures { IfOk result (λ value. view value ≡ warning_data warning.now) }
{
    json!(in alloc; {
        "column": warning.place.column,
        "line": warning.place.line,
        "rule": warning.rule.as_str(),
        "severity": severity_name(warning.severity),
        "text": warning.text.as_str()
    })
}

/// A text as JSON has it, behind the report.
fn push_string(alloc: Global, to: &mut String, text: &Txt) -> Result<(), AllocError>
    ensures { OnOk result (string_bytes to.new ≡ string_bytes to.old ++ compact_text (string (encode_utf8_all text.now))) }
{
    let value = Value::try_from_str(alloc, text.as_str())?;
    to.push_str(value.to_string(alloc)?.as_str())?;
    Ok(())
}

fn push_warning(alloc: Global, to: &mut String, warning: &Warning) -> Result<(), AllocError>
    ensures { OnOk result (string_bytes to.new ≡ string_bytes to.old ++ compact_text (warning_data warning.now)) }
{
    let value = warning_value(alloc, warning)?;
    to.push_str(value.to_string(alloc)?.as_str())?;
    Ok(())
}

/// A comma, where something stands before.
fn push_comma(to: &mut String, later: bool) -> Result<(), AllocError>
    ensures { OnOk result (string_bytes to.new ≡ string_bytes to.old ++ comma_if later) }
{
    if later {
        to.push_str(",")?;
    }
    Ok(())
}

/// The warnings with the bracket that closes them.
fn push_warnings(alloc: Global, to: &mut String, warnings: &[Warning]) -> Result<(), AllocError>
    ensures { OnOk result (string_bytes to.new ≡ string_bytes to.old ++ items_text false (items_of (map warning_data warnings.now))) }
{
    let mut later = false;
    for warning in warnings {
        push_comma(to, later)?;
        push_warning(alloc, to, warning)?;
        later = true;
    }
    to.push_str("]")?;
    Ok(())
}

fn push_file(alloc: Global, to: &mut String, file: &FileWarnings) -> Result<(), AllocError>
    ensures { OnOk result (string_bytes to.new ≡ string_bytes to.old ++ compact_text (file_data file.now)) }
{
    to.push_str("{\"source\":")?;
    push_string(alloc, to, &file.name)?;
    to.push_str(",\"warnings\":[")?;
    push_warnings(alloc, to, file.warnings.as_slice())?;
    to.push_str("}")?;
    Ok(())
}

/// The files with the bracket that closes them.
fn push_files(alloc: Global, to: &mut String, files: &[FileWarnings]) -> Result<(), AllocError>
    ensures { OnOk result (string_bytes to.new ≡ string_bytes to.old ++ items_text false (items_of (map file_data files.now))) }
{
    let mut later = false;
    for file in files {
        push_comma(to, later)?;
        push_file(alloc, to, file)?;
        later = true;
    }
    to.push_str("]")?;
    Ok(())
}

/// The report as JSON. Each warning is made a value of its own, so that no more than one of them stands in memory beside the text.
pub(crate) fn json(alloc: Global, files: &[FileWarnings]) -> Result<String, AllocError>
    ensures { IfOk result (λ text. string_bytes text ≡ report_json files.now) }
{
    let mut text = String::new(alloc);
    text.push_str("[")?;
    push_files(alloc, &mut text, files)?;
    text.push_str("\n")?;
    Ok(text)
}
