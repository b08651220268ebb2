// What the formats share: texts, severities and counts, put behind a report.
ghost use Rattle.std.specs.Prelude.{◌≡◌, ◌++◌, OnOk, encode_utf8_all, string_bytes, codes};
ghost use Rattle.std.specs.Str.{chars};
ghost use Rattle.report_text.specs.Parts.{severity_name as name_of, counted, line_feed};

use css_text::txt::Txt;
use lint_config::setting::Severity;
use std::alloc::AllocError;

/// A severity as reports name it.
pub(crate) fn severity_name(severity: Severity) -> &'static str
    ensures { result.now ≡ name_of severity }
{
    match severity {
        Severity::Error => "error",
        Severity::Warning => "warning",
    }
}

/// A text behind the report.
pub(crate) fn push_text(to: &mut String, text: &Txt) -> Result<(), AllocError>
    ensures { OnOk result (string_bytes to.new ≡ string_bytes to.old ++ encode_utf8_all text.now) }
{
    to.push_str(text.as_str())?;
    Ok(())
}

/// So many of these, in the singular at 1.
pub(crate) fn push_counted(to: &mut String, n: usize, things: &str) -> Result<(), AllocError>
    ensures { OnOk result (string_bytes to.new ≡ string_bytes to.old ++ counted n things.now) }
{
    let ending = if n == 1 { "" } else { "s" };
    write!(to, "{n} {things}{ending}")?;
    Ok(())
}

/// A line feed.
pub(crate) fn end_line(to: &mut String) -> Result<(), AllocError>
    ensures { OnOk result (string_bytes to.new ≡ string_bytes to.old ++ line_feed) }
{
    to.push_str("\n")?;
    Ok(())
}
