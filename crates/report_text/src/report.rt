// The report in the format that is asked for.
ghost use Rattle.std.specs.Prelude.{◌≡◌, IfOk, encode_utf8_all};
ghost use Rattle.report_text.specs.Report.{report as report_of};

use crate::format::Format;
use crate::json_text::json;
use crate::lines::lines;
use crate::unix::unix;
use css_text::txt::Txt;
use lint_config::found::FileWarnings;
use std::alloc::{AllocError, Global};

/// The report on the warnings of these files, in the order in which both are given. Places are written as they stand in
/// the warnings: lines and UTF-16 columns from 1. `string` and `unix` are empty without a warning; `json` has each file.
///
/// # Errors
///
/// Only when out of memory. A text is at most 4 GiB long; a longer report counts as that too.
pub fn report(alloc: Global, format: Format, files: &[FileWarnings]) -> Result<Txt, AllocError>
    ensures { IfOk result (λ text. encode_utf8_all text ≡ report_of format files.now) }
{
    let text = match format {
        Format::Lines => lines(alloc, files)?,
        Format::Unix => unix(alloc, files)?,
        Format::Json => json(alloc, files)?,
    };
    Txt::from_string(alloc, text)
}
