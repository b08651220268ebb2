// How many warnings there are.
ghost use Rattle.std.specs.Prelude.{◌≡◌, ◌+◌, IfOk, count_by};
ghost use Rattle.report_text.specs.Parts.{is_error, is_warning, is_error_severity, all_warnings};

use lint_config::found::{FileWarnings, Warning};
use lint_config::setting::Severity;
use std::alloc::AllocError;

/// How many warnings there are, of each severity.
#[derive(Clone, Copy)]
pub(crate) struct Counts {
    pub(crate) errors: usize,
    pub(crate) warnings: usize,
}

fn is_error(severity: Severity) -> bool
    ensures { result ≡ is_error_severity severity }
{
    match severity {
        Severity::Error => true,
        Severity::Warning => false,
    }
}

/// The counts with those of one file more; an error where there are more than can be counted, which no memory holds.
fn with_file(counts: Counts, warnings: &[Warning]) -> Result<Counts, AllocError>
    ensures errors { IfOk result (λ r. r.errors ≡ counts.errors + count_by is_error warnings.now) }
    ensures warnings { IfOk result (λ r. r.warnings ≡ counts.warnings + count_by is_warning warnings.now) }
{
    let mut counts = counts;
    for warning in warnings {
        if is_error(warning.severity) {
            counts.errors = counts.errors.checked_add(1).ok_or(AllocError)?;
        } else {
            counts.warnings = counts.warnings.checked_add(1).ok_or(AllocError)?;
        }
    }
    Ok(counts)
}

/// How many warnings all files have.
pub(crate) fn count_all(files: &[FileWarnings]) -> Result<Counts, AllocError>
    ensures errors { IfOk result (λ r. r.errors ≡ count_by is_error (all_warnings files.now)) }
    ensures warnings { IfOk result (λ r. r.warnings ≡ count_by is_warning (all_warnings files.now)) }
{
    let mut counts = Counts {
        errors: 0,
        warnings: 0,
    };
    for file in files {
        counts = with_file(counts, file.warnings.as_slice())?;
    }
    Ok(counts)
}

impl Counts {
    /// All of them.
    pub(crate) fn problems(self) -> Result<usize, AllocError>
        ensures { IfOk result (λ n. n ≡ self.errors + self.warnings) }
    {
        self.errors.checked_add(self.warnings).ok_or(AllocError)
    }
}
