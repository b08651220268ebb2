// `lint`: the warnings on a sheet, and the report on them.
ghost use Rattle.std.specs.Prelude.{◌≡◌, [], IfOk, map};
ghost use Rattle.css_job.specs.LintPlan.{reported};
ghost use Rattle.css_job.specs.Shown.{warning_seen};
ghost use Rattle.css_job.specs.Stages.{stage_seen};

pub(crate) mod empty_blocks;
mod reads;
mod report;
mod walk;
pub mod warning;

use crate::input::INPUT_NAME;
use crate::lint::report::lint_status;
use crate::lint::warning::Warning;
use crate::plan::one_write;
use crate::prepared::{Prepared, unwalked};
use crate::target::Target;
use css_text::txt::Txt;
use std::alloc::{AllocError, Global};

/// The report on these warnings, and the status of `lint`.
///
/// # Errors
///
/// Only when out of memory.
pub(crate) fn report_plan(alloc: Global, warnings: &[Warning]) -> Result<Prepared, AllocError>
    ensures { IfOk result (λ p. stage_seen p ≡ record { plan = reported (map warning_seen warnings.now); log = []; work = None }) }
{
    let text = Txt::from_string(alloc, report::report(alloc, INPUT_NAME, warnings)?)?;
    let plan = one_write(alloc, Target::StdErr, text, lint_status(warnings))?;
    Ok(unwalked(alloc, plan))
}
