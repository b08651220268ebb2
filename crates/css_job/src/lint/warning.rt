// The warnings of a report.
ghost use Rattle.std.specs.Prelude.{◌≡◌};
ghost use Rattle.css_job.specs.Faults.{kind_name};
ghost use Rattle.css_job.specs.Report.{severity_name, is_error_severity};
ghost use Rattle.css_job.specs.Warnings.{empty_block_warning, syntax_warning};
ghost use Rattle.css_job.specs.Shown.{warning_seen};

use crate::fault::kind_name;
use css_text::text::Place;
use css_tree::fault::SyntaxFault;

/// How bad a warning is. The names are stylelint's.
#[derive(Clone, Copy, PartialEq, Eq, Debug)]
pub enum Severity {
    Error,
    Warning,
}

impl Severity {
    /// The severity as a report names it.
    pub fn name(self) -> &'static str
        ensures { result.now ≡ severity_name self }
    {
        match self {
            Severity::Error => "error",
            Severity::Warning => "warning",
        }
    }

    /// Whether it is an error.
    pub fn is_error(self) -> bool
        ensures { result ≡ is_error_severity self }
    {
        match self {
            Severity::Error => true,
            Severity::Warning => false,
        }
    }
}

/// A warning on a text.
#[derive(Clone, Copy)]
pub struct Warning {
    pub place: Place,
    pub severity: Severity,
    pub text: &'static str,
    /// The name of the rule that the text breaks.
    pub rule: &'static str,
}

impl Warning {
    /// The warning on an empty block, at the place of its `{`.
    pub fn empty_block(place: Place) -> Warning
        ensures { warning_seen result ≡ empty_block_warning place }
    {
        Warning {
            place,
            severity: Severity::Error,
            text: "Unexpected empty block",
            rule: "block-no-empty",
        }
    }

    /// The warning on a text that can't be read.
    pub fn syntax(fault: SyntaxFault) -> Warning
        ensures { warning_seen result ≡ syntax_warning fault }
    {
        Warning {
            place: fault.place,
            severity: Severity::Error,
            text: kind_name(fault.kind),
            rule: "CssSyntaxError",
        }
    }
}
