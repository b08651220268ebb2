// Where a text goes.
ghost use Rattle.std.specs.Prelude.{◌≡◌};
ghost use Rattle.css_job.specs.Faults.{name_of};

/// Where a text goes.
#[derive(Clone, Copy, PartialEq, Eq, Debug)]
pub enum Target {
    /// The standard output.
    StdOut,
    /// The standard error, which takes reports, traces and the line of a fault.
    StdErr,
}

/// The target as it is named in the line of a fault.
pub fn target_name(target: Target) -> &'static str
    ensures { result.now ≡ name_of target }
{
    match target {
        Target::StdOut => "<stdout>",
        Target::StdErr => "<stderr>",
    }
}
