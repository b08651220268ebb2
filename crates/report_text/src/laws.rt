// Worked examples of reports, on the definitions alone.
ghost use Rattle.report_text.specs.Examples.{NoWarning, OneWarning, TwoFiles};

/// What the definitions give on small lists of files.
pub fn examples()
    ensures none { NoWarning }
    ensures one { OneWarning }
    ensures two { TwoFiles }
{}
