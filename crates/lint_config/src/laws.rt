// Laws on the definitions alone. Each is what a function without a body ensures.
ghost use Rattle.lint_config.specs.Examples.{Names, EachIsFound, Allowed};
ghost use Rattle.lint_config.specs.ConfigExamples.{Refusals, Modes, Resolves};
ghost use Rattle.lint_config.specs.ResolvedLaws.{LastCounts, NamesAscend};
ghost use Rattle.lint_config.specs.GlobExamples.{Matches, Differs, Cut};

/// Each rule is found by its name, so that no two rules have one name.
pub fn each_rule_is_found()
    ensures { EachIsFound }
{}

/// A name is set to what was set last.
pub fn last_counts()
    ensures { LastCounts }
{}

/// The names of each file's settings are in the order of their bytes, each once.
pub fn names_ascend()
    ensures { NamesAscend }
{}

/// What the definitions give on small cases.
pub fn examples()
    ensures names { Names }
    ensures allowed { Allowed }
    ensures refusals { Refusals }
    ensures modes { Modes }
    ensures resolves { Resolves }
    ensures matches { Matches }
    ensures differs { Differs }
    ensures cut { Cut }
{}
