// What the definitions say together. The functions ensure it and do nothing.
ghost use Rattle.visitor_walk.specs.Laws.{OneEnd, SaidOnce, FailedSaid, CallsPicked};
ghost use Rattle.visitor_walk.specs.OneLog.{OneLog};
ghost use Rattle.visitor_walk.specs.OneLogExamples.{DropsOne, DutyAlone};

/// Which end a walk has is told by its log alone: a run has one end at most.
pub fn one_end()
    ensures { OneEnd }
{}

/// Where a visitor says a text in a run, the run ends with its call, which failed with that text. It says no more, and no
/// other visitor says any.
pub fn said_once()
    ensures { SaidOnce }
{}

/// Where a run ends with a call that failed, its visitor says the text, and no other visitor says any.
pub fn failed_said()
    ensures { FailedSaid }
{}

/// Each call of a walk is of a hook on the shelf, whose plugin is picked.
pub fn calls_picked()
    ensures { CallsPicked }
{}

/// Where the visitor of each hook has a duty, the log of a walk and its end are told by the nodes before it, the hooks, the
/// duties and the budgets alone.
pub fn one_log()
    ensures { OneLog }
{}

/// The examples of walks with duties.
pub fn one_log_examples()
    ensures drops_one { DropsOne }
    ensures duty_alone { DutyAlone }
{}
