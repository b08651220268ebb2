// Laws on the definitions alone.
ghost use Rattle.std.specs.Prelude.{◌≡◌, Option};
ghost use Rattle.css_job.specs.Answer.{Object};
ghost use Rattle.css_job.specs.Outside.{Snapshot, Licensed};
ghost use Rattle.css_job.specs.Pinned.{BelowLast};
ghost use Rattle.css_job.specs.Laws.{SomeReading, OneReading, BraceFollows, InOrder};
ghost use Rattle.css_job.specs.OneOutcome.{OneCommand, OneOutcome};
ghost use Rattle.css_job.specs.OneOutcomeExamples.{ToldAlone, DutyCounts, DropOwes, FreeOwesNone};
ghost use Rattle.css_job.specs.Examples.{EmptyBlock, Printed, Dropped, Failing, Spent, Nested, Unclosed, Wrong, Broken, NoWord};

/// Where no count stands at its last value, the counts tell which object failed first.
pub fn failed_is_pinned()
    ensures { (f g : Option Object) (old new : Snapshot) → BelowLast old → Licensed f old new →
        Licensed g old new → f ≡ g }
{}

/// Each text is read as a tree or as a fault, and as nothing else.
pub fn one_reading()
    ensures some { SomeReading }
    ensures one { OneReading }
{}

/// What stands before the `{` of an empty block is all of its body before it.
pub fn brace_follows()
    ensures { BraceFollows }
{}

/// The warnings on empty blocks are in the order of their places.
pub fn in_order()
    ensures { InOrder }
{}

/// The same words ask for the same command, whatever the visitors on the shelf have told and said.
pub fn one_command()
    ensures { OneCommand }
{}

/// Two runs that are asked for the same, over the same bytes, and whose picked visitors have duties,
/// have one log where no read failed, and one outcome where no call did.
pub fn one_outcome()
    ensures { OneOutcome }
{}

/// The examples of shelves that count as the same, and of visitors that have a duty.
pub fn one_outcome_examples()
    ensures told_alone { ToldAlone }
    ensures duty_counts { DutyCounts }
    ensures drop_owes { DropOwes }
    ensures free_owes_none { FreeOwesNone }
{}

/// What the definition of the answer gives on small inputs.
pub fn examples()
    ensures empty_block { EmptyBlock }
    ensures printed { Printed }
    ensures dropped { Dropped }
    ensures failing { Failing }
    ensures spent { Spent }
    ensures nested { Nested }
    ensures unclosed { Unclosed }
    ensures wrong { Wrong }
    ensures broken { Broken }
    ensures no_word { NoWord }
{}
