// What the definition of the trace gives on small logs. The function ensures it and does nothing.
ghost use Rattle.css_job.specs.TraceExamples.{Dropped, Edited, Names, Spelt, Caller};

/// The examples beside the definition.
pub fn trace_examples()
    ensures dropped { Dropped }
    ensures edited { Edited }
    ensures names { Names }
    ensures spelt { Spelt }
    ensures caller { Caller }
{}
