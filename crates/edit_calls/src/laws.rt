// What the definitions give on a small forest. The function ensures it and does nothing.
ghost use Rattle.edit_calls.specs.Examples.{Moved, Replaced, Refused, SetTexts, Cloned};

/// The examples beside the plans of calls.
pub fn examples()
    ensures moved { Moved }
    ensures replaced { Replaced }
    ensures refused { Refused }
    ensures texts { SetTexts }
    ensures cloned { Cloned }
{}
