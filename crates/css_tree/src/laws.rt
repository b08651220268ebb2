// Laws on the definitions alone.
ghost use Rattle.css_tree.specs.Whole.{WholeNodes};
ghost use Rattle.css_tree.specs.Laws.{OneReading, FaultOrReading, FaultAtStop, PrintsBack, StartsAtSpans, TwoBytes, AtMostHalf};
ghost use Rattle.css_tree.specs.Examples.{SecondSemicolon, HackAndMark, MarkAlone, MarkAndComment, HiddenMark, CustomProperty, CustomRule, UrlValue, Brackets, RuleLast, BlanksBack, CommentsInFields, EmptyParams, OtherHacks, WhiteComment, MarkOfOrder, EmptyText};
ghost use Rattle.css_tree.specs.Examples.{Faults, FirstFaults, Depth, Cleaned, NewNodes, NewAndOld};
ghost use Rattle.css_tree.specs.ChangeExamples.{ChangedValue, ChangedMark, ChangedRaws, OtherKinds};

/// A text has at most one reading.
pub fn one_reading()
    ensures { OneReading }
{}

/// A fault is found somewhere in a text exactly where the text has no reading.
pub fn fault_or_reading()
    ensures { FaultOrReading }
{}

/// The fault of a text is the one that is found at the first place where one is.
pub fn fault_at_stop()
    ensures { FaultAtStop }
{}

/// A reading prints to the text, and each of its nodes starts there where its span does.
pub fn prints_back()
    ensures text { PrintsBack }
    ensures starts { StartsAtSpans }
{}

/// Each node but the root has at least two bytes, so there are at most half as many of them.
pub fn two_bytes()
    ensures spans { TwoBytes }
    ensures nodes { AtMostHalf }
{}

/// Each node of a reading has its span, all its raws, and the clean texts of its fields, and its flag says whether it has a mark.
pub fn whole_nodes()
    ensures { WholeNodes }
{}

/// What small texts read as.
pub fn reading_examples()
    ensures second_semicolon { SecondSemicolon }
    ensures hack_and_mark { HackAndMark }
    ensures mark_alone { MarkAlone }
    ensures mark_and_comment { MarkAndComment }
    ensures hidden_mark { HiddenMark }
    ensures custom_property { CustomProperty }
    ensures custom_rule { CustomRule }
    ensures url_value { UrlValue }
    ensures brackets { Brackets }
    ensures rule_last { RuleLast }
    ensures blanks_back { BlanksBack }
    ensures comments_in_fields { CommentsInFields }
    ensures empty_params { EmptyParams }
    ensures other_hacks { OtherHacks }
    ensures white_comment { WhiteComment }
    ensures mark_of_order { MarkOfOrder }
    ensures empty_text { EmptyText }
{}

/// The faults of small texts, and the printing of trees with new nodes.
pub fn other_examples()
    ensures faults { Faults }
    ensures first_faults { FirstFaults }
    ensures depth { Depth }
    ensures cleaned { Cleaned }
    ensures new_nodes { NewNodes }
    ensures new_and_old { NewAndOld }
{}

/// What changes make of small node texts.
pub fn change_examples()
    ensures value { ChangedValue }
    ensures mark { ChangedMark }
    ensures raws { ChangedRaws }
    ensures other_kinds { OtherKinds }
{}

#[cfg(test)]
mod tests {
    use super::*;

    #[test]
    fn laws_run(rt: HostRuntime) {
        one_reading();
        fault_or_reading();
        fault_at_stop();
        prints_back();
        two_bytes();
        whole_nodes();
        reading_examples();
        other_examples();
        change_examples();
    }
}
