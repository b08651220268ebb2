// What the definitions say together. The functions ensure it and do nothing.
ghost use Rattle.visitor_machine.specs.Settled.{Settles};
ghost use Rattle.visitor_machine.specs.Calls.{IsBounded};
ghost use Rattle.visitor_machine.specs.Unchanged.{QuietTree, QuietSheet, OneFresh};
ghost use Rattle.visitor_machine.specs.Altered.{Untouched};
ghost use Rattle.visitor_machine.specs.Examples.{InsertedBefore, InsertedBehind, TakenOut, Exchanged, Moved, LateFilter, TooManyEdits, FailedCall, NoEdit};
ghost use Rattle.visitor_machine.specs.AlteredExamples.{SetTouches, MoveTouches, BelowTouches};

/// When the passes of a whole run end that began with every node of the tree dirty, no node of the tree is dirty, and each
/// has a whole visit that was entered after the last edit that touched it.
pub fn settles()
    ensures { Settles }
{}

/// A run without an edit makes no more calls than there are hooks times nodes.
pub fn is_bounded()
    ensures { IsBounded }
{}

/// A run without an edit leaves the tree as it was; where that was read from a text, the sheet prints this text.
pub fn quiet_tree()
    ensures tree { QuietTree }
    ensures sheet { QuietSheet }
{}

/// A node of a tree that was read, of which a run alters neither itself nor a node below it, has the tree that it had. Its
/// body stands in the source at its span, and in the printing of the whole where the node is in the tree.
pub fn untouched()
    ensures { Untouched }
{}

/// A text is read as one list of nodes alone.
pub fn one_fresh()
    ensures { OneFresh }
{}

/// The examples beside the definitions.
pub fn examples()
    ensures inserted_before { InsertedBefore }
    ensures inserted_behind { InsertedBehind }
    ensures taken_out { TakenOut }
    ensures exchanged { Exchanged }
    ensures moved { Moved }
    ensures late_filter { LateFilter }
    ensures too_many_edits { TooManyEdits }
    ensures failed_call { FailedCall }
    ensures no_edit { NoEdit }
{}

/// The examples of nodes that edits touch.
pub fn touched_examples()
    ensures set { SetTouches }
    ensures moved { MoveTouches }
    ensures below { BelowTouches }
{}
