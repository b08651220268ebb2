// What the definitions say together. The functions ensure it and do nothing.
ghost use Rattle.node_store.specs.Cursors.{CursorsAreSame};
ghost use Rattle.node_store.specs.Fresh.{ClosedIsFresh, FreshTree, ReservedIsFresh};
ghost use Rattle.node_store.specs.Copies.{CopiesCan};
ghost use Rattle.node_store.specs.Examples.{Allowed, Changing, Moved, Next, NextDirty, Reads, Touched, Marked};

/// The tree of a forest that a text was read as is the tree of that reading.
pub fn fresh_tree()
    ensures { FreshTree }
{}

/// A work that was just read stays fresh when something is reserved in it, and when a cursor was opened and closed.
pub fn stays_fresh()
    ensures reserved { ReservedIsFresh }
    ensures closed { ClosedIsFresh }
{}

/// Two forests whose cursors are the same at each serial answer alike, whichever lists these stand in.
pub fn cursors_are_same()
    ensures { CursorsAreSame }
{}

/// Each edit of a tree's copy may be made at its turn, and changes something.
pub fn copies_can()
    ensures { CopiesCan }
{}

/// The examples beside the definitions of reading, edits and cursors.
pub fn examples()
    ensures allowed { Allowed }
    ensures changing { Changing }
    ensures moved { Moved }
    ensures next { Next }
    ensures next_dirty { NextDirty }
    ensures reads { Reads }
    ensures touched { Touched }
    ensures marked { Marked }
{}
