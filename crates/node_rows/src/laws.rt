// What the definitions give on small lists of nodes. The functions ensure it and do nothing.
ghost use Rattle.node_rows.specs.Examples.{Order, WrongOrder, Children, Numbers, Depths, NextSibling, PreviousSibling, Places, Taken, PutIn, Marked, Dirtied, Behind, Blocks, Ends, Entries};

/// The examples beside the definitions.
pub fn examples()
    ensures order { Order }
    ensures wrong_order { WrongOrder }
    ensures children { Children }
    ensures numbers { Numbers }
    ensures depths { Depths }
    ensures next_sibling { NextSibling }
{}

/// The examples of changes, and of the order of nodes.
pub fn change_examples()
    ensures previous_sibling { PreviousSibling }
    ensures places { Places }
    ensures taken { Taken }
    ensures put_in { PutIn }
    ensures marked { Marked }
    ensures dirtied { Dirtied }
    ensures behind { Behind }
{}

/// The examples of lists of nodes that are being read.
pub fn list_examples()
    ensures blocks { Blocks }
    ensures ends { Ends }
    ensures entries { Entries }
{}
