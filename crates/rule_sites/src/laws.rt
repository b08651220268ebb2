// What the definitions say together. The functions ensure it and do nothing.
ghost use Rattle.rule_sites.specs.Examples.{Around, ByNumber, Bytes, KeyframesNames, RuleByRule, InOrder};
ghost use Rattle.rule_sites.specs.Laws.{NodesInOrder, EarlierAreSmaller, ParentsAreSmaller, EachStands};

/// Of a sheet that was just read, the nodes in the order of their numbers, each with the siblings before it and
/// its ancestors, are those of its tree in document order.
pub fn nodes_in_order()
    ensures { NodesInOrder }
{}

/// There the siblings before a node are the nodes of smaller numbers with its parent, in the order of their
/// numbers.
pub fn earlier_are_smaller()
    ensures { EarlierAreSmaller }
{}

/// There the number of a parent is smaller than that of its children.
pub fn parents_are_smaller()
    ensures { ParentsAreSmaller }
{}

/// There the body of each node, up to its children, stands where its span starts.
pub fn each_stands()
    ensures { EachStands }
{}

/// What the definitions give on small cases.
pub fn examples()
    ensures around { Around }
    ensures by_number { ByNumber }
    ensures bytes { Bytes }
    ensures keyframes_names { KeyframesNames }
    ensures rule_by_rule { RuleByRule }
    ensures in_order { InOrder }
{}
