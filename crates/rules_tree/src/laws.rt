// Laws on the definitions alone. Each is what a function without a body ensures.
ghost use Rattle.rules_tree.specs.Examples.{Blocks, Comments, WhitespaceInside, Sources, Imports, Depths, Duplicates, Overrides, Marks};

/// What the rules find on small sheets.
pub fn examples()
    ensures blocks { Blocks }
    ensures comments { Comments }
    ensures whitespace_inside { WhitespaceInside }
    ensures sources { Sources }
    ensures imports { Imports }
    ensures depths { Depths }
    ensures duplicates { Duplicates }
    ensures overrides { Overrides }
    ensures marks { Marks }
{}
