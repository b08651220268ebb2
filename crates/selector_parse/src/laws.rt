// Laws on the definitions alone. Each is what a function without a body ensures.
ghost use Rattle.std.specs.Prelude.{◌≡◌, ℕ, List};
ghost use Rattle.selector_parse.specs.Tree.{Tree};
ghost use Rattle.selector_parse.specs.Grammar.{Selects};
ghost use Rattle.selector_parse.specs.Examples.{Names, Elements, Kinds, Gaps, Balanced, Blanks, Notes, Lists, Simple, Faults, Specific, Normals, Signs, Depths, Words};

/// A text has at most one list of selectors.
pub fn at_most_one_list()
    ensures { (s : List ℕ) (x y : Tree) → Selects s x → Selects s y → x ≡ y }
{}

/// What the definitions say of small texts.
pub fn examples()
    ensures names { Names }
    ensures elements { Elements }
    ensures kinds { Kinds }
    ensures gaps { Gaps }
    ensures balanced { Balanced }
    ensures blanks { Blanks }
    ensures notes { Notes }
    ensures lists { Lists }
    ensures simple { Simple }
    ensures faults { Faults }
    ensures specific { Specific }
    ensures normals { Normals }
    ensures signs { Signs }
    ensures depths { Depths }
    ensures words { Words }
{}
