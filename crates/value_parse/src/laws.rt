// Laws on the definitions alone. Each is what a function without a body ensures.
ghost use Rattle.std.specs.Prelude.{◌≡◌, ℕ, List, Option};
ghost use Rattle.css_text.specs.declared.lexer.Span.{Span};
ghost use Rattle.css_text.specs.ValueParts.{ValueParts, IsValue};
ghost use Rattle.value_parse.specs.Number.{OneNumber, TellsNumber};
ghost use Rattle.value_parse.specs.NumberLengths.{number_and_unit};
ghost use Rattle.value_parse.specs.Examples.{Unclosed, Nested, Marks, Names, Forms, Numbers, NoNumbers};

/// Each text has exactly one list of parts.
pub fn exactly_one_value()
    ensures at_least { (s : List ℕ) → (p : ValueParts) × IsValue s p }
    ensures at_most { (s : List ℕ) (p q : ValueParts) → IsValue s p → IsValue s q → p ≡ q }
{}

/// A word has at most one number with a unit.
pub fn at_most_one_number()
    ensures { OneNumber }
{}

/// The number of a word by lengths is what the grammar tells, and nothing else is.
pub fn number_by_lengths()
    ensures told { (word : List ℕ) → TellsNumber word (number_and_unit word) }
    ensures alone { (word : List ℕ) (r : Option (Span × Span)) → TellsNumber word r → r ≡ number_and_unit word }
{}

/// What the definitions say of small texts.
pub fn examples()
    ensures unclosed { Unclosed }
    ensures nested { Nested }
    ensures marks { Marks }
    ensures names { Names }
    ensures forms { Forms }
    ensures numbers { Numbers }
    ensures no_numbers { NoNumbers }
{}
