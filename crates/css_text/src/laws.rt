// Laws on the definitions alone. Each is what a function without a body ensures.
ghost use Rattle.std.specs.Prelude.{encode_utf8_all, map, replicate, ◌≡◌, ◌+◌, ◌++◌, ℕ, List, length, Some, None, Ok};
ghost use Rattle.css_text.specs.Pieces.{cut, joined};
ghost use Rattle.css_text.specs.Ahead.{Ahead, without_bom, pieces, answers, last_answer, Spell};
ghost use Rattle.css_text.specs.PieceKinds.{AreOfKinds};
ghost use Rattle.css_text.specs.Examples.{EachForm, Escapes, LastBackslash, Slashes, Urls, Faults, Marks, Places, OrdinaryRule};

/// The pieces of a text without a fault join to the text after its byte order mark.
pub fn pieces_join()
    ensures { (s : List ℕ) → (cut (without_bom s)).fault ≡ None → joined (cut (without_bom s)).tokens ≡ without_bom s }
{}

/// The bytes at a piece's span are the UTF-8 of the characters that the definition cuts off.
pub fn spans_spell()
    ensures { (s : List ℕ) → Spell (encode_utf8_all s) (pieces s).pieces (cut (without_bom s)).tokens }
{}

/// Each piece has what its kind says, and at least one character.
pub fn pieces_are_of_kinds()
    ensures { (s : List ℕ) → AreOfKinds (cut (without_bom s)).tokens }
{}

/// Calls of `next` answer the pieces ahead in their order, and then the fault again and again, or None again and again.
pub fn answers_repeat()
    ensures { (a : Ahead) (n : ℕ) → answers (length a.pieces + n) a ≡ map (λ p. Ok (Some p)) a.pieces ++ replicate n (last_answer a.fault) }
{}

/// What the definitions give on small texts.
pub fn examples()
    ensures forms { EachForm }
    ensures escapes { Escapes }
    ensures last { LastBackslash }
    ensures slashes { Slashes }
    ensures urls { Urls }
    ensures faults { Faults }
    ensures marks { Marks }
    ensures places { Places }
    ensures rule { OrdinaryRule }
{}
