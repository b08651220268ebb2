// Worked examples of the words, on the definitions alone.
ghost use Rattle.command_words.specs.WordsExamples.{Commands, GivenOptions, Mixed, Numbers, Names};

/// What the definitions give on small cases.
pub fn words_examples()
    ensures commands { Commands }
    ensures options { GivenOptions }
    ensures mixed { Mixed }
    ensures numbers { Numbers }
    ensures names { Names }
{}
