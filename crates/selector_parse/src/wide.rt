// Numbers that are too large for one word.
ghost use Rattle.std.specs.Prelude.{◌≡◌, ◌+◌, ◌<◌, min};
ghost use Rattle.std.specs.Ordering.{nat_cmp};
ghost use Rattle.selector_parse.specs.Wide.{weight, value};

use std::cmp::Ordering;
use std::marker::Model;

// A list of fewer than 2^64 items multiplies a count by less than one word. Complex selectors are such lists, in up to 100
// lists of arguments inside one another: so no count overflows.
const WORDS: usize = 101;

/// A plain number of up to 6,464 bits.
#[derive(Drop)]
pub struct Wide {
    words: [u64; WORDS],
}

impl Model for Wide {
    ghost use Rattle.std.specs.Prelude.{ℕ};
    ghost use Rattle.selector_parse.specs.Wide.{value};

    ghost Value = { ℕ };

    ghost view = { λ n. value n.words 101 };
}

/// The number that `from` holds goes on top; words that it lacks are 0.
fn add_words(to: &mut [u64; WORDS], from: &[u64])
    requires { value to.old 101 + value from.now 101 < weight 101 }
    ensures { value to.new 101 ≡ value to.old 101 + value from.now 101 }
{
    let mut carry = false;
    for i in 0..WORDS {
        if i >= from.len() && !carry {
            return;
        }
        let word = if i < from.len() { from[i] } else { 0 };
        let (sum, over) = to[i].carrying_add(word, carry);
        to[i] = sum;
        carry = over;
    }
}

/// The highest word that differs decides.
fn cmp_words(x: &[u64; WORDS], y: &[u64; WORDS]) -> Ordering
    ensures { result ≡ nat_cmp (value x.now 101) (value y.now 101) }
{
    let mut order = Ordering::Equal;
    for i in 0..WORDS {
        if x[i] != y[i] {
            order = x[i].cmp(&y[i]);
        }
    }
    order
}

fn cut_words(words: &[u64; WORDS]) -> u16
    ensures { result ≡ min (value words.now 101) 65535 }
{
    for i in 1..WORDS {
        if words[i] > 0 {
            return 65535;
        }
    }
    words[0].min(65535) as u16
}

impl Wide {
    /// Zero.
    pub fn zero() -> Wide
        ensures { result ≡ 0 }
    {
        Wide { words: [0; WORDS] }
    }

    /// Adds one.
    pub fn increase(&mut self)
        requires { self.old + 1 < weight 101 }
        ensures { self.new ≡ self.old + 1 }
    {
        add_words(&mut self.words, &[1]);
    }

    /// Adds the other number.
    pub fn add(&mut self, other: &Wide)
        requires { self.old + other.now < weight 101 }
        ensures { self.new ≡ self.old + other.now }
    {
        add_words(&mut self.words, &other.words);
    }

    /// Which of the two is less.
    pub fn compare(&self, other: &Wide) -> Ordering
        ensures { result ≡ nat_cmp self.now other.now }
    {
        cmp_words(&self.words, &other.words)
    }

    /// At most 65,535.
    pub fn cut(&self) -> u16
        ensures { result ≡ min self.now 65535 }
    {
        cut_words(&self.words)
    }
}
