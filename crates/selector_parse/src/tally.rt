// Counts of ids, of classes and of elements.
ghost use Rattle.std.specs.Prelude.{◌≡◌, ◌+◌, ◌<◌};
ghost use Rattle.selector_parse.specs.Wide.{weight};
ghost use Rattle.selector_parse.specs.Worth.{nothing as nothing_of, plus, is_less as is_less_of, greater as greater_of, cut as cut_of, size};

use crate::part::Specificity;
use crate::wide::Wide;

/// Ids; classes, attributes and pseudo-classes; elements and pseudo-elements.
#[derive(Drop)]
pub struct Counts {
    pub a: Wide,
    pub b: Wide,
    pub c: Wide,
}

impl Counts {
    /// Three zeros.
    pub fn nothing() -> Counts
        ensures { result ≡ nothing_of }
    {
        Counts {
            a: Wide::zero(),
            b: Wide::zero(),
            c: Wide::zero(),
        }
    }

    /// Adds the other counts, each to its own.
    pub fn add(&mut self, other: &Counts)
        requires { size self.old + size other.now < weight 101 }
        ensures { self.new ≡ plus self.old other.now }
    {
        self.a.add(&other.a);
        self.b.add(&other.b);
        self.c.add(&other.c);
    }

    /// By the first numbers, then the second, then the third.
    fn is_less(&self, other: &Counts) -> bool
        ensures { result ≡ is_less_of self.now other.now }
    {
        let by_last = self.b.compare(&other.b).then(self.c.compare(&other.c));
        self.a.compare(&other.a).then(by_last).is_lt()
    }

    /// The greater of the two; this one where they are equal.
    pub fn greater(self, other: Counts) -> Counts
        ensures { result ≡ greater_of self other }
    {
        if self.is_less(&other) { other } else { self }
    }

    /// Each count, but at most 65,535.
    pub fn cut(&self) -> Specificity
        ensures { result ≡ cut_of self.now }
    {
        Specificity {
            a: self.a.cut(),
            b: self.b.cut(),
            c: self.c.cut(),
        }
    }
}
