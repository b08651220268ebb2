// What stands before a part of a complex selector.
ghost use Rattle.std.specs.Prelude.{◌≡◌};
ghost use Rattle.selector_parse.specs.Phases.{may_end as may_end_of, starts as starts_of};

use crate::reading::Reading;

/// What stands before a part of a complex selector.
#[derive(Clone, Copy)]
pub enum Phase {
    /// Nothing.
    Fresh,
    /// Blanks or a combinator: a compound must begin.
    Open,
    /// A simple selector.
    Inside,
    /// A comment inside a compound: a simple selector must follow, or another comment.
    Commented,
    /// Blanks at the end.
    Trailing,
}

impl Phase {
    /// The complex selector may end here.
    pub fn may_end(self) -> bool
        ensures { result ≡ may_end_of self }
    {
        matches!(self, Phase::Inside | Phase::Trailing)
    }

    /// What a simple selector begins with here; `None` where there can be none.
    pub fn starts(self) -> Option<Reading>
        ensures { result ≡ starts_of self }
    {
        match self {
            Phase::Fresh | Phase::Open => Some(Reading::First),
            Phase::Inside | Phase::Commented => Some(Reading::Next),
            Phase::Trailing => None,
        }
    }
}
