// What has been read of a part, byte by byte.
ghost use Rattle.std.specs.Prelude.{◌≡◌, ◌==◌, ◌||◌, if◌then◌else◌};
ghost use Rattle.selector_parse.specs.Forms.{is_name_char, is_break as is_break_of, is_symbol as is_symbol_of};
ghost use Rattle.selector_parse.specs.Reading.{unit as unit_of, quote as quote_of, first as first_of, next as next_of, blank as blank_of, before_symbol as before_symbol_of, noted as noted_of, spaced as spaced_of, within as within_of, step as step_of, is_final as is_final_of};

use css_text::scan::{is_quote, is_space};

/// What a run of blanks has held so far.
#[derive(Clone, Copy)]
pub enum Gap {
    /// Nothing, and it is to be one comment.
    One,
    /// Comments, or nothing.
    Comments,
    /// White space.
    Spaced,
    /// One of `>`, `+` and `~`.
    Symbol,
}

/// What text stands in.
#[derive(Clone, Copy)]
pub enum Within {
    /// An attribute's brackets.
    Brackets,
    /// The parentheses of arguments: so many more are open in them, of at most so many.
    Parentheses(usize, usize),
}

/// What has been read of a part.
#[derive(Clone, Copy)]
pub enum Reading {
    /// Nothing of a simple selector that may be an Element.
    First,
    /// Nothing of a simple selector that may not.
    Next,
    /// An Element's name, which a `|` may follow.
    ElementName,
    /// A backslash in such a name.
    ElementEscape,
    /// A `*` that a `|` may follow.
    Star,
    /// A `|`.
    Bar,
    /// One colon.
    Colon,
    /// All before a name.
    NameFirst,
    /// At least one unit of a name.
    Name,
    /// A backslash in a name.
    NameEscape,
    /// All of the part.
    Done,
    /// Text in brackets or parentheses.
    Text(Within),
    /// A backslash in text.
    TextEscape(Within),
    /// A string in text; true where its quote is `"`.
    Quoted(bool, Within),
    /// A backslash in a string.
    QuotedEscape(bool, Within),
    /// White space, whole comments and signs.
    Blank(Gap),
    /// A slash that begins a comment.
    Slash(Gap),
    /// A comment.
    Note(Gap),
    /// A comment, the last of it a `*`.
    NoteStar(Gap),
}

/// An ASCII letter or digit, `-`, `_`, or part of a character past ASCII.
fn is_name(b: u8) -> bool
    ensures { result ≡ is_name_char b }
{
    b.is_ascii_alphanumeric() || b == b'-' || b == b'_' || b >= 128
}

/// LF, CR or FF.
fn is_break(b: u8) -> bool
    ensures { result ≡ is_break_of b }
{
    b == b'\n' || b == b'\r' || b == 12
}

/// `>`, `+` or `~`.
pub fn is_symbol(b: u8) -> bool
    ensures { result ≡ is_symbol_of b }
{
    b == b'>' || b == b'+' || b == b'~'
}

/// A unit of a name, or the backslash before one.
fn unit(b: u8, name: Reading, escape: Reading) -> Option<Reading>
    ensures { result ≡ unit_of name escape b }
{
    if is_name(b) {
        Some(name)
    } else if b == b'\\' {
        Some(escape)
    } else {
        None
    }
}

/// Any character but a line break.
fn hidden(b: u8, name: Reading) -> Option<Reading>
    ensures { result ≡ (if is_break_of b then None else Some name) }
{
    if is_break(b) { None } else { Some(name) }
}

/// The first byte of a simple selector that is no Element.
fn next(b: u8) -> Option<Reading>
    ensures { result ≡ next_of b }
{
    if b == b'#' || b == b'.' {
        Some(Reading::NameFirst)
    } else if b == b':' {
        Some(Reading::Colon)
    } else if b == b'[' {
        Some(Reading::Text(Within::Brackets))
    } else if b == b'&' {
        Some(Reading::Done)
    } else {
        None
    }
}

/// The first byte of a simple selector.
fn first(b: u8) -> Option<Reading>
    ensures { result ≡ first_of b }
{
    if is_name(b) {
        Some(Reading::ElementName)
    } else if b == b'\\' {
        Some(Reading::ElementEscape)
    } else if b == b'*' {
        Some(Reading::Star)
    } else if b == b'|' {
        Some(Reading::Bar)
    } else {
        next(b)
    }
}

/// `last`, or a unit of a name.
fn last_or_unit(b: u8, last: u8, end: Reading, name: Reading, escape: Reading) -> Option<Reading>
    ensures { result ≡ (if b == last then Some end else unit_of name escape b) }
{
    if b == last {
        Some(end)
    } else {
        unit(b, name, escape)
    }
}

/// `only`, and nothing else.
fn only(b: u8, only: u8, end: Reading) -> Option<Reading>
    ensures { result ≡ (if b == only then Some end else None) }
{
    if b == only { Some(end) } else { None }
}

fn spaced(gap: Gap) -> Gap
    ensures { result ≡ spaced_of gap }
{
    match gap {
        Gap::Comments => Gap::Spaced,
        _ => gap,
    }
}

/// Behind a whole comment.
fn noted(gap: Gap) -> Reading
    ensures { result ≡ noted_of gap }
{
    match gap {
        Gap::One => Reading::Done,
        _ => Reading::Blank(gap),
    }
}

/// Between comments: at most one sign.
fn blank(b: u8, gap: Gap) -> Option<Reading>
    ensures { result ≡ blank_of gap b }
{
    match gap {
        Gap::One => only(b, b'/', Reading::Slash(gap)),
        Gap::Symbol => after_symbol(b),
        _ => before_symbol(b, gap),
    }
}

fn after_symbol(b: u8) -> Option<Reading>
    ensures { result ≡ blank_of Gap.Symbol b }
{
    if b == b'/' {
        Some(Reading::Slash(Gap::Symbol))
    } else if is_space(b) {
        Some(Reading::Blank(Gap::Symbol))
    } else {
        None
    }
}

fn before_symbol(b: u8, gap: Gap) -> Option<Reading>
    ensures { result ≡ before_symbol_of gap b }
{
    if b == b'/' {
        Some(Reading::Slash(gap))
    } else if is_space(b) {
        Some(Reading::Blank(Gap::Spaced))
    } else if is_symbol(b) {
        Some(Reading::Blank(Gap::Symbol))
    } else {
        None
    }
}

/// A byte of arguments.
fn in_parentheses(b: u8, held: usize, most: usize) -> Option<Reading>
    ensures { result ≡ within_of (Within.Parentheses held most) b }
{
    let held = match b {
        b'(' if held < most => held + 1,
        b'(' => return None,
        b')' if held > 0 => held - 1,
        b')' => return None,
        _ => held,
    };
    Some(Reading::Text(Within::Parentheses(held, most)))
}

/// A byte of text that is no quote and no backslash.
fn in_text(b: u8, within: Within) -> Option<Reading>
    ensures { result ≡ within_of within b }
{
    match within {
        Within::Brackets if b == b']' => Some(Reading::Done),
        Within::Brackets => Some(Reading::Text(within)),
        Within::Parentheses(held, most) => in_parentheses(b, held, most),
    }
}

#[tactic(auto, unfolding(crate::specs::Reading::step))]
fn text(b: u8, within: Within) -> Option<Reading>
    ensures { result ≡ step_of (Reading.Text within) b }
{
    if b == b'\\' {
        Some(Reading::TextEscape(within))
    } else if is_quote(b) {
        Some(Reading::Quoted(b == b'"', within))
    } else {
        in_text(b, within)
    }
}

fn quote(double: bool) -> u8
    ensures { result ≡ quote_of double }
{
    if double { b'"' } else { b'\'' }
}

/// One of two bytes, or any other.
fn either(
    b: u8,
    one: u8,
    at_one: Reading,
    two: u8,
    at_two: Reading,
    other: Reading,
) -> Option<Reading>
    ensures { result ≡ (if b == one then Some at_one else if b == two then Some at_two else Some other) }
{
    if b == one {
        Some(at_one)
    } else if b == two {
        Some(at_two)
    } else {
        Some(other)
    }
}

impl Reading {
    /// One byte more; `None` where it is not of the part.
    #[tactic(auto, unfolding(crate::specs::Reading::step))]
    pub fn step(self, b: u8) -> Option<Reading>
        ensures { result ≡ step_of self b }
    {
        match self {
            Reading::First => first(b),
            Reading::Next => next(b),
            Reading::ElementName => last_or_unit(
                b,
                b'|',
                Reading::Bar,
                self,
                Reading::ElementEscape,
            ),
            Reading::ElementEscape => hidden(b, Reading::ElementName),
            Reading::Star => only(b, b'|', Reading::Bar),
            Reading::Bar => last_or_unit(
                b,
                b'*',
                Reading::Done,
                Reading::Name,
                Reading::NameEscape,
            ),
            Reading::Colon => last_or_unit(
                b,
                b':',
                Reading::NameFirst,
                Reading::Name,
                Reading::NameEscape,
            ),
            Reading::NameFirst | Reading::Name => unit(b, Reading::Name, Reading::NameEscape),
            Reading::NameEscape => hidden(b, Reading::Name),
            Reading::Done => None,
            Reading::Text(within) => text(b, within),
            Reading::TextEscape(within) => Some(Reading::Text(within)),
            Reading::Quoted(double, within) => either(
                b,
                quote(double),
                Reading::Text(within),
                b'\\',
                Reading::QuotedEscape(double, within),
                self,
            ),
            Reading::QuotedEscape(double, within) => Some(Reading::Quoted(double, within)),
            Reading::Blank(gap) => blank(b, gap),
            Reading::Slash(gap) => only(b, b'*', Reading::Note(gap)),
            Reading::Note(gap) => either(b, b'*', Reading::NoteStar(gap), b'*', self, self),
            Reading::NoteStar(gap) => either(b, b'/', noted(gap), b'*', self, Reading::Note(gap)),
        }
    }

    /// The part may end here.
    pub fn is_final(self) -> bool
        ensures { result ≡ is_final_of self }
    {
        match self {
            Reading::ElementName | Reading::Star | Reading::Name | Reading::Done => true,
            Reading::Blank(_) => true,
            Reading::Text(Within::Parentheses(held, _)) => held == 0,
            _ => false,
        }
    }
}
