// The parts of selectors.
use css_text::txt::Txt;

/// What a part of a selector is.
#[derive(Clone, Copy, PartialEq, Eq, Debug)]
pub enum PartKind {
    /// A run of white space and comments at the start or the end of a complex selector, where it is no combinator.
    Blank,
    /// A comment between two simple selectors of one compound.
    Comment,
    /// A run of blanks that holds white space between two compounds; or `>`, `+` or `~` with the blanks on both sides.
    Combinator,
    /// A name or `*`; or an optional name or `*`, `|`, and a name or `*`.
    Element,
    /// `#` and a name.
    Id,
    /// `.` and a name.
    Class,
    /// `[` through `]`.
    Attribute,
    /// `:` and a name, with or without arguments.
    PseudoClass,
    /// `::` and a name, or one of `:before`, `:after`, `:first-line` and `:first-letter` in any ASCII case; with or without
    /// arguments.
    PseudoElement,
    /// `&`.
    Nesting,
}

/// The arguments of a pseudo-class or a pseudo-element.
#[derive(Drop)]
#[cycle(selectors)]
pub enum Args {
    /// No parentheses.
    Absent,
    /// The text between the parentheses.
    Plain(Txt),
    /// The list between the parentheses of `:is`, `:not`, `:has` and `:where`.
    List(Selectors),
}

/// A part of a complex selector, as in the parsers of selectors that CSS tools use (postcss-selector-parser).
#[derive(Drop)]
#[cycle(selectors)]
pub struct Part {
    pub kind: PartKind,
    /// The part's first byte, counted from the start of the text.
    pub at: u32,
    /// The whole text of the part; of a pseudo-class or pseudo-element its colons and name.
    pub text: Txt,
    pub args: Args,
}

/// Compounds with the combinators between them, and the blanks around them.
#[derive(Drop)]
#[cycle(selectors)]
pub struct Complex {
    pub parts: Vec<Part>,
}

/// Complex selectors with commas between them.
#[derive(Drop)]
#[cycle(selectors)]
pub struct Selectors {
    pub list: Vec<Complex>,
}

/// A text is no list of selectors.
#[derive(Clone, Copy, PartialEq, Eq, Drop, Debug)]
pub struct SelectorFault {
    /// How many bytes the longest front of the text has with which some list of selectors begins.
    pub at: u32,
}

/// How specific a complex selector is, by the parts of CSS: first the ids, then the classes, attributes and pseudo-classes,
/// then the elements and pseudo-elements. A number above 65,535 is given as 65,535.
#[derive(Clone, Copy, PartialEq, Eq, Drop, Debug)]
pub struct Specificity {
    pub a: u16,
    pub b: u16,
    pub c: u16,
}
