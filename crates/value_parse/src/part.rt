// The parts of a value.
use css_text::txt::Txt;

/// What a part of a value is.
#[derive(Clone, Copy, PartialEq, Eq, Debug)]
pub enum ValueKind {
    /// The longest run of space, tab, LF, CR and FF.
    Space,
    /// `/*` through the first `*/`, or to the end of the text.
    Comment,
    /// `"` or `'` through the next equal quote that no backslash hides, or to the end of the text.
    Quoted,
    /// From `url(` in any ASCII case, with no quote behind it and white space, through the first `)` that no backslash hides,
    /// or to the end of the text.
    Url,
    /// One of `, / : ; [ ] { }`, a `)` that closes nothing, or a `(` inside 100 Functions.
    Mark,
    /// The longest run of other characters; a backslash takes the next character with it.
    Word,
    /// A Word directly followed by `(`, or `(` alone with the empty name; the parts inside; `)`, or the end of the text.
    Function,
}

/// A part of a value, as in the parsers of values that CSS tools use (postcss-value-parser).
#[derive(Drop)]
pub struct ValuePart {
    pub kind: ValueKind,
    /// The part's first byte, counted from the start of the value.
    pub at: usize,
    /// The whole text of the part; of a Function its name.
    pub text: Txt,
    /// The parts inside a Function; empty in any other part.
    pub inner: Vec<ValuePart>,
    /// False exactly for a Function without its `)`.
    pub closed: bool,
}
