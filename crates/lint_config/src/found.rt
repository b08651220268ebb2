// What rules find.
use crate::rule::Rule;
use crate::setting::Severity;
use css_text::lexer::Span;
use css_text::text::Place;
use css_text::txt::Txt;

/// A change of the text that mends what a rule found: the bytes of the span give way to the text.
#[derive(Drop)]
pub struct Repair {
    pub span: Span,
    pub text: Txt,
}

/// What a rule found at one place of a text.
#[derive(Drop)]
pub struct Site {
    pub rule: Rule,
    /// The byte that it stands at, counted from the start of the text.
    pub at: u32,
    /// The place of that byte.
    pub place: Place,
    /// The message, without the rule's name.
    pub text: Txt,
    /// How it is mended, where the rule says.
    pub repair: Option<Repair>,
}

/// A line of a report.
#[derive(Drop)]
pub struct Warning {
    pub place: Place,
    /// The name of the rule, or what stands in its place.
    pub rule: Txt,
    pub severity: Severity,
    pub text: Txt,
}

/// The warnings of one file.
#[derive(Drop)]
pub struct FileWarnings {
    /// The file's name as it was given.
    pub name: Txt,
    pub warnings: Vec<Warning>,
}
