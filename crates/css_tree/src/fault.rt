// Why a text is no style sheet.
use css_text::text::Place;

/// The faults of a text that can't be read, which are this project's own.
#[derive(Clone, Copy, PartialEq, Eq, Debug)]
pub enum SyntaxKind {
    /// A string without its end, at its first byte.
    UnclosedString,
    /// A comment without its end, at its first byte.
    UnclosedComment,
    /// A `url(` without its end, at its first byte.
    UnclosedUrl,
    /// A bracket that is still awaited at the end of the text, at the outermost one's opening.
    UnclosedBracket,
    /// A block that is still open at the end of the text, at the innermost one's `{`.
    UnclosedBlock,
    /// A `}` outside every block.
    UnexpectedClose,
    /// A statement without a block that is no declaration, at its first piece.
    UnknownWord,
    /// An `@` alone that begins an at-rule.
    AtRuleWithoutName,
    /// The `{` of a block inside 200 others.
    TooDeep,
}

/// A fault: its kind, the byte at which it stands, counted from 0, and the place of that byte.
#[derive(Clone, Copy, PartialEq, Eq, Debug)]
pub struct SyntaxFault {
    pub kind: SyntaxKind,
    pub at: u32,
    pub place: Place,
}
