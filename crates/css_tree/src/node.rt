// What a node of a style sheet holds.
use css_text::txt::Txt;

/// The kinds of nodes, which are PostCSS 8's.
#[derive(Clone, Copy, PartialEq, Eq, Debug)]
pub enum Kind {
    Root,
    AtRule,
    Rule,
    Declaration,
    Comment,
}

/// The fields of nodes, of which each kind has its own.
#[derive(Clone, Copy, PartialEq, Eq, Debug)]
pub enum Field {
    /// A declaration's property, without a hack before it.
    Prop,
    /// A declaration's value, without its mark.
    Value,
    /// Whether a declaration is marked important.
    Important,
    /// A rule's selector.
    Selector,
    /// An at-rule's name, without its `@`.
    Name,
    /// An at-rule's parameters.
    Params,
    /// A comment's text, without the white space around it.
    Text,
}

/// The texts that a node keeps beside its fields so that it prints as it was written.
#[derive(Clone, Copy, PartialEq, Eq, Debug)]
pub enum Raw {
    /// What stands before a node but the root: white space, `;` and the hack of a declaration.
    Before,
    /// What stands before a container's end.
    After,
    /// What stands before the `{` or the end of an at-rule or rule; a declaration's colon, with the blanks around it.
    Between,
    /// The blanks behind an at-rule's name.
    AfterName,
    /// The white space at a comment's start.
    Left,
    /// The white space at a comment's end.
    Right,
    /// A declaration's important mark, with the blanks before it.
    Important,
    /// The blanks at a declaration's end, which is this project's own.
    Tail,
    /// Whether a `;` stands behind a container's last declaration or blockless at-rule: `;` or nothing.
    Semicolon,
}

/// A field as it was written, and without its comments.
#[derive(Drop)]
pub struct Source {
    pub source: Txt,
    pub clean: Txt,
}

/// What a container keeps of its end: whether a `;` stands behind its last declaration or
/// blockless at-rule, and the text before its `}` or before the end of the sheet.
#[derive(Drop)]
pub struct Block {
    pub semicolon: bool,
    pub after: Option<Txt>,
}

/// A node without its place in the tree: its fields and its raws. A new node has no `before`,
/// and a new container no `after`.
#[derive(Drop)]
pub enum NodeText {
    /// The sheet, and whether a byte order mark stood before it.
    Root {
        bom: bool,
        block: Block,
    },
    AtRule {
        before: Option<Txt>,
        name: Txt,
        after_name: Txt,
        params: Source,
        between: Txt,
        block: Option<Block>,
    },
    Rule {
        before: Option<Txt>,
        selector: Source,
        between: Txt,
        block: Block,
    },
    Declaration {
        before: Option<Txt>,
        prop: Txt,
        between: Txt,
        value: Source,
        important: bool,
        important_raw: Txt,
        tail: Txt,
    },
    Comment {
        before: Option<Txt>,
        left: Txt,
        text: Txt,
        right: Txt,
    },
}
