// The rules.

/// A rule of the linter. Its name in a configuration is its name here in lower case, with dashes, as
/// `block-no-empty`; the names are stylelint's.
#[derive(Clone, Copy, PartialEq, Eq, Debug)]
pub enum Rule {
    BlockNoEmpty,
    CommentNoEmpty,
    CommentWhitespaceInside,
    NoEmptySource,
    NoInvalidPositionAtImportRule,
    MaxNestingDepth,
    DeclarationBlockNoDuplicateCustomProperties,
    DeclarationBlockNoDuplicateProperties,
    DeclarationBlockNoShorthandPropertyOverrides,
    DeclarationNoImportant,
    KeyframeDeclarationNoImportant,
    ShorthandPropertyNoRedundantValues,
    ColorNoInvalidHex,
    ColorHexLength,
    LengthZeroNoUnit,
    UnitNoUnknown,
    NoDuplicateSelectors,
    SelectorMaxId,
    SelectorMaxSpecificity,
    SelectorPseudoElementColonNotation,
}

/// The primary options that a rule takes in a configuration.
#[derive(Clone, Copy, PartialEq, Eq, Debug)]
pub enum Primary {
    /// `true`.
    Flag,
    /// `"always"`.
    AlwaysWord,
    /// `"short"` or `"long"`.
    ShortOrLong,
    /// `"single"` or `"double"`.
    SingleOrDouble,
    /// A whole number from 0 to 1000.
    Thousand,
    /// A text of three numbers from 0 to 65535, joined by commas.
    Specificity,
}
