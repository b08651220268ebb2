// A setting of a rule, and all that a file is linted with.
use crate::rule::Rule;
use css_text::txt::Txt;

/// How grave a warning is. Errors alone change the exit status of a run.
#[derive(Clone, Copy, PartialEq, Eq, Debug)]
pub enum Severity {
    Error,
    Warning,
}

/// The primary option that a rule is set to.
#[derive(Clone, Copy, PartialEq, Eq, Debug)]
pub enum Choice {
    /// The rule is on, and takes nothing more.
    On,
    /// So many are allowed.
    Count(u32),
    /// Hexadecimal colors are written short, as `#fff`.
    Short,
    /// Hexadecimal colors are written long, as `#ffffff`.
    Long,
    /// One colon before a pseudo-element.
    Single,
    /// Two colons before a pseudo-element.
    Double,
    /// White space is always there.
    Always,
    /// The greatest specificity that is allowed: ids; classes, attributes and pseudo-classes; types and pseudo-elements.
    Limit(u16, u16, u16),
}

/// A rule that is on.
#[derive(Clone, Copy, PartialEq, Eq, Debug)]
pub struct Setting {
    pub rule: Rule,
    pub choice: Choice,
    pub severity: Severity,
}

/// What a file is linted with.
#[derive(Drop)]
pub struct Settings {
    /// The rules that are on, each at most once.
    pub rules: Vec<Setting>,
    /// The names in the configuration that no rule has, where they are on.
    pub unknown: Vec<Txt>,
    /// Whether disable comments that turn nothing off are reported.
    pub needless: bool,
    /// Whether disable comments are taken as other comments.
    pub ignore: bool,
}
