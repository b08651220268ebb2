// The table of the rules, which serves their names, what they take and their order.
ghost use Rattle.std.specs.Prelude.{◌≡◌, Some, Option, length};
ghost use Rattle.lint_config.specs.Rules.{all_rules, name_of, primary_of, rule_named, named_in};

use crate::rule::{Primary, Rule};

/// A row of the table: the name of a rule, and the primary options that it takes.
#[derive(Clone, Copy)]
struct Entry {
    name: &'static str,
    primary: Primary,
}

fn make(name: &'static str, primary: Primary) -> Entry
    ensures name { result.name.now ≡ name.now }
    ensures primary { result.primary ≡ primary }
{
    Entry { name, primary }
}

#[tactic(auto, unfolding(crate::specs::Rules::entry_of))]
fn entry_at(rule: Rule) -> Entry
    ensures name { result.name.now ≡ name_of rule }
    ensures primary { result.primary ≡ primary_of rule }
{
    match rule {
        Rule::BlockNoEmpty => make("block-no-empty", Primary::Flag),
        Rule::CommentNoEmpty => make("comment-no-empty", Primary::Flag),
        Rule::CommentWhitespaceInside => make("comment-whitespace-inside", Primary::AlwaysWord),
        Rule::NoEmptySource => make("no-empty-source", Primary::Flag),
        Rule::NoInvalidPositionAtImportRule => make(
            "no-invalid-position-at-import-rule",
            Primary::Flag,
        ),
        Rule::MaxNestingDepth => make("max-nesting-depth", Primary::Thousand),
        Rule::DeclarationBlockNoDuplicateCustomProperties => make(
            "declaration-block-no-duplicate-custom-properties",
            Primary::Flag,
        ),
        Rule::DeclarationBlockNoDuplicateProperties => make(
            "declaration-block-no-duplicate-properties",
            Primary::Flag,
        ),
        Rule::DeclarationBlockNoShorthandPropertyOverrides => make(
            "declaration-block-no-shorthand-property-overrides",
            Primary::Flag,
        ),
        Rule::DeclarationNoImportant => make("declaration-no-important", Primary::Flag),
        Rule::KeyframeDeclarationNoImportant => make(
            "keyframe-declaration-no-important",
            Primary::Flag,
        ),
        Rule::ShorthandPropertyNoRedundantValues => make(
            "shorthand-property-no-redundant-values",
            Primary::Flag,
        ),
        Rule::ColorNoInvalidHex => make("color-no-invalid-hex", Primary::Flag),
        Rule::ColorHexLength => make("color-hex-length", Primary::ShortOrLong),
        Rule::LengthZeroNoUnit => make("length-zero-no-unit", Primary::Flag),
        Rule::UnitNoUnknown => make("unit-no-unknown", Primary::Flag),
        Rule::NoDuplicateSelectors => make("no-duplicate-selectors", Primary::Flag),
        Rule::SelectorMaxId => make("selector-max-id", Primary::Thousand),
        Rule::SelectorMaxSpecificity => make("selector-max-specificity", Primary::Specificity),
        Rule::SelectorPseudoElementColonNotation => make(
            "selector-pseudo-element-colon-notation",
            Primary::SingleOrDouble,
        ),
    }
}

static ALL: [Rule; 20] = [
    Rule::BlockNoEmpty,
    Rule::CommentNoEmpty,
    Rule::CommentWhitespaceInside,
    Rule::NoEmptySource,
    Rule::NoInvalidPositionAtImportRule,
    Rule::MaxNestingDepth,
    Rule::DeclarationBlockNoDuplicateCustomProperties,
    Rule::DeclarationBlockNoDuplicateProperties,
    Rule::DeclarationBlockNoShorthandPropertyOverrides,
    Rule::DeclarationNoImportant,
    Rule::KeyframeDeclarationNoImportant,
    Rule::ShorthandPropertyNoRedundantValues,
    Rule::ColorNoInvalidHex,
    Rule::ColorHexLength,
    Rule::LengthZeroNoUnit,
    Rule::UnitNoUnknown,
    Rule::NoDuplicateSelectors,
    Rule::SelectorMaxId,
    Rule::SelectorMaxSpecificity,
    Rule::SelectorPseudoElementColonNotation,
];

/// All rules, in the order in which settings list them.
#[tactic(auto, unfolding(crate::specs::Rules::all_rules))]
pub fn rules() -> &'static [Rule]
    ensures { result.now ≡ all_rules }
{
    &ALL
}

impl Rule {
    /// The name of the rule in a configuration and in reports, as `block-no-empty`.
    pub fn name(self) -> &'static str
        ensures { result.now ≡ name_of self }
    {
        entry_at(self).name
    }

    /// The primary options that the rule takes.
    pub fn primary(self) -> Primary
        ensures { result ≡ primary_of self }
    {
        entry_at(self).primary
    }
}

/// The rule of a name, or none where no rule has it.
pub fn find_rule(name: &str) -> Option<Rule>
    ensures { result ≡ rule_named name.now }
{
    for rule in rules() {
        if name == rule.name() {
            return Some(*rule);
        }
    }
    None
}
