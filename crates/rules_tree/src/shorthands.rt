// The table of shorthand properties.
ghost use Rattle.std.specs.Prelude.{◌≡◌, true, map};
ghost use Rattle.std.specs.List.{find, list_all};
ghost use Rattle.std.specs.Str.{chars};
ghost use Rattle.css_tree.specs.Mark.{is_text};
ghost use Rattle.rules_tree.specs.Names.{is_lower};
ghost use Rattle.rules_tree.specs.ShorthandRows.{shorthand_of};
ghost use Rattle.rules_tree.specs.Shorthands.{longhands_in, longhands_of, shorthands};

use crate::names::is_text;

/// A shorthand property, and the properties that it sets.
pub struct ShorthandRow {
    pub name: &'static str,
    pub longhands: &'static [&'static str],
}

/// The shorthands, with names in lower case.
pub const SHORTHANDS: [ShorthandRow; 17] = [
    ShorthandRow {
        name: "margin",
        longhands: &["margin-top", "margin-right", "margin-bottom", "margin-left"],
    },
    ShorthandRow {
        name: "padding",
        longhands: &[
            "padding-top",
            "padding-right",
            "padding-bottom",
            "padding-left",
        ],
    },
    ShorthandRow {
        name: "border",
        longhands: &["border-width", "border-style", "border-color"],
    },
    ShorthandRow {
        name: "border-width",
        longhands: &[
            "border-top-width",
            "border-right-width",
            "border-bottom-width",
            "border-left-width",
        ],
    },
    ShorthandRow {
        name: "border-style",
        longhands: &[
            "border-top-style",
            "border-right-style",
            "border-bottom-style",
            "border-left-style",
        ],
    },
    ShorthandRow {
        name: "border-color",
        longhands: &[
            "border-top-color",
            "border-right-color",
            "border-bottom-color",
            "border-left-color",
        ],
    },
    ShorthandRow {
        name: "border-radius",
        longhands: &[
            "border-top-left-radius",
            "border-top-right-radius",
            "border-bottom-right-radius",
            "border-bottom-left-radius",
        ],
    },
    ShorthandRow {
        name: "background",
        longhands: &[
            "background-image",
            "background-size",
            "background-position",
            "background-repeat",
            "background-origin",
            "background-clip",
            "background-attachment",
            "background-color",
        ],
    },
    ShorthandRow {
        name: "font",
        longhands: &[
            "font-style",
            "font-variant",
            "font-weight",
            "font-stretch",
            "font-size",
            "font-family",
            "line-height",
        ],
    },
    ShorthandRow {
        name: "list-style",
        longhands: &["list-style-type", "list-style-position", "list-style-image"],
    },
    ShorthandRow {
        name: "outline",
        longhands: &["outline-color", "outline-style", "outline-width"],
    },
    ShorthandRow {
        name: "transition",
        longhands: &[
            "transition-property",
            "transition-duration",
            "transition-timing-function",
            "transition-delay",
        ],
    },
    ShorthandRow {
        name: "animation",
        longhands: &[
            "animation-name",
            "animation-duration",
            "animation-timing-function",
            "animation-delay",
            "animation-iteration-count",
            "animation-direction",
            "animation-fill-mode",
            "animation-play-state",
        ],
    },
    ShorthandRow {
        name: "flex",
        longhands: &["flex-grow", "flex-shrink", "flex-basis"],
    },
    ShorthandRow {
        name: "flex-flow",
        longhands: &["flex-direction", "flex-wrap"],
    },
    ShorthandRow {
        name: "overflow",
        longhands: &["overflow-x", "overflow-y"],
    },
    ShorthandRow {
        name: "gap",
        longhands: &["row-gap", "column-gap"],
    },
];

/// The longhands of a property in a table of shorthands, whose names are in lower case.
fn longhands_in(table: &'static [ShorthandRow], prop: &str) -> &'static [&'static str]
    requires { list_all (λ s. is_lower s.name.now) table.now ≡ true }
    ensures { map (λ s. chars s.now) result.now ≡ longhands_in (find (λ s. is_text s.name (chars prop.now)) (map shorthand_of table.now)) }
{
    for row in table {
        if is_text(prop, row.name) {
            return row.longhands;
        }
    }
    &[]
}

#[tactic(auto, unfolding(std::specs::Str::chars))]
fn table() -> &'static [ShorthandRow]
    ensures rows { map shorthand_of result.now ≡ shorthands }
    ensures lower { list_all (λ s. is_lower s.name.now) result.now ≡ true }
{
    &SHORTHANDS
}

/// The longhands of a property; none where it is no shorthand.
pub fn longhands_of(prop: &str) -> &'static [&'static str]
    ensures { map (λ s. chars s.now) result.now ≡ longhands_of (chars prop.now) }
{
    longhands_in(table(), prop)
}
