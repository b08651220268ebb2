// Names that compare in lower ASCII case.
ghost use Rattle.std.specs.Prelude.{◌≡◌, ◌<◌, true};
ghost use Rattle.std.specs.Str.{chars};
ghost use Rattle.css_text.specs.Forms.{begins};
ghost use Rattle.css_tree.specs.Mark.{is_text};
ghost use Rattle.rule_sites.specs.Keyframes.{lower};
ghost use Rattle.rules_tree.specs.AtRoot.{is_at};
ghost use Rattle.rules_tree.specs.Names.{is_lower};

use css_text::scan::byte_at;
use css_tree::node::NodeText;

/// Whether the text is this word in any ASCII case; the word is given in lower case.
pub fn is_text(text: &str, word: &str) -> bool
    requires { is_lower word.now ≡ true }
    ensures { result ≡ is_text word.now (chars text.now) }
{
    text.eq_ignore_ascii_case(word)
}

/// Whether the text begins with this ASCII character.
pub fn begins(text: &str, first: u8) -> bool
    requires low { first < 128 }
    requires some { 0 < first }
    ensures { result ≡ begins first (chars text.now) }
{
    byte_at(text.as_bytes(), 0) == first
}

/// Whether the node is an at-rule of that name, which is given in lower case.
pub fn is_at(text: &NodeText, name: &str) -> bool
    requires { is_lower name.now ≡ true }
    ensures { result ≡ is_at name.now text.now }
{
    match text {
        NodeText::AtRule { name: written, .. } => is_text(written.as_str(), name),
        _ => false,
    }
}
