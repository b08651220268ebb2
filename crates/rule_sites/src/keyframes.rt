// Keyframes at-rules by their names, with and without a vendor's prefix.
ghost use Rattle.std.specs.Prelude.{◌≡◌, ◌≤◌, length, bytes_eq};
ghost use Rattle.std.specs.Char.{is_ascii_alphabetic};
ghost use Rattle.std.specs.List.{prefix_len};
ghost use Rattle.rule_sites.specs.Keyframes.{lower, is_prefixed, is_vendor_name, is_keyframes_name, is_keyframes};

use css_tree::node::NodeText;

/// Whether the bytes are this word, which is in lower case, in any ASCII case.
fn is_spelled(name: &[u8], word: &[u8]) -> bool
    requires { lower word.now ≡ word.now }
    ensures { result ≡ bytes_eq (lower name.now) word.now }
{
    name.eq_ignore_ascii_case(word)
}

/// How many ASCII letters the bytes begin with.
fn letter_count(name: &[u8]) -> usize
    ensures within { result ≤ length name.now }
    ensures value { result ≡ prefix_len is_ascii_alphabetic name.now }
{
    let mut letters = 0;
    while letters < name.len() && name[letters].is_ascii_alphabetic() {
        letters += 1;
    }
    letters
}

/// Whether the bytes are letters and then `-keyframes`, in any ASCII case.
fn is_prefixed(name: &[u8]) -> bool
    ensures { result ≡ is_prefixed (lower name.now) }
{
    let letters = letter_count(name);
    letters > 0 && is_spelled(&name[letters..], b"-keyframes")
}

fn is_vendor_name(name: &[u8]) -> bool
    ensures { result ≡ is_vendor_name (lower name.now) }
{
    match name {
        [b'-', rest @ ..] => is_prefixed(rest),
        _ => false,
    }
}

#[tactic(auto, unfolding(crate::specs::Keyframes::is_keyframes_name))]
fn is_keyframes_name(name: &[u8]) -> bool
    ensures { result ≡ is_keyframes_name name.now }
{
    is_spelled(name, b"keyframes") || is_vendor_name(name)
}

/// Whether the node is a keyframes at-rule: its name is `keyframes`, or `-`, letters and `-keyframes`, in any
/// ASCII case.
pub fn is_keyframes(text: &NodeText) -> bool
    ensures { result ≡ is_keyframes text.now }
{
    match text {
        NodeText::AtRule { name, .. } => is_keyframes_name(name.as_str().as_bytes()),
        _ => false,
    }
}
