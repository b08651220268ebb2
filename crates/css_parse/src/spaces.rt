// White space at the ends of a text.
ghost use Rattle.std.specs.Prelude.{◌≡◌, ◌≤◌, length, take, drop};
ghost use Rattle.std.specs.Str.{chars};
ghost use Rattle.css_text.specs.Ahead.{byte_len};
ghost use Rattle.css_text.specs.Characters.{is_space as is_space_of};
ghost use Rattle.css_tree.proofs.Split.{solid_by, tail_by, lead_by, unlead_by};

use css_text::scan;

/// A text in three parts, by the bytes of the first two: white space, what neither begins nor ends with any, and white space.
#[derive(Clone, Copy)]
pub struct Trimmed {
    pub left: usize,
    pub text: usize,
}

/// How many bytes stand before the trailing white space.
fn trimmed_len(bytes: &[u8]) -> usize
    ensures front { take result bytes.now ≡ solid_by is_space_of bytes.now }
    ensures back { drop result bytes.now ≡ tail_by is_space_of bytes.now }
    ensures within { result ≤ length bytes.now }
{
    let mut len = 0;
    for (i, b) in bytes.iter().enumerate() {
        if !scan::is_space(*b) {
            len = i + 1;
        }
    }
    len
}

/// The text in three parts. One of white space alone is all `left`.
pub fn trim(text: &str) -> Trimmed
    ensures left { result.left ≡ byte_len (lead_by is_space_of (chars text.now)) }
    ensures text { result.text ≡ byte_len (solid_by is_space_of (unlead_by is_space_of (chars text.now))) }
{
    let left = scan::spaces_end(text.as_bytes(), 0);
    let rest = &text[left..];
    Trimmed {
        left,
        text: trimmed_len(rest.as_bytes()),
    }
}
