// Runs of `*` at the ends of a comment's inner text, by its bytes.
ghost use Rattle.std.specs.Prelude.{◌≡◌, ◌+◌, ◌-◌, ◌<◌, ◌≤◌, ◌&&◌, not, nat_lt, length, reverse, slice_index};
ghost use Rattle.css_text.specs.Characters.{is_space as is_space_of};
ghost use Rattle.rules_tree.specs.CommentWhitespaceInside.{lacks_space, stars};

use css_text::scan::is_space;

/// How many `*` the bytes begin with.
pub fn leading_stars(s: &[u8]) -> usize
    ensures within { result ≤ length s.now }
    ensures value { result ≡ stars s.now }
{
    let mut count = 0;
    while count < s.len() && s[count] == b'*' {
        count += 1;
    }
    count
}

/// Where the run of `*` starts that the bytes end with.
pub fn trailing_stars_start(s: &[u8]) -> usize
    ensures { result + stars (reverse s.now) ≡ length s.now }
{
    let mut start = s.len();
    while start > 0 && s[start - 1] == b'*' {
        start -= 1;
    }
    start
}

/// Whether something that is no white space stands at the index.
fn is_black_at(s: &[u8], at: usize) -> bool
    ensures { result ≡ (nat_lt at (length s.now) && not (is_space_of (slice_index s.now at))) }
{
    at < s.len() && !is_space(s[at])
}

/// Whether something that is no white space stands before the index.
fn is_black_before(s: &[u8], end: usize) -> bool
    requires { end ≤ length s.now }
    ensures { result ≡ (nat_lt 0 end && not (is_space_of (slice_index s.now (end - 1)))) }
{
    end > 0 && !is_space(s[end - 1])
}

/// Whether something is left after the run of `*` at the start, and doesn't begin with white space.
pub fn lacks_leading_space(s: &[u8]) -> bool
    ensures { result ≡ lacks_space s.now }
{
    is_black_at(s, leading_stars(s))
}

/// Whether something is left before the run of `*` at the end, and doesn't end with white space.
pub fn lacks_trailing_space(s: &[u8]) -> bool
    ensures { result ≡ lacks_space (reverse s.now) }
{
    is_black_before(s, trailing_stars_start(s))
}
