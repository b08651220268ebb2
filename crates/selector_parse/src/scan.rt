// How far a part reaches, on the bytes of a text.
ghost use Rattle.std.specs.Prelude.{◌≡◌, ◌+◌, ◌≤◌, drop, length};
ghost use Rattle.selector_parse.specs.Reading.{scan_len, scan_last};

use crate::reading::Reading;

/// A part read as far as it goes: where it ends, and what has been read.
#[tactic(auto, using(crate::proofs::Scans::scan_steps))]
pub fn scan(s: &[u8], from: usize, start: Reading) -> (usize, Reading)
    requires { from ≤ length s.now }
    ensures within { (from ≤ result.0) × (result.0 ≤ length s.now) }
    ensures end { result.0 ≡ from + scan_len start (drop from s.now) }
    ensures last { result.1 ≡ scan_last start (drop from s.now) }
{
    let mut end = from;
    let mut reading = start;
    while end < s.len() {
        match reading.step(s[end]) {
            None => return (end, reading),
            Some(next) => reading = next,
        }
        end += 1;
    }
    (end, reading)
}
