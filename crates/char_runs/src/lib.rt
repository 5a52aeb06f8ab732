// Stretches of whole characters of a text: where the last one ends at or before a place, and how wide those up to a place are.
// A stretch starts where a character starts.
#![tactic(auto)]

ghost use Rattle.std.specs.Prelude.{◌≡◌, true, ◌+◌, ◌-◌, ◌*◌, ◌≤◌, ◌<◌, length, drop};
ghost use Rattle.chars.specs.Utf8.{within};
ghost use Rattle.chars.specs.Chars.{Seam};
ghost use Rattle.char_runs.specs.Runs.{WholeUpTo, VisibleFrom, Covered};

use chars::seen_at;

// A stretch of characters: where it ends, and its width.
#[derive(Clone, Copy)]
pub struct Stretch {
    pub end: usize,
    pub width: usize,
}

// Whether a byte can stand behind the first one of a sequence; no character ends before any other.
fn continues(b: u8) -> bool
    ensures { result ≡ within 0x80 0xBF b }
{
    (0x80..=0xBF).contains(&b)
}

// A place before `end` at which a character starts: the last byte there that continues no sequence, or `at`.
#[tactic(auto, using(crate::proofs::RunLaws::seam_before, crate::proofs::RunLaws::seam_none))]
fn near_start(s: &[u8], at: usize, end: usize) -> usize
    requires { (at < end) × (end ≤ length s.now) }
    ensures { (at ≤ result) × (result < end) × Seam (drop at s.now) (result - at) }
{
    for i in (at + 1..end).rev() {
        if !continues(s[i]) {
            return i;
        }
    }
    at
}

// Where the last whole character ends from `at` up to `end`. Only if the byte at `end` continues a sequence are characters read, the few before it.
#[tactic(auto, using(crate::proofs::RunLaws::seam_end, crate::proofs::RunLaws::seam_before, crate::proofs::RunLaws::char_further))]
pub fn whole_end(s: &[u8], at: usize, end: usize) -> usize
    requires { (at < end) × (end ≤ length s.now) }
    ensures { WholeUpTo s.now at end result }
{
    if end == s.len() || !continues(s[end]) {
        return end;
    }
    let mut i = near_start(s, at, end);
    // kept: no `for`: a step is as long as the character that is read.
    while i < end {
        let c = seen_at(s, i);
        if end < i + c.len {
            break;
        }
        i += c.len;
    }
    i
}

// The place behind the visible ASCII bytes from `at` on, up to `end`. Each is a character of width 1, and two tests are enough for it; most texts have no others.
fn visible_end(s: &[u8], at: usize, end: usize) -> usize
    requires { (at ≤ end) × (end ≤ length s.now) }
    ensures { (at ≤ result) × (result ≤ end) × VisibleFrom s.now at result }
{
    at + s[at..end]
        .iter()
        .take_while(|b| (0x20..=0x7E).contains(*b))
        .count()
}

// The whole characters from `at` up to `end`, or up to the first 0A among them.
#[tactic(auto, using(crate::proofs::RunLaws::plain_covered, crate::proofs::RunLaws::newline_covered))]
pub fn covered(s: &[u8], at: usize, end: usize) -> Stretch
    requires { (at < end) × (end ≤ length s.now) × (length s.now ≤ 1048576) }
    ensures covered { Covered s.now at end result }
    ensures width_bound { result.width ≤ 2 * length s.now }
{
    let mut i = visible_end(s, at, end);
    let mut width = i - at;
    // kept: no `for`: a step is as long as the character that is read.
    while i < end && s[i] != b'\n' {
        let c = seen_at(s, i);
        if end < i + c.len {
            break;
        }
        width += c.width as usize;
        i += c.len;
    }
    Stretch { end: i, width }
}
