// Whether a text is clean, well-formed UTF-8 without control characters: `is_clean_text`.
// A call that asks nothing of its caller: `is_clean`.
#![tactic(auto)]

ghost use Rattle.std.specs.Prelude.{ℕ, true, ◌≡◌, ◌≤◌, ◌<◌, length, drop, get_or};
ghost use Rattle.chars.specs.Utf8.{within};
ghost use Rattle.chars.specs.Chars.{chars};
ghost use Rattle.controls.specs.Controls.{is_control, all_clean, is_clean_text};

use chars::read_char;

fn is_printable(b: u8) -> bool
    ensures { result ≡ within 0x20 0x7E b }
{
    (0x20..=0x7E).contains(&b)
}

fn is_control_code(code: u32) -> bool
    ensures { result ≡ is_control code }
{
    matches!(code, 0x00..=0x1F | 0x7F..=0x9F)
}

// Whether the characters from `from` on are clean. Printable ASCII needs no table. It stays a call, so that `is_clean` is small enough to be inlined.
#[inline(never)]
fn clean_from(s: &[u8], from: usize) -> bool
    requires { from ≤ length s.now }
    ensures { result ≡ all_clean (chars (drop from s.now)) }
{
    let mut at = from;
    // kept: no `for`: a step is as long as the character that is read.
    while at < s.len() {
        if is_printable(s[at]) {
            at += 1;
            continue;
        }
        let c = read_char(s, at);
        if !c.ok || is_control_code(c.code) {
            return false;
        }
        at += c.len;
    }
    true
}

// How many bytes of printable ASCII a text starts with.
fn printable_len(s: &[u8]) -> usize
    ensures printable { (i : ℕ) → i < result → within 0x20 0x7E (get_or s.now i 0) ≡ true }
    ensures upper_bound { result ≤ length s.now }
{
    s.iter().position(|b| !is_printable(*b)).unwrap_or(s.len())
}

// Whether a text is clean. Printable ASCII pays for no call.
pub fn is_clean(s: &[u8]) -> bool
    ensures { result ≡ is_clean_text s.now }
{
    let at = printable_len(s);
    at == s.len() || clean_from(s, at)
}
