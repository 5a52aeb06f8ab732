// Reading the sheet of `wraplist`: lines, fields, decimals and hexadecimal bytes. And decimals are written.
// What a function answers is said by a definition of `specs/Sheet.antt` or `specs/Decimal.antt`.
// `find`, `unhex` and `put_decimal` ask something of their caller; they are public for the crates that read and write sheets of lines and show it.
#![tactic(auto)]

ghost use Rattle.std.specs.Prelude.{◌≡◌, cond, ◌+◌, ◌-◌, ◌*◌, ◌/◌, ◌≤◌, ◌<◌, Some, None, length, drop};
ghost use Rattle.buffer.specs.Place.{over, over_at};
ghost use Rattle.sheet.specs.Sheet.{up_to, after, small_digits, value_from, no_leading_zero_in, decimal_of, is_break_text, break_of_text, is_hex_byte, nibble as nibble_of, all_hex_of, is_dash_text, is_pairs_text, is_data_text, data_of};
ghost use Rattle.sheet.specs.Decimal.{decimal};

// Where the first c from `at` on stands, or the end.
pub fn find(s: &[u8], at: usize, c: u8) -> usize
    requires { at ≤ length s.now }
    ensures value { result ≡ at + length (up_to c (drop at s.now)) }
    ensures lower_bound { (at ≤ result) × (result ≤ length s.now) }
{
    at + s[at..].iter().take_while(|b| **b != c).count()
}

// The bytes up to the first space.
pub fn first_field(s: &[u8]) -> &[u8]
    ensures { result.now ≡ up_to 0x20 s.now }
{
    &s[..find(s, 0, b' ')]
}

// The bytes after the first space.
pub fn after_space(s: &[u8]) -> &[u8]
    ensures { result.now ≡ after 0x20 s.now }
{
    let e = find(s, 0, b' ');
    &s[s.len().min(e + 1)..]
}

// Whether there is a digit, and none or no other after a leading 0.
fn no_leading_zero(s: &[u8]) -> bool
    ensures { result ≡ no_leading_zero_in s.now }
{
    match s {
        [] => false,
        [_] => true,
        [b, ..] => *b != b'0',
    }
}

// The value of digits, if it is one of 32 bits. It only grows, so the first value that is too large decides.
fn digits(s: &[u8]) -> Option<u32>
    ensures { result ≡ cond (small_digits s.now) (Some (value_from 0 s.now)) None }
{
    let mut n: u32 = 0;
    for b in s {
        if !b.is_ascii_digit() {
            return None;
        }
        n = n.checked_mul(10)?.checked_add(u32::from(*b - b'0'))?;
    }
    Some(n)
}

// The value of a decimal from 0 to 4294967295 without leading zeros.
#[tactic(auto, unfolding(crate::specs::Sheet::decimal_of, crate::specs::Sheet::is_decimal))]
pub fn decimal_in(s: &[u8]) -> Option<u32>
    ensures { result ≡ decimal_of s.now }
{
    if no_leading_zero(s) { digits(s) } else { None }
}

// How many digits a number has.
#[tactic(auto, using(crate::proofs::DecimalLaws::decimal_zero, crate::proofs::DecimalLaws::decimal_log))]
pub fn decimal_len(n: u32) -> usize
    ensures value { result ≡ length (decimal n) }
    ensures lower_bound { (1 ≤ result) × (result ≤ 10) }
{
    n.checked_ilog10().map_or(1, |k| k as usize + 1)
}

// Puts the digits of a number from `at` on, the last one first, and returns the place after them.
pub fn put_decimal(out: &mut [u8], at: usize, n: u32) -> usize
    requires { at + length (decimal n) ≤ length out.old }
    ensures { (result ≡ at + length (decimal n)) × (out.new ≡ over_at at (decimal n) out.old) }
{
    let end = at + decimal_len(n);
    let mut i = end;
    let mut m = n;
    // kept: no `for`: the number that is left says whether a digit follows.
    while 10 <= m {
        i -= 1;
        out[i] = b'0' + (m % 10) as u8;
        m /= 10;
    }
    out[at] = b'0' + m as u8;
    end
}

// Whether a field is 0 or 1.
#[tactic(auto, unfolding(crate::specs::Sheet::is_break_text))]
pub fn is_break(s: &[u8]) -> bool
    ensures { result ≡ is_break_text s.now }
{
    matches!(s, [b'0' | b'1'])
}

// Which of the two it is.
#[tactic(auto, unfolding(crate::specs::Sheet::break_of_text))]
pub fn break_of(s: &[u8]) -> bool
    ensures { result ≡ break_of_text s.now }
{
    matches!(s, [b'1', ..])
}

// The value of a field that is 0 or 1.
pub fn break_in(s: &[u8]) -> Option<bool>
    ensures { result ≡ cond (is_break_text s.now) (Some (break_of_text s.now)) None }
{
    if is_break(s) { Some(break_of(s)) } else { None }
}

fn is_hex(digit: u8) -> bool
    ensures { result ≡ is_hex_byte digit }
{
    matches!(digit, b'0'..=b'9' | b'a'..=b'f')
}

// The value of a hexadecimal digit.
#[tactic(auto, unfolding(crate::specs::Sheet::nibble))]
fn nibble(b: u8) -> u8
    ensures value { result ≡ nibble_of b }
    ensures upper_bound { result ≤ 15 }
{
    match b {
        b'0'..=b'9' => b - b'0',
        b'a'..=b'f' => b - b'a' + 10,
        _ => 0,
    }
}

fn all_hex(s: &[u8]) -> bool
    ensures { result ≡ all_hex_of s.now }
{
    s.iter().all(|b| is_hex(*b))
}

fn is_dash(s: &[u8]) -> bool
    ensures { result ≡ is_dash_text s.now }
{
    matches!(s, [b'-'])
}

fn is_pairs(s: &[u8]) -> bool
    ensures { result ≡ is_pairs_text s.now }
{
    !s.is_empty() && s.len() % 2 == 0 && s.len() <= 8000 && all_hex(s)
}

// Whether a field gives data bytes.
#[tactic(auto, unfolding(crate::specs::Sheet::is_data_text))]
pub fn is_data(s: &[u8]) -> bool
    ensures { result ≡ is_data_text s.now }
{
    is_dash(s) || is_pairs(s)
}

// The data bytes of a field, in `out`; returns how many there are.
pub fn unhex(s: &[u8], out: &mut [u8]) -> usize
    requires { length s.now / 2 ≤ length out.old }
    ensures value { (result ≡ length (data_of s.now)) × (result ≡ length s.now / 2) }
    ensures out_after { out.new ≡ over (data_of s.now) out.old }
{
    let n = s.len() / 2;
    for k in 0..n {
        out[k] = nibble(s[2 * k]) * 16 + nibble(s[2 * k + 1]);
    }
    n
}
