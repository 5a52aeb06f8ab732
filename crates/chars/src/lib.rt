// Characters of any bytes and their widths.
// The bytes of a text are read as chapter 3 of the Unicode Standard has it: a well-formed sequence is one character, and so is each maximal ill-formed subpart (U+FFFD).
// What a function answers is said by one definition of `specs/`: `char_in`, `char_width_of`, `text_width_of`, `truncate_end_pos_of`, `truncate_start_pos_of`, `zero_width_len_of`.
// Calls that ask nothing of their caller: `display_width`, `cut_end`, `cut_start`, `leading_zero_width`, `trim_start_zero_width_chars`.
#![tactic(auto)]

ghost use Rattle.std.specs.Prelude.{◌≡◌, true, cond, ◌+◌, ◌-◌, ◌*◌, ◌/◌, ◌%◌, ◌≤◌, ◌<◌, length, drop, get_or};
ghost use mathlib.Core.List.{◌∷◌, [], tail};
ghost use Rattle.chars.specs.Utf8.{row_of, within};
ghost use Rattle.chars.specs.Leads.{columns};
ghost use Rattle.chars.specs.Width.{char_width_of};
ghost use Rattle.chars.specs.Chars.{char_at, char_in, wide, text_width_of};
ghost use Rattle.chars.specs.Read.{read_of, formed_read, ill_formed_read};
ghost use Rattle.chars.specs.Cut.{truncate_end_pos_of, truncate_end_width, truncate_start_pos_of, truncate_start_width, zero_width_len_of};

// What a byte says that leads a sequence: the sequence's length (0: it leads none) and the second byte's bounds.
#[derive(Clone, Copy)]
struct Lead {
    len: u8,
    low: u8,
    high: u8,
}

// kept: a table. As a match over the rows of table 3-7, which is proved with no file, it takes 12 to 40 per cent more instructions on texts that are not ASCII.
fn lead_in(b: u8) -> Lead
    ensures { (result.len ≡ length (row_of b)) × (tail (row_of b) ≡ columns result.len result.low result.high) × (result.len ≤ 4) }
{
    let x = LEADS[b as usize];
    Lead {
        len: (x / 256 % 256) as u8,
        low: (x / 16 % 16 * 16) as u8,
        high: (x % 16 * 16 + 15) as u8,
    }
}

// A character that was read: its code point, how many bytes it takes, and whether these are well-formed.
#[derive(Clone, Copy, Debug, PartialEq, Eq)]
pub struct Read {
    pub code: u32,
    pub len: usize,
    // kept: no Option: an ill-formed subpart has a code point too, U+FFFD (`read_of`).
    pub ok: bool,
}

// A well-formed sequence of len bytes.
fn formed(code: u32, len: usize) -> Read
    ensures { result ≡ formed_read code len }
{
    Read {
        code,
        len,
        ok: true,
    }
}

// An ill-formed subpart of len bytes.
fn ill_formed(len: usize) -> Read
    ensures { result ≡ ill_formed_read len }
{
    Read {
        code: 0xFFFD,
        len,
        ok: false,
    }
}

fn inside(low: u8, high: u8, b: u8) -> bool
    ensures { result ≡ within low high b }
{
    (low..=high).contains(&b)
}

// The character that a leads, where b, c and d follow. A byte that is not there is 0, which continues no sequence.
fn decode(a: u8, b: u8, c: u8, d: u8) -> Read
    ensures { result ≡ read_of (char_at a (b ∷ c ∷ d ∷ [])) }
{
    let lead = lead_in(a);
    match lead.len {
        0 => ill_formed(1),
        1 => formed(a as u32, 1),
        _ if !inside(lead.low, lead.high, b) => ill_formed(1),
        2 => formed((a as u32) % 32 * 64 + (b as u32) % 64, 2),
        _ if !inside(0x80, 0xBF, c) => ill_formed(2),
        3 => formed(
            (a as u32) % 16 * 4096 + (b as u32) % 64 * 64 + (c as u32) % 64,
            3,
        ),
        _ if !inside(0x80, 0xBF, d) => ill_formed(3),
        _ => formed(
            (a as u32) % 8 * 262144
                + (b as u32) % 64 * 4096
                + (c as u32) % 64 * 64
                + (d as u32) % 64,
            4,
        ),
    }
}

// The byte at i, or 0 past the end.
fn byte_at(s: &[u8], i: usize) -> u8
    ensures { result ≡ get_or s.now i 0 }
{
    s.get(i).copied().unwrap_or(0)
}

// The character that starts at `at`. It is inlined, since a struct of three fields comes back through memory: as a call it takes 6 to 16 per cent more instructions.
#[inline(always)]
pub fn read_char(s: &[u8], at: usize) -> Read
    requires { at < length s.now }
    ensures value { result ≡ read_of (char_in at s.now) }
    ensures le_len { (1 ≤ result.len) × (result.len ≤ 4) × (at + result.len ≤ length s.now) }
{
    let a = s[at];
    let b = byte_at(s, at + 1);
    let c = byte_at(s, at + 2);
    let d = byte_at(s, at + 3);
    decode(a, b, c, d)
}

// The code points from the first to the second are as many columns wide as the third says: document 01's ranges in its order, and faces and trucks, which document 02 adds. All others have width 1.
const RANGES: [(u32, u32, u32); 21] = [
    (0x0000, 0x001F, 0),
    (0x007F, 0x009F, 0),
    (0x0300, 0x036F, 0),
    (0x200B, 0x200F, 0),
    (0x20D0, 0x20F0, 0),
    (0xFE00, 0xFE0F, 0),
    (0xFE20, 0xFE2F, 0),
    (0x1100, 0x115F, 2),
    (0x2E80, 0x303E, 2),
    (0x3041, 0x33FF, 2),
    (0x3400, 0x4DBF, 2),
    (0x4E00, 0xA4CF, 2),
    (0xAC00, 0xD7A3, 2),
    (0xF900, 0xFAFF, 2),
    (0xFE30, 0xFE6F, 2),
    (0xFF00, 0xFF60, 2),
    (0xFFE0, 0xFFE6, 2),
    (0x20000, 0x2FFFD, 2),
    (0x30000, 0x3FFFD, 2),
    (0x1F600, 0x1F64F, 2),
    (0x1F680, 0x1F6C5, 2),
];

// The width of a code point.
// Each row is asked, by `&` and `|` on what is known of all: so the compiler asks four rows at once and makes no branch. With an exit at the row that has the code point,
// or with `&&`, it makes a chain of branches, and a text whose characters are of several ranges takes up to twice as long.
pub fn char_width(code: u32) -> u32
    ensures value { result ≡ char_width_of code }
    ensures upper_bound { result ≤ 2 }
{
    let mut zero = false;
    let mut wide = false;
    for &(first, last, width) in &RANGES {
        let inside = (first <= code) & (code <= last);
        zero |= inside & (width == 0);
        wide |= inside & (width == 2);
    }
    if zero {
        0
    } else if wide {
        2
    } else {
        1
    }
}

// A character that is passed: how many bytes it takes, and how wide it is.
#[derive(Clone, Copy, Debug, PartialEq, Eq)]
pub struct Seen {
    pub len: usize,
    pub width: u32,
}

// The character at `at`, by the tables. It stays a call, so that `seen_at` is small enough to be inlined.
#[tactic(auto, using(crate::proofs::CharsLaws::char_columns, crate::proofs::CharsLaws::ill_columns))]
#[inline(never)]
fn seen_any(s: &[u8], at: usize) -> Seen
    requires { at < length s.now }
    ensures len_value { (result.len ≡ length (char_in at s.now).text) × (result.width ≡ wide (char_in at s.now)) }
    ensures le_len { (1 ≤ result.len) × (at + result.len ≤ length s.now) × (result.width ≤ 2) }
{
    let c = read_char(s, at);
    // U+FFFD is one column wide: not to look it up saves a tenth of the instructions on random bytes.
    let width = if c.ok { char_width(c.code) } else { 1 };
    Seen { len: c.len, width }
}

// The character at `at`. A printable ASCII byte needs no table, so it is tested first.
pub fn seen_at(s: &[u8], at: usize) -> Seen
    requires { at < length s.now }
    ensures len_value { (result.len ≡ length (char_in at s.now).text) × (result.width ≡ wide (char_in at s.now)) }
    ensures le_len { (1 ≤ result.len) × (at + result.len ≤ length s.now) × (result.width ≤ 2) }
{
    if inside(0x20, 0x7E, s[at]) {
        Seen { len: 1, width: 1 }
    } else {
        seen_any(s, at)
    }
}

// The width of a text.
#[tactic(auto, using(crate::proofs::CharsLaws::chars_end), unfolding(crate::specs::Chars::text_width_of))]
pub fn display_width(s: &[u8]) -> u64
    ensures value { result ≡ text_width_of s.now }
    ensures upper_bound { result ≤ 2 * length s.now }
{
    let mut at = 0;
    let mut sum: u64 = 0;
    // kept: no `for`: a step is as long as the character that is read.
    while at < s.len() {
        let c = seen_at(s, at);
        sum += c.width as u64;
        at += c.len;
    }
    sum
}

// A place in a text, and the width of the part that is kept.
#[derive(Clone, Copy, Debug, PartialEq, Eq)]
pub struct Cut {
    pub pos: usize,
    pub width: u64,
}

// Where the longest beginning ends that is at most max wide, and its width.
#[tactic(auto, using(crate::proofs::CharsLaws::chars_end), unfolding(crate::specs::Cut::truncate_end_pos_of, crate::specs::Cut::truncate_end_width))]
pub fn cut_end(s: &[u8], max: u64) -> Cut
    ensures pos_value { (result.pos ≡ truncate_end_pos_of max s.now) × (result.width ≡ truncate_end_width max s.now) }
    ensures pos_in_bounds { (result.pos ≤ length s.now) × (result.width ≤ max) × (result.width ≤ 2 * length s.now) }
{
    let mut at = 0;
    let mut left = max;
    // kept: no `for`: a step is as long as the character that is read.
    while at < s.len() {
        let c = seen_at(s, at);
        let w = c.width as u64;
        if left < w {
            break;
        }
        left -= w;
        at += c.len;
    }
    Cut {
        pos: at,
        width: max - left,
    }
}

// Where the longest ending starts that is at most max wide, and its width. The text is total wide.
// The endings of a text get narrower from its start on, so the first one within max is the longest: no need to read backwards.
#[tactic(auto, unfolding(crate::specs::Chars::text_width_of))]
pub fn truncate_start_pos(s: &[u8], total: u64, max: u64) -> Cut
    requires { total ≡ text_width_of s.now }
    ensures pos_value { (result.pos ≡ truncate_start_pos_of max s.now) × (result.width ≡ truncate_start_width max s.now) }
    ensures pos_in_bounds { (result.pos ≤ length s.now) × (result.width ≤ max) × (result.width ≤ 2 * length s.now) }
{
    let mut at = 0;
    let mut left = total;
    // kept: no `for`: a step is as long as the character that is read.
    while max < left {
        let c = seen_at(s, at);
        left -= c.width as u64;
        at += c.len;
    }
    Cut {
        pos: at,
        width: left,
    }
}

// Where the longest ending starts that is at most max wide, and its width.
pub fn cut_start(s: &[u8], max: u64) -> Cut
    ensures pos_value { (result.pos ≡ truncate_start_pos_of max s.now) × (result.width ≡ truncate_start_width max s.now) }
    ensures pos_in_bounds { (result.pos ≤ length s.now) × (result.width ≤ max) × (result.width ≤ 2 * length s.now) }
{
    truncate_start_pos(s, display_width(s), max)
}

// How many bytes the leading zero-width characters of a text take.
#[tactic(auto, using(crate::proofs::CharsLaws::chars_end), unfolding(crate::specs::Cut::zero_width_len_of))]
pub fn leading_zero_width(s: &[u8]) -> usize
    ensures value { result ≡ zero_width_len_of s.now }
    ensures upper_bound { result ≤ length s.now }
{
    let mut at = 0;
    // kept: no `for`: a step is as long as the character that is read.
    while at < s.len() {
        let c = seen_at(s, at);
        if c.width != 0 {
            return at;
        }
        at += c.len;
    }
    at
}

// A text without its leading zero-width characters: a part of the caller's own bytes.
pub fn trim_start_zero_width_chars(s: &[u8]) -> &[u8]
    ensures { result.now ≡ drop (zero_width_len_of s.now) s.now }
{
    &s[leading_zero_width(s)..]
}

// For each byte three hexadecimal digits: the length of the sequences that it leads (0 for none), and the first digits of the second byte's bounds, which are x0 and yF.
const LEADS: [u16; 256] = [
    // 00 to 0F
    0x100, 0x100, 0x100, 0x100, 0x100, 0x100, 0x100, 0x100, 0x100, 0x100, 0x100, 0x100, 0x100,
    0x100, 0x100, 0x100,
    // 10 to 1F
    0x100, 0x100, 0x100, 0x100, 0x100, 0x100, 0x100, 0x100, 0x100, 0x100, 0x100, 0x100, 0x100,
    0x100, 0x100, 0x100,
    // 20 to 2F
    0x100, 0x100, 0x100, 0x100, 0x100, 0x100, 0x100, 0x100, 0x100, 0x100, 0x100, 0x100, 0x100,
    0x100, 0x100, 0x100,
    // 30 to 3F
    0x100, 0x100, 0x100, 0x100, 0x100, 0x100, 0x100, 0x100, 0x100, 0x100, 0x100, 0x100, 0x100,
    0x100, 0x100, 0x100,
    // 40 to 4F
    0x100, 0x100, 0x100, 0x100, 0x100, 0x100, 0x100, 0x100, 0x100, 0x100, 0x100, 0x100, 0x100,
    0x100, 0x100, 0x100,
    // 50 to 5F
    0x100, 0x100, 0x100, 0x100, 0x100, 0x100, 0x100, 0x100, 0x100, 0x100, 0x100, 0x100, 0x100,
    0x100, 0x100, 0x100,
    // 60 to 6F
    0x100, 0x100, 0x100, 0x100, 0x100, 0x100, 0x100, 0x100, 0x100, 0x100, 0x100, 0x100, 0x100,
    0x100, 0x100, 0x100,
    // 70 to 7F
    0x100, 0x100, 0x100, 0x100, 0x100, 0x100, 0x100, 0x100, 0x100, 0x100, 0x100, 0x100, 0x100,
    0x100, 0x100, 0x100,
    // 80 to 8F
    0x000, 0x000, 0x000, 0x000, 0x000, 0x000, 0x000, 0x000, 0x000, 0x000, 0x000, 0x000, 0x000,
    0x000, 0x000, 0x000,
    // 90 to 9F
    0x000, 0x000, 0x000, 0x000, 0x000, 0x000, 0x000, 0x000, 0x000, 0x000, 0x000, 0x000, 0x000,
    0x000, 0x000, 0x000,
    // A0 to AF
    0x000, 0x000, 0x000, 0x000, 0x000, 0x000, 0x000, 0x000, 0x000, 0x000, 0x000, 0x000, 0x000,
    0x000, 0x000, 0x000,
    // B0 to BF
    0x000, 0x000, 0x000, 0x000, 0x000, 0x000, 0x000, 0x000, 0x000, 0x000, 0x000, 0x000, 0x000,
    0x000, 0x000, 0x000,
    // C0 to CF
    0x000, 0x000, 0x28B, 0x28B, 0x28B, 0x28B, 0x28B, 0x28B, 0x28B, 0x28B, 0x28B, 0x28B, 0x28B,
    0x28B, 0x28B, 0x28B,
    // D0 to DF
    0x28B, 0x28B, 0x28B, 0x28B, 0x28B, 0x28B, 0x28B, 0x28B, 0x28B, 0x28B, 0x28B, 0x28B, 0x28B,
    0x28B, 0x28B, 0x28B,
    // E0 to EF
    0x3AB, 0x38B, 0x38B, 0x38B, 0x38B, 0x38B, 0x38B, 0x38B, 0x38B, 0x38B, 0x38B, 0x38B, 0x38B,
    0x389, 0x38B, 0x38B,
    // F0 to FF
    0x49B, 0x48B, 0x48B, 0x48B, 0x488, 0x000, 0x000, 0x000, 0x000, 0x000, 0x000, 0x000, 0x000,
    0x000, 0x000, 0x000,
];
