// Whether a text is well-formed UTF-8: `well_formed_of`, of crate `chars`. A block of bytes at once says that it is (`specs/Blocks.antt`); where one does not, the reader of characters decides.
// A call that asks nothing of its caller: `is_well_formed`.
#![tactic(auto)]

ghost use Rattle.std.specs.Prelude.{◌≡◌, true, false, ◌+◌, ◌≤◌, ◌<◌, length, drop, get_or};
ghost use Rattle.chars.specs.Chars.{chars, all_ok, well_formed_of};
ghost use Rattle.well_formed.specs.Blocks.{Ended, Fits, EndsAt, Fitting, Plain};

use chars::read_char;

// The bounds of the byte that follows y: they are narrower after four of the lead bytes.
fn second_low(y: u8) -> u8
    ensures { (0x80 ≤ result) × (y ≡ 0xE0 → 0xA0 ≤ result) × (y ≡ 0xF0 → 0x90 ≤ result) }
{
    match y {
        0xE0 => 0xA0,
        0xF0 => 0x90,
        _ => 0x80,
    }
}

fn second_high(y: u8) -> u8
    ensures { (result ≤ 0xBF) × (y ≡ 0xED → result ≤ 0x9F) × (y ≡ 0xF4 → result ≤ 0x8F) }
{
    match y {
        0xED => 0x9F,
        0xF4 => 0x8F,
        _ => 0xBF,
    }
}

fn outside(low: u8, high: u8, z: u8) -> bool
    ensures { result ≡ false → (low ≤ z) × (z ≤ high) }
{
    !(low..=high).contains(&z)
}

// Whether z is no ASCII and leads no sequence.
fn no_lead(z: u8) -> bool
    ensures { result ≡ false → 0x80 ≤ z → (0xC2 ≤ z) × (z ≤ 0xF4) }
{
    0x80 <= z && outside(0xC2, 0xF4, z)
}

// Whether a lead byte among w, x and y asks for a byte after y.
fn sequence_open(w: u8, x: u8, y: u8) -> bool
    ensures { (result ≡ true → Ended w x y → ⊥) × (result ≡ false → Ended w x y) }
{
    0xC0 <= y || 0xE0 <= x || 0xF0 <= w
}

// Whether z cannot follow w, x and y in a well-formed text.
fn misplaced(w: u8, x: u8, y: u8, z: u8) -> bool
    ensures { result ≡ false → Fits w x y z }
{
    if sequence_open(w, x, y) {
        outside(second_low(y), second_high(y), z)
    } else {
        no_lead(z)
    }
}

// The last place from `from` to `from` + 3 at which a character can start, as far as the bytes between tell.
fn last_boundary(s: &[u8], from: usize) -> usize
    requires { from + 3 ≤ length s.now }
    ensures ends_at { (result ≡ from + 3 → EndsAt (from + 3) s.now) × (result < from + 3 → 0xC0 ≤ get_or s.now result 0) }
    ensures lower_bound { (from ≤ result) × (result ≤ from + 3) }
{
    if 0xC0 <= s[from + 2] {
        return from + 2;
    }
    if 0xE0 <= s[from + 1] {
        return from + 1;
    }
    if 0xF0 <= s[from] {
        return from;
    }
    from + 3
}

// Whether the bytes at `from` + 3 to `from` + 34 can follow those before them. No place ends the loop early, so the compiler does 16 at once.
// kept: an index. Over `windows(4)` the code is the same, but the invariant would speak of the list of windows that were yielded.
fn fitting_block(s: &[u8], from: usize) -> bool
    requires { from + 35 ≤ length s.now }
    ensures { result ≡ true → Fitting (from + 3) (from + 35) s.now }
{
    let mut bad = false;
    for i in 0..32 {
        bad |= misplaced(
            s[from + i],
            s[from + i + 1],
            s[from + i + 2],
            s[from + i + 3],
        );
    }
    !bad
}

// Whether the 32 bytes from `at` on are ASCII. Their maximum takes the compiler fewer instructions than one test of each.
fn plain_block(s: &[u8], at: usize) -> bool
    requires { at + 32 ≤ length s.now }
    ensures { result ≡ true → Plain at (at + 32) s.now }
{
    let mut highest: u8 = 0;
    for b in &s[at..at + 32] {
        highest = highest.max(*b);
    }
    highest < 128
}

// Whether the 32 bytes from `at` on can follow those before them. ASCII is tested first: it takes a tenth of the time.
fn block_fits(s: &[u8], at: usize) -> bool
    requires { (3 ≤ at) × (at + 32 ≤ length s.now) }
    ensures { result ≡ true → Fitting at (at + 32) s.now }
{
    if plain_block(s, at) {
        last_boundary(s, at - 3) == at
    } else {
        fitting_block(s, at - 3)
    }
}

// Whether the first three bytes can start a text.
fn first_fit(s: &[u8]) -> bool
    requires { 3 ≤ length s.now }
    ensures { result ≡ true → Fitting 0 3 s.now }
{
    let a = misplaced(0, 0, 0, s[0]);
    let b = misplaced(0, 0, s[0], s[1]);
    let c = misplaced(0, s[0], s[1], s[2]);
    !(a || b || c)
}

// How far a text is well-formed as its blocks of 32 bytes tell: where a character starts, all before it are well-formed.
// The last block ends where the text ends and may overlap the one before. A short text is left to the reader of characters.
fn blocks_end(s: &[u8]) -> usize
    ensures s_value { all_ok (chars (drop result s.now)) ≡ well_formed_of s.now }
    ensures upper_bound { result ≤ length s.now }
{
    let n = s.len();
    if n < 35 || !first_fit(s) {
        return 0;
    }
    let mut at = 3;
    // kept: no `for`: the place of a block that fails is asked for, and the last block overlaps the one before.
    while at + 32 <= n {
        if !block_fits(s, at) {
            return last_boundary(s, at - 3);
        }
        at += 32;
    }
    if !block_fits(s, n - 32) {
        return last_boundary(s, at - 3);
    }
    last_boundary(s, n - 3)
}

// Whether each character from `from` on is well-formed.
fn well_formed_from(s: &[u8], from: usize) -> bool
    requires { from ≤ length s.now }
    ensures { result ≡ all_ok (chars (drop from s.now)) }
{
    let mut at = from;
    // kept: no `for`: a step is as long as the character that is read.
    while at < s.len() {
        if s[at].is_ascii() {
            at += 1;
            continue;
        }
        let c = read_char(s, at);
        if !c.ok {
            return false;
        }
        at += c.len;
    }
    true
}

// Whether a text is well-formed UTF-8, by blocks first. It stays a call, so that `is_well_formed` is small enough to be inlined.
#[inline(never)]
pub fn long_well_formed(s: &[u8]) -> bool
    ensures { result ≡ well_formed_of s.now }
{
    well_formed_from(s, blocks_end(s))
}

fn is_plain(s: &[u8]) -> bool
    ensures { result ≡ true → Plain 0 (length s.now) s.now }
{
    s.iter().all(|b| b.is_ascii())
}

// Whether a text is well-formed UTF-8. A short one in ASCII, as labels are, pays for no call.
#[tactic(auto, using(crate::proofs::BlockLaws::plain_formed))]
pub fn is_well_formed(s: &[u8]) -> bool
    ensures { result ≡ well_formed_of s.now }
{
    if s.len() < 35 && is_plain(s) {
        return true;
    }
    long_well_formed(s)
}
