// One line of wrapped data: where the line that starts at `at` ends, how wide it is, and where the next one starts.
// `next_line` promises that the lines from `at` on are the one it found and those from its `next` on (`rest_lines` of `specs/Rest.antt`).
// Each character is read at most about three times: a head that does not fit is left at the character that shows it, and read again as the first of the next line.
#![tactic(auto)]

ghost use Rattle.std.specs.Prelude.{◌≡◌, true, false, ◌||◌, ◌∷◌, ◌+◌, ◌-◌, ◌*◌, ◌≤◌, ◌<◌, IfSome, leb, min, length, drop};
ghost use Rattle.chars.specs.Chars.{chars};
ghost use Rattle.layout.specs.Wrap.{line_of, line_width};
ghost use Rattle.line.specs.Rest.{rest_lines, word_text, space_len, limit_of_line};
ghost use Rattle.line.specs.Line.{seen_of, one_head, head_from, room_of_state, visible_len_of, in_line_text, goes_on_in, after_line_of, following};

use chars::{Seen, seen_at};

// A head of a word: how many bytes it takes, and how wide it is.
#[derive(Clone, Copy)]
pub struct Head {
    pub len: usize,
    pub width: u64,
}

// Where a line ends, where the next one starts, if there is one, and how wide the line is.
// `end` and `width` stand apart: side by side a caller that lists both would read them as one right after they were written as two, which waits for the memory.
#[derive(Clone, Copy)]
pub struct Next {
    pub end: usize,
    pub next: Option<usize>,
    pub width: u64,
}

// The character at i of the word that s begins with; none where that word ends.
#[tactic(auto, using(crate::proofs::LineLaws::past_end, crate::proofs::LineLaws::at_space, crate::proofs::LineLaws::at_newline, crate::proofs::LineLaws::at_char, crate::proofs::LineLaws::seen_inside))]
fn seen_in_word(s: &[u8], i: usize) -> Option<Seen>
    requires { i ≤ length (word_text s.now) }
    ensures value { result ≡ seen_of (chars (drop i (word_text s.now))) }
    ensures len_in_bounds { IfSome result (λ c. (i + c.len ≤ length (word_text s.now)) × (c.width ≤ 2)) }
{
    let b = *s.get(i)?;
    if b == b' ' || b == b'\n' {
        return None;
    }
    Some(seen_at(s, i))
}

// One character of the word, with the zero-width characters after it.
fn one_char(word: &[u8]) -> Head
    ensures value { result ≡ one_head word.now }
    ensures len_in_bounds { (result.len ≤ length word.now) × (result.width ≤ 2 * result.len) }
{
    let Some(first) = seen_in_word(word, 0) else {
        return Head { len: 0, width: 0 };
    };
    let mut at = first.len;
    // kept: no `for`: a step is as long as the character that is read.
    while let Some(c) = seen_in_word(word, at) {
        if c.width != 0 {
            break;
        }
        at += c.len;
    }
    Head {
        len: at,
        width: u64::from(first.width),
    }
}

// The head that ends at `cut`; if that place is 0, one character is taken with the zero-width characters after it.
#[tactic(auto, using(crate::proofs::RestLaws::word_le), unfolding(crate::specs::Line::head_from))]
fn head_at(word: &[u8], cut: usize, width: u64) -> Head
    requires { (cut ≤ length (word_text word.now)) × (width ≤ 2 * cut) }
    ensures value { result ≡ head_from cut width word.now }
    ensures len_in_bounds { (result.len ≤ length word.now) × (result.width ≤ 2 * result.len) }
{
    if cut == 0 {
        return one_char(word);
    }
    Head { len: cut, width }
}

// How many bytes 20 stand at n.
#[tactic(auto, unfolding(crate::specs::Rest::space_len))]
fn spaces_at(s: &[u8], n: usize) -> usize
    requires { n ≤ length s.now }
    ensures { (result ≡ space_len (drop n s.now)) × (n + result ≤ length s.now) }
{
    s[n..].iter().take_while(|b| **b == b' ').count()
}

// Whether the line of the data goes on here.
#[tactic(auto, unfolding(crate::specs::Line::in_line_text))]
fn in_line(s: &[u8]) -> bool
    ensures { result ≡ in_line_text s.now }
{
    s.first().is_some_and(|b| *b != b'\n')
}

// The width to break at; without breaking a number that no word reaches.
#[tactic(auto, unfolding(crate::specs::Rest::limit_of_line))]
fn limit_of(width: u32, break_words: bool) -> u64
    ensures { result ≡ limit_of_line width break_words }
{
    if break_words && 0 < width {
        u64::from(width)
    } else {
        u64::MAX
    }
}

// Whether a head that is `more` wide goes on the line, where `run` is used; the first of a line always does.
fn fits(first: bool, run: u64, more: u64, width: u32) -> bool
    requires { run + more < 0x10000000000000000 }
    ensures { result ≡ (first || leb (run + more) width) }
{
    first || run + more <= u64::from(width)
}

// What comes after a line that ends at `end` and is `width` wide, where s is left and starts at `here`: a 0A there is passed.
#[tactic(auto, unfolding(crate::specs::Line::after_line_of))]
fn after_line(s: &[u8], end: usize, width: u64, here: usize) -> Next
    requires { here + length s.now < 0x8000000000000000 }
    ensures { result ≡ after_line_of end width here s.now }
{
    let next = s.first().map(|b| here + usize::from(*b == b'\n'));
    Next { end, next, width }
}

// How wide the next head may be: the first of a line up to the width to break at, any other what is left of the line.
#[tactic(auto, unfolding(crate::specs::Line::room_of_state))]
fn room_of(first: bool, run: u64, width: u32, limit: u64) -> u64
    ensures { result ≡ room_of_state first run width limit }
{
    if first {
        limit
    } else {
        u64::from(width).saturating_sub(run)
    }
}

// How many visible ASCII bytes s begins with, at most `most`. Most words are such bytes, each a character of width 1, and two tests of the byte are enough for each.
#[tactic(auto, unfolding(crate::specs::Line::visible_len_of))]
fn visible_len(s: &[u8], most: u64) -> usize
    ensures { result ≡ min most (visible_len_of s.now) }
{
    let end = most.min(s.len() as u64) as usize;
    s[..end].iter().take_while(|b| b.is_ascii_graphic()).count()
}

// Whether a head may still come on the line after one with `gap` bytes 20 behind it, where s is left. After a head that was cut off its word none does: the next one never fits.
#[tactic(auto, unfolding(crate::specs::Line::goes_on_in))]
fn goes_on(s: &[u8], gap: usize) -> bool
    ensures { result ≡ goes_on_in gap s.now }
{
    gap != 0 && in_line(s)
}

// The line that starts at `at`, its width, and where the next one starts. The width is the run less the whitespace after the last word, so no byte is read for it.
pub fn next_line(data: &[u8], at: usize, width: u32, break_words: bool) -> Next
    requires { at ≤ length «data».now }
    ensures data_value { rest_lines width break_words at (drop at «data».now) ≡ line_of at result.end ∷ following width break_words «data».now result }
    ensures at_le_end { (at ≤ result.end) × (result.end ≤ length «data».now) × IfSome result.next (λ n. (n ≤ length «data».now) × (at < n) × (result.end ≤ n)) }
    ensures width_value { (result.width ≡ line_width «data».now (line_of at result.end)) × (result.width ≤ 2 * (result.end - at)) }
{
    let mut word = &data[at..];
    if !in_line(word) {
        return after_line(word, at, 0, at);
    }
    let limit = limit_of(width, break_words);
    let mut gap = 0;
    let mut run: u64 = 0;
    let mut first = true;
    let mut going = true;
    // kept: the labelled loop over words, and in it one that yields the cut by `break`: document 01 names these forms.
    'words: while going {
        let room = room_of(first, run, width, limit);
        let mut i = visible_len(word, room);
        let mut left = room - i as u64;
        // The place of the first character that would pass the width.
        let cut = loop {
            let Some(c) = seen_in_word(word, i) else {
                break i;
            };
            let w = u64::from(c.width);
            if left < w {
                // The head goes on past the room that is left.
                if w <= limit - (room - left) {
                    break 'words;
                }
                break i;
            }
            left -= w;
            i += c.len;
        };
        let head = head_at(word, cut, room - left);
        let len = head.len;
        let wide = head.width;
        if !fits(first, run, wide, width) {
            break 'words;
        }
        gap = spaces_at(word, len);
        let end = len + gap;
        run += wide + gap as u64;
        first = false;
        word = &word[end..];
        going = goes_on(word, gap);
    }
    let here = data.len() - word.len();
    after_line(word, here - gap, run - gap as u64, here)
}
