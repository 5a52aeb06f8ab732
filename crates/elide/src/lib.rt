// Plain text: `complete_newline`, `elide_start` and `elide_end` (document 01, module 6).
// A call checks, measures, then writes: every refusal is settled before the first byte is written.
#![tactic(auto)]

ghost use Rattle.std.specs.Prelude.{◌≡◌, true, ◌++◌, ◌∷◌, [], ◌+◌, ◌-◌, ◌*◌, ◌≤◌, ◌<◌, length, drop};
ghost use Rattle.chars.specs.Chars.{well_formed_of};
ghost use Rattle.chars.specs.Cut.{truncate_start_pos_of, truncate_start_width};
ghost use Rattle.recording.specs.Outcome.{settle, Promised};
ghost use Rattle.recording.specs.Check.{fault_of};
ghost use Rattle.elide.specs.Back.{StartBefore};
ghost use Rattle.elide.specs.Elide.{trimmed, missing_newline, elide_end_of, elide_start_of, plain_fault, no_faults, plain_room, plain_result, lent, elide_end_outcome, elide_start_outcome};
ghost use Rattle.elide.specs.Elide.{complete_newline_outcome};

use buffer::put;
use chars::{Cut, cut_end, display_width, seen_at, trim_start_zero_width_chars};
use recording::{Done, Refusal};
use well_formed::long_well_formed;

// The data limit of a recording, which texts keep to.
const LIMIT: usize = 1048576;

// What a result is made of: two parts, one behind the other, and how wide they are.
#[derive(Clone, Copy)]
struct Parts<'a> {
    first: &'a [u8],
    second: &'a [u8],
    width: u64,
}

// The last place before `at` whose byte is not in 80..BF, or 0: in a well-formed text the character before `at` starts there.
fn start_before(s: &[u8], at: usize) -> usize
    requires { (0 < at) × (at ≤ length s.now) }
    ensures { StartBefore s.now at result }
{
    for i in (1..at).rev() {
        if !(0x80..=0xBF).contains(&s[i]) {
            return i;
        }
    }
    0
}

// Where the longest ending starts that is at most max wide, and its width. Only that ending and one character before it are read.
fn cut_back(s: &[u8], max: u64) -> Cut
    requires { well_formed_of s.now ≡ true }
    ensures pos_value { (result.pos ≡ truncate_start_pos_of max s.now) × (result.width ≡ truncate_start_width max s.now) }
    ensures pos_in_bounds { (result.pos ≤ length s.now) × (result.width ≤ max) × (result.width ≤ 2 * length s.now) }
{
    let mut at = s.len();
    let mut left = max;
    // kept: no `for`: a step is as long as the character that is read.
    while 0 < at {
        let p = start_before(s, at);
        let w = u64::from(seen_at(s, p).width);
        if left < w {
            break;
        }
        left -= w;
        at = p;
    }
    Cut {
        pos: at,
        width: max - left,
    }
}

// A text of which nothing is cut.
fn whole(text: &[u8], width: u64) -> Parts<'_>
    ensures { (result.first.now ++ result.second.now ≡ text.now) × (result.width ≡ width) }
{
    Parts {
        first: text,
        second: b"",
        width,
    }
}

// The text's part comes first. The text is cut once, to max less the ellipsis: that leaves what the Rust's two cuts leave.
// A text fits if its cut to max reaches its end. The second cut goes on from the first, so nothing is read twice, and nothing behind max.
fn parts_end<'a>(text: &'a [u8], ellipsis: &'a [u8], max: u64) -> Parts<'a>
    ensures { (result.first.now ++ result.second.now ≡ (elide_end_of max text.now ellipsis.now).text)
        × (result.width ≡ (elide_end_of max text.now ellipsis.now).columns) }
{
    let mark = display_width(ellipsis);
    if max < mark {
        let all = cut_end(text, max);
        if all.pos == text.len() {
            return whole(text, all.width);
        }
        let k = cut_end(ellipsis, max);
        return whole(&ellipsis[..k.pos], k.width);
    }
    let k = cut_end(text, max - mark);
    let more = cut_end(&text[k.pos..], max - k.width);
    if k.pos + more.pos == text.len() {
        return whole(text, k.width + more.width);
    }
    Parts {
        first: &text[..k.pos],
        second: ellipsis,
        width: k.width + mark,
    }
}

// The ellipsis's part comes first. As `parts_end`, from the text's end back: a text fits if its cut to max reaches its start.
fn parts_start<'a>(text: &'a [u8], ellipsis: &'a [u8], max: u64) -> Parts<'a>
    requires { (well_formed_of text.now ≡ true) × (well_formed_of ellipsis.now ≡ true) }
    ensures { (result.first.now ++ result.second.now ≡ (elide_start_of max text.now ellipsis.now).text)
        × (result.width ≡ (elide_start_of max text.now ellipsis.now).columns) }
{
    let mark = display_width(ellipsis);
    if max < mark {
        let all = cut_back(text, max);
        if all.pos == 0 {
            return whole(text, all.width);
        }
        let k = cut_back(ellipsis, max);
        return whole(trim_start_zero_width_chars(&ellipsis[k.pos..]), k.width);
    }
    let k = cut_back(text, max - mark);
    let more = cut_back(&text[..k.pos], max - k.width);
    if more.pos == 0 {
        return whole(text, k.width + more.width);
    }
    Parts {
        first: ellipsis,
        second: trim_start_zero_width_chars(&text[k.pos..]),
        width: k.width + mark,
    }
}

// The refusal that comes from the input.
#[tactic(auto, unfolding(crate::specs::Elide::plain_fault))]
fn check(text: &[u8], ellipsis: &[u8]) -> Result<(), Refusal>
    ensures { fault_of result ≡ plain_fault text.now ellipsis.now }
{
    if LIMIT < text.len() || LIMIT < ellipsis.len() {
        return Err(Refusal::DataTooLong);
    }
    if !long_well_formed(text) || !long_well_formed(ellipsis) {
        return Err(Refusal::TextIllFormed);
    }
    Ok(())
}

// Writes the two parts, unless the result passes the limit or the buffer; their width goes into the answer.
fn write_parts(out: &mut [u8], p: Parts<'_>) -> Result<Done, Refusal>
    ensures { Promised (settle no_faults (plain_room (length out.old)) (plain_result (p.entry.first.now ++ p.entry.second.now) p.entry.width))
        (lent out.old) (lent out.new) result }
{
    let n = p.first.len() + p.second.len();
    if LIMIT < n {
        return Err(Refusal::ResultOverLimit);
    }
    if out.len() < n {
        return Err(Refusal::DataBufferTooShort);
    }
    let at = put(out, 0, p.first, 0, p.first.len());
    let end = put(out, at, p.second, 0, p.second.len());
    Ok(Done {
        data: end,
        entries: 0,
        text: 0,
        number: p.width,
    })
}

// The text, shortened at its end to max_width with the ellipsis, which is added if something was cut.
pub fn elide_end(
    text: &[u8],
    ellipsis: &[u8],
    max_width: u32,
    out: &mut [u8],
) -> Result<Done, Refusal>
    ensures { Promised (elide_end_outcome (length out.old) text.now ellipsis.now max_width)
        (lent out.old) (lent out.new) result }
{
    check(text, ellipsis)?;
    write_parts(out, parts_end(text, ellipsis, u64::from(max_width)))
}

// The text, shortened at its start.
pub fn elide_start(
    text: &[u8],
    ellipsis: &[u8],
    max_width: u32,
    out: &mut [u8],
) -> Result<Done, Refusal>
    ensures { Promised (elide_start_outcome (length out.old) text.now ellipsis.now max_width)
        (lent out.old) (lent out.new) result }
{
    check(text, ellipsis)?;
    write_parts(out, parts_start(text, ellipsis, u64::from(max_width)))
}

// The 0A that is missing for a text that is empty or ends in it, if one is.
#[tactic(auto, using(crate::proofs::PartLaws::newline_none, crate::proofs::PartLaws::newline_there, crate::proofs::PartLaws::newline_missing))]
fn missing(s: &[u8]) -> &'static [u8]
    ensures { result.now ≡ missing_newline s.now }
{
    match s.last() {
        None | Some(0x0A) => b"",
        Some(_) => b"\n",
    }
}

// The text with 0A at its end, which is added unless the text is empty or ends in it.
pub fn complete_newline(text: &[u8], out: &mut [u8]) -> Result<Done, Refusal>
    ensures { Promised (complete_newline_outcome (length out.old) text.now) (lent out.old) (lent out.new) result }
{
    check(text, b"")?;
    write_parts(
        out,
        Parts {
            first: text,
            second: missing(text),
            width: 0,
        },
    )
}
