// Wrapping data bytes: the lines, first byte, end and display width of each, in a lent line list.
// `wrap_bytes` answers and leaves what `wrap_bytes_outcome` of `specs/WrapBytes.antt` says, refusals included.
// A refused call touches nothing: the lines are counted first, unless the list takes as many as the data can have.
#![tactic(auto)]

ghost use Rattle.std.specs.Prelude.{◌≡◌, [], ◌∷◌, ◌+◌, ◌*◌, ◌≤◌, leb, length};
ghost use Rattle.buffer.specs.Place.{over, over_at};
ghost use Rattle.recording.specs.Refusals.{data_limit};
ghost use Rattle.recording.specs.Outcome.{Promised, lent_lines};
ghost use Rattle.layout.specs.Wrap.{line_numbers, wrap_lines_of};
ghost use Rattle.wrap_lines.specs.WrapBytes.{line_size, lines_of, wrap_bytes_outcome};

use line::next_line;
use recording::{Done, Refusal};

const DATA_LIMIT: usize = 1048576;

// The numbers of a line in the line list: first byte, end and display width.
pub const LINE_NUMBERS: usize = 3;

// How many lines there are, and how many bytes of the data they show.
#[derive(Clone, Copy)]
pub struct Lines {
    pub count: usize,
    pub bytes: usize,
}

// The lines that the data is wrapped into, counted.
#[tactic(auto, using(crate::proofs::WrapLaws::count_last), unfolding(crate::specs::WrapBytes::lines_of))]
pub fn count_lines(data: &[u8], width: u32, break_words: bool) -> Lines
    requires { length «data».now ≤ data_limit }
    ensures value { result ≡ lines_of (wrap_lines_of width break_words «data».now) }
    ensures le_count { (1 ≤ result.count) × (result.count ≤ length «data».now + 1) × (result.bytes ≤ length «data».now) }
{
    let mut count = 0;
    let mut bytes = 0;
    let mut at = 0;
    // kept: no `for`: whether a line follows is known once the one before is found.
    loop {
        let l = next_line(data, at, width, break_words);
        count += 1;
        bytes += l.end - at;
        let Some(next) = l.next else {
            break;
        };
        at = next;
    }
    Lines { count, bytes }
}

// Puts the numbers of one line at k, and returns the place after them.
#[tactic(auto, using(crate::proofs::WrapLaws::three_stores))]
pub fn set_line(lines: &mut [u32], k: usize, first: u32, end: u32, width: u32) -> usize
    requires { k + line_size ≤ length lines.old }
    ensures { (result ≡ k + line_size) × (lines.new ≡ over_at k (first ∷ end ∷ width ∷ []) lines.old) }
{
    lines[k] = first;
    lines[k + 1] = end;
    lines[k + 2] = width;
    k + LINE_NUMBERS
}

// The lines that the data is wrapped into, written; returns how many they are.
#[tactic(auto, using(crate::proofs::WrapLaws::start, crate::proofs::WrapLaws::next))]
fn write_lines(data: &[u8], width: u32, break_words: bool, lines: &mut [u32]) -> usize
    requires data_len_bound { length «data».now ≤ data_limit }
    requires data_in_bounds { length (line_numbers «data».now (wrap_lines_of width break_words «data».now)) ≤ length lines.old }
    ensures lines_after { lines.new ≡ over (line_numbers «data».now (wrap_lines_of width break_words «data».now)) lines.old }
    ensures value { result ≡ length (wrap_lines_of width break_words «data».now) }
{
    let mut k = 0;
    let mut at = 0;
    // kept: no `for`: whether a line follows is known once the one before is found.
    loop {
        let l = next_line(data, at, width, break_words);
        let end = l.end;
        k = set_line(lines, k, at as u32, end as u32, l.width as u32);
        let Some(next) = l.next else {
            break;
        };
        at = next;
    }
    k / LINE_NUMBERS
}

// How many numbers so many lines take in the line list.
pub fn numbers_of(count: usize) -> usize
    requires { count ≤ data_limit + 1 }
    ensures { result ≡ count * line_size }
{
    count * LINE_NUMBERS
}

// Whether the lines fit in a list of so many numbers. There is at most one line a byte and one more, so that they need not be counted for a list that takes these.
#[tactic(auto, using(crate::proofs::WrapLaws::numbers_length, crate::proofs::BoundLaws::lines_few), unfolding(crate::specs::WrapBytes::lines_of))]
fn lines_fit(data: &[u8], width: u32, break_words: bool, room: usize) -> bool
    requires { length «data».now ≤ data_limit }
    ensures { result ≡ leb (length (line_numbers «data».now (wrap_lines_of width break_words «data».now))) room }
{
    numbers_of(data.len() + 1) <= room
        || numbers_of(count_lines(data, width, break_words).count) <= room
}

// The lines that the data is wrapped into, in `lines`; the number that comes back is their count.
#[tactic(auto, using(crate::proofs::WrapLaws::outcome_long, crate::proofs::WrapLaws::outcome_short, crate::proofs::WrapLaws::outcome_done, crate::proofs::BoundLaws::lines_few), unfolding(recording::specs::Outcome::returned, recording::specs::Outcome::lent_after, buffer::specs::Place::over))]
pub fn wrap_bytes(
    data: &[u8],
    width: u32,
    break_words: bool,
    lines: &mut [u32],
) -> Result<Done, Refusal>
    ensures promised { Promised (wrap_bytes_outcome width break_words «data».now (length lines.old))
        (lent_lines lines.old) (lent_lines lines.new) result }
    ensures data_in_bounds { length «data».now ≤ data_limit
        → length (wrap_lines_of width break_words «data».now) ≤ length «data».now + 1 }
{
    if DATA_LIMIT < data.len() {
        return Err(Refusal::DataTooLong);
    }
    if !lines_fit(data, width, break_words, lines.len()) {
        return Err(Refusal::LineListTooShort);
    }
    let count = write_lines(data, width, break_words, lines);
    Ok(Done {
        data: 0,
        entries: 0,
        text: 0,
        number: count as u64,
    })
}
