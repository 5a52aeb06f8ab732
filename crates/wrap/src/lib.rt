// `write_wrapped` (document 01, module 4): a recording whose lines are wrapped and joined by 0A, and the lines in a lent line list.
// The call checks the content, asks whether the result fits, and only then writes. No entry is dropped.
// An added 0A comes after the entries at the finished line's end, so it has the labels of the content byte there.
// `bytes`, `numbers` and `texts` are the lent buffers; `content` is the recording that is wrapped.
#![tactic(auto)]

ghost use Rattle.std.specs.Prelude.{◌≡◌, ◌+◌, ◌-◌, ◌≤◌, [], ◌∷◌, length};
ghost use Rattle.buffer.specs.Place.{over, over_at};
ghost use Rattle.recording.specs.Read.{recording_of};
ghost use Rattle.recording.specs.Check.{fault_of};
ghost use Rattle.recording.specs.Refusals.{data_limit};
ghost use Rattle.writer.specs.Sizes.{sizes_fault, room_of_lengths};
ghost use Rattle.writer.specs.Write.{out, add, Fits, ReadyIn, SoundIn, left_in, blank};
ghost use Rattle.layout.specs.Wrap.{line_numbers, wrap_lines_of};
ghost use Rattle.layout.specs.Layout.{wrap, result_items};
ghost use Rattle.layout.specs.Lent.{lent_lined, Leaves};
ghost use Rattle.wrap.specs.Plan.{line_items, line_left, joined_len_of};

use line::next_line;
use recording::{Done, Recording, Refusal};
use recording_check::check;
use share::own_size;
use wrap_lines::{LINE_NUMBERS, count_lines, numbers_of, set_line};
use writer::{Cursor, Lengths, START, keep, put_bytes, settle, skip};

// Where the writing has come to, and how many lines it has listed.
#[derive(Clone, Copy)]
pub struct Wrapped {
    pub cursor: Cursor,
    pub count: usize,
}

// One line: leaves the bytes up to `first` out and carries those up to `end` on.
fn put_line(
    bytes: &mut [u8],
    numbers: &mut [u32],
    texts: &mut [u8],
    content: Recording<'_>,
    from: Cursor,
    first: usize,
    end: usize,
) -> Cursor
    requires ready { ReadyIn (recording_of content) from }
    requires at_le_first { (from.at ≤ first) × (first ≤ end) × (end ≤ length content.bytes.now) }
    requires fits { Fits (line_items (first - from.at) (end - first) (left_in (recording_of content) from)) (out bytes.old numbers.old texts.old from) }
    ensures result_after { out bytes.new numbers.new texts.new result
        ≡ add (line_items (first - from.at) (end - first) (left_in (recording_of content.entry) from))
        (out bytes.old numbers.old texts.old from) }
    ensures result_value { left_in (recording_of content.entry) result
        ≡ line_left (first - from.at) (end - first) (left_in (recording_of content.entry) from) }
    ensures ready_2 { ReadyIn (recording_of content.entry) result × (result.at ≡ end) }
{
    let c = skip(bytes, numbers, texts, content, from, first);
    keep(bytes, numbers, texts, content, c, end)
}

// The 0A between a line and the next.
fn put_newline(bytes: &mut [u8], c: Cursor) -> Cursor
    requires { c.d + 1 ≤ length bytes.old }
    ensures at_value { (result.at ≡ c.at) × (result.k ≡ c.k) × (result.d ≡ c.d + 1) × (result.e ≡ c.e) × (result.t ≡ c.t) }
    ensures bytes_after { bytes.new ≡ over_at c.d (0x0A ∷ []) bytes.old }
{
    put_bytes(bytes, b"\n", 0, 1, c)
}

// All lines, joined by 0A, and the entries after the last one; and the lines in the line list.
fn put_wrapped(
    bytes: &mut [u8],
    numbers: &mut [u32],
    texts: &mut [u8],
    lines: &mut [u32],
    content: Recording<'_>,
    width: u32,
    break_words: bool,
) -> Wrapped
    requires sound { SoundIn (recording_of content) }
    requires fits { Fits (result_items (wrap width break_words) (recording_of content)) (blank bytes.old numbers.old texts.old) }
    requires content_in_bounds { length (line_numbers content.bytes.now (wrap_lines_of width break_words content.bytes.now)) ≤ length lines.old }
    ensures cursor_after { out bytes.new numbers.new texts.new result.cursor
        ≡ add (result_items (wrap width break_words) (recording_of content.entry))
        (blank bytes.old numbers.old texts.old) }
    ensures lines_after { (lines.new ≡ over (line_numbers content.entry.bytes.now (wrap_lines_of width break_words content.entry.bytes.now)) lines.old)
        × (result.count ≡ length (wrap_lines_of width break_words content.entry.bytes.now)) }
{
    let mut c = START;
    let mut at = 0;
    let mut k = 0;
    // kept: no `for`: whether a line follows is known once the one before is found.
    loop {
        let l = next_line(content.bytes, at, width, break_words);
        k = set_line(lines, k, at as u32, l.end as u32, l.width as u32);
        c = put_line(bytes, numbers, texts, content, c, at, l.end);
        let Some(next) = l.next else {
            break;
        };
        c = put_newline(bytes, c);
        at = next;
    }
    Wrapped {
        cursor: skip(bytes, numbers, texts, content, c, content.bytes.len()),
        count: k / LINE_NUMBERS,
    }
}

// The most bytes that the lines joined by 0A can take. Without breaking, each added 0A stands in the place of at least one byte.
fn most_bytes(content: &[u8], width: u32, break_words: bool) -> usize
    requires { length content.now ≤ data_limit }
    ensures { joined_len_of (wrap_lines_of width break_words content.now) ≤ result }
{
    if break_words && width != 0 {
        2 * content.len()
    } else {
        content.len()
    }
}

// Refusals 9 and 21 to 24 of the result, which has e entry numbers and a text for which t stands, in buffers of these lengths.
// Where the largest result has room, the lines need not be counted.
fn settle_wrapped(
    content: &[u8],
    width: u32,
    break_words: bool,
    e: usize,
    t: usize,
    room: Lengths,
) -> Result<(), Refusal>
    requires { length content.now ≤ data_limit }
    ensures { fault_of result
        ≡ sizes_fault (joined_len_of (wrap_lines_of width break_words content.now)) e t (length (line_numbers content.now (wrap_lines_of width break_words content.now)))
        (room_of_lengths room) }
{
    let largest = Lengths {
        bytes: most_bytes(content, width, break_words),
        numbers: e,
        texts: t,
        lines: numbers_of(content.len() + 1),
    };
    if settle(largest, room).is_ok() {
        return Ok(());
    }
    let found = count_lines(content, width, break_words);
    let exact = Lengths {
        bytes: found.bytes + (found.count - 1),
        lines: numbers_of(found.count),
        ..largest
    };
    settle(exact, room)
}

// A recording whose lines are wrapped, and the lines in `lines`; the number that comes back is their count.
pub fn write_wrapped(
    content: Recording<'_>,
    width: u32,
    break_words: bool,
    bytes: &mut [u8],
    numbers: &mut [u32],
    texts: &mut [u8],
    lines: &mut [u32],
) -> Result<Done, Refusal>
    ensures { Leaves (wrap width break_words) (recording_of content.entry)
        (lent_lined bytes.old numbers.old texts.old lines.old)
        (lent_lined bytes.new numbers.new texts.new lines.new) result }
{
    let size = check(content)?;
    let shared = own_size(size, texts.len(), content);
    let room = Lengths {
        bytes: bytes.len(),
        numbers: numbers.len(),
        texts: texts.len(),
        lines: lines.len(),
    };
    settle_wrapped(
        content.bytes,
        width,
        break_words,
        content.entries.len(),
        shared,
        room,
    )?;
    let w = put_wrapped(bytes, numbers, texts, lines, content, width, break_words);
    Ok(Done {
        data: w.cursor.d,
        entries: w.cursor.e,
        text: w.cursor.t,
        number: w.count as u64,
    })
}
