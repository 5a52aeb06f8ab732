// Writing recordings into lent buffers, piece by piece: each piece and each entry at the current ends.
// Pieces and entries go in the order of the recording that is read, and no entry is dropped.
// `bytes`, `numbers` and `texts` are the lent buffers; `content` is the recording that is read.
// Every step has one equation: the buffers at exit are those at entry with some items put at the ends (`add`).
// The data goes run by run, each straight to its final place: after it the buffer holds the finished result up to there, and beyond it what it held before (`RunHeld`).
#![tactic(auto)]

ghost use Rattle.std.specs.Prelude.{◌≡◌, true, false, ◌+◌, ◌-◌, ◌≤◌, ◌<◌, [], ◌∷◌, length, take, drop};
ghost use Rattle.share.specs.Placed.{placed_from};
ghost use Rattle.buffer.specs.Place.{over_at, part};
ghost use Rattle.buffer.specs.Held.{RunHeld};
ghost use Rattle.recording.specs.Recording.{entries_of, numbers_of_ranges, items};
ghost use Rattle.recording.specs.Read.{recording_of};
ghost use Rattle.recording.specs.Edit.{front, back, entries_only};
ghost use Rattle.recording.specs.Refusals.{bad_shape_of, data_limit, text_limit};
ghost use Rattle.writer.specs.Write.{out, add, Fits, numbers_for, text_for, ReadyIn, SoundIn, left_in, place_for, start_for, add_for, item_at};
ghost use Rattle.recording.specs.Check.{fault_of};
ghost use Rattle.writer.specs.Sizes.{sizes_fault, room_of_lengths};

use buffer::put;
use recording::{Entry, Recording, Refusal, entry_at};
use share::{Place, place_in_result, set_entry};

// A place in a content (data offset, index of the next entry's first number), and how far the three buffers are written.
#[derive(Clone, Copy)]
pub struct Cursor {
    pub at: usize,
    pub k: usize,
    pub d: usize,
    pub e: usize,
    pub t: usize,
}

// The cursor at the start of a content, with nothing written.
pub const START: Cursor = Cursor {
    at: 0,
    k: 0,
    d: 0,
    e: 0,
    t: 0,
};

// The lengths of a result, or of the buffers that are lent for it: data bytes, entry numbers, text bytes and line numbers.
#[derive(Clone, Copy)]
pub struct Lengths {
    pub bytes: usize,
    pub numbers: usize,
    pub texts: usize,
    pub lines: usize,
}

// The position of the entry at k; past every data if there is none.
pub fn place_at(entries: &[u32], k: usize) -> usize
    requires { k ≤ length entries.now }
    ensures { result ≡ place_for (entries_of (drop k entries.now)) }
{
    if entries.len() - k < 4 {
        return 4294967296;
    }
    entries[k] as usize
}

// Where an entry's text goes, behind the entries and the text that are written: a pop has none, a raw sequence goes to the text's end,
// a label to the part of the first push that has it.
#[tactic(auto, unfolding(crate::specs::Write::start_for, crate::specs::Write::add_for))]
fn place_of(kind: u32, numbers: &[u32], texts: &[u8], part: &[u8]) -> Place
    requires texts_len_bound { length texts.now ≤ text_limit }
    requires numbers_value { placed_from 0 [] (entries_of numbers.now) ≡ true }
    ensures { (result.start ≡ start_for kind part.now texts.now (entries_of numbers.now)) × (result.add ≡ add_for kind part.now texts.now (entries_of numbers.now)) }
{
    match kind {
        0 => place_in_result(numbers, texts, part),
        1 => Place { start: 0, add: 0 },
        _ => Place {
            start: texts.len() as u32,
            add: part.len(),
        },
    }
}

// Writes the bytes of `from` from a up to b at the data's end.
pub fn put_bytes(bytes: &mut [u8], from: &[u8], a: usize, b: usize, c: Cursor) -> Cursor
    requires { (a ≤ b) × (b ≤ length from.now) × (c.d + (b - a) ≤ length bytes.old) }
    ensures at_value { (result.at ≡ c.at) × (result.k ≡ c.k) × (result.d ≡ c.d + (b - a)) × (result.e ≡ c.e) × (result.t ≡ c.t) }
    ensures bytes_after { bytes.new ≡ over_at c.d (part a b from.now) bytes.old }
    ensures run_held { RunHeld c.d result.d (part a b from.now) bytes.old bytes.new }
{
    let d = put(bytes, c.d, from, a, b);
    Cursor { d, ..c }
}

// Writes an entry at the ends, with what its text adds to the text, and passes it.
pub fn put_entry(numbers: &mut [u32], texts: &mut [u8], text: &[u8], e: Entry, c: Cursor) -> Cursor
    requires len_value { bad_shape_of e.kind e.start e.len ≡ false }
    requires len_in_bounds { e.start + e.len ≤ length text.now }
    requires e_in_bounds { (c.e + 4 ≤ length numbers.old) × (c.t + length (text_for c.d numbers.old texts.old c (item_at text.now e)) ≤ length texts.old) }
    requires d_le_data_limit { (c.d ≤ data_limit) × (c.t ≤ text_limit) × (c.k + 4 ≤ 18446744073709551615) }
    requires numbers_value { placed_from 0 [] (entries_of (take c.e numbers.old)) ≡ true }
    ensures at_value { (result.at ≡ e.position) × (result.k ≡ c.k + 4) × (result.d ≡ c.d) × (result.e ≡ c.e + 4) × (result.t ≡ c.t + length (text_for c.d numbers.old texts.old c (item_at text.now e))) }
    ensures numbers_after { numbers.new ≡ over_at c.e (numbers_for c.d numbers.old texts.old c (item_at text.now e)) numbers.old }
    ensures texts_after { texts.new ≡ over_at c.t (text_for c.d numbers.old texts.old c (item_at text.now e)) texts.old }
{
    let start = e.start as usize;
    let end = start + e.len as usize;
    let k = c.e;
    let used = c.t;
    let p = place_of(e.kind, &numbers[0..k], &texts[0..used], &text[start..end]);
    set_entry(
        numbers,
        c.e,
        Entry {
            position: c.d as u32,
            kind: e.kind,
            start: p.start,
            len: e.len,
        },
    );
    let t = put(texts, c.t, text, start, start + p.add);
    Cursor {
        at: e.position as usize,
        k: c.k + 4,
        d: c.d,
        e: c.e + 4,
        t: t,
    }
}

// `keep`, entry by entry.
pub fn keep_entries(
    bytes: &mut [u8],
    numbers: &mut [u32],
    texts: &mut [u8],
    content: Recording<'_>,
    from: Cursor,
    n: usize,
) -> Cursor
    requires ready { ReadyIn (recording_of content) from }
    requires at_le_n { (from.at ≤ n) × (n ≤ length content.bytes.now) }
    requires fits { Fits (front (n - from.at) (left_in (recording_of content) from)) (out bytes.old numbers.old texts.old from) }
    ensures result_after { out bytes.new numbers.new texts.new result ≡ add
        (front (n - from.at) (left_in (recording_of content.entry) from)) (out bytes.old numbers.old texts.old from) }
    ensures result_value { left_in (recording_of content.entry) result ≡ back (n - from.at) (left_in (recording_of content.entry) from) }
    ensures ready_2 { ReadyIn (recording_of content.entry) result × (result.at ≡ n)
        × RunHeld from.d result.d (part from.at n content.entry.bytes.now) bytes.old bytes.new }
{
    let mut c = from;
    let mut p = place_at(content.entries, c.k);
    // kept: no `for`: which entry is next stands in the cursor that each step hands on.
    while p <= n {
        let e = entry_at(content.entries, c.k);
        c = put_bytes(bytes, content.bytes, c.at, p, c);
        c = put_entry(numbers, texts, content.text, e, c);
        p = place_at(content.entries, c.k);
    }
    c = put_bytes(bytes, content.bytes, c.at, n, c);
    Cursor { at: n, ..c }
}

// Carries the items before the byte n on, the entries at that place included. A stretch without entries is one copy; what goes entry by entry is a call, so that callers have the copy in place.
// The contract says what is left of the content (`left`), not the entry's index in the cursor: later steps see the index only through that, and as a value it would be this loop over again.
pub fn keep(
    bytes: &mut [u8],
    numbers: &mut [u32],
    texts: &mut [u8],
    content: Recording<'_>,
    from: Cursor,
    n: usize,
) -> Cursor
    requires ready { ReadyIn (recording_of content) from }
    requires at_le_n { (from.at ≤ n) × (n ≤ length content.bytes.now) }
    requires fits { Fits (front (n - from.at) (left_in (recording_of content) from)) (out bytes.old numbers.old texts.old from) }
    ensures result_after { out bytes.new numbers.new texts.new result ≡ add
        (front (n - from.at) (left_in (recording_of content.entry) from)) (out bytes.old numbers.old texts.old from) }
    ensures result_value { left_in (recording_of content.entry) result ≡ back (n - from.at) (left_in (recording_of content.entry) from) }
    ensures ready_2 { ReadyIn (recording_of content.entry) result × (result.at ≡ n)
        × RunHeld from.d result.d (part from.at n content.entry.bytes.now) bytes.old bytes.new }
{
    // kept: one variable, since `keep-threads` says of it that each run goes where the one before ended
    let mut c = from;
    if n < place_at(content.entries, c.k) {
        c = put_bytes(bytes, content.bytes, from.at, n, c);
        return Cursor { at: n, ..c };
    }
    c = keep_entries(bytes, numbers, texts, content, c, n);
    c
}

// `skip`, entry by entry.
pub fn skip_entries(
    bytes: &mut [u8],
    numbers: &mut [u32],
    texts: &mut [u8],
    content: Recording<'_>,
    from: Cursor,
    n: usize,
) -> Cursor
    requires ready { ReadyIn (recording_of content) from }
    requires at_le_n { (from.at ≤ n) × (n ≤ length content.bytes.now) }
    requires fits { Fits (entries_only (front (n - from.at) (left_in (recording_of content) from))) (out bytes.old numbers.old texts.old from) }
    ensures result_after { out bytes.new numbers.new texts.new result ≡ add
        (entries_only (front (n - from.at) (left_in (recording_of content.entry) from)))
        (out bytes.old numbers.old texts.old from) }
    ensures result_value { left_in (recording_of content.entry) result ≡ back (n - from.at) (left_in (recording_of content.entry) from) }
    ensures ready_2 { ReadyIn (recording_of content.entry) result × (result.at ≡ n) }
{
    let mut c = from;
    let mut p = place_at(content.entries, c.k);
    // kept: no `for`: which entry is next stands in the cursor that each step hands on.
    while p <= n {
        let e = entry_at(content.entries, c.k);
        c = put_entry(numbers, texts, content.text, e, c);
        p = place_at(content.entries, c.k);
    }
    Cursor { at: n, ..c }
}

// Carries on the entries before the byte n, those at that place included, and leaves the bytes.
// `bytes` is lent for the shape of the contract alone: all steps have the same. As in `keep`, the index is told by what is left.
pub fn skip(
    bytes: &mut [u8],
    numbers: &mut [u32],
    texts: &mut [u8],
    content: Recording<'_>,
    from: Cursor,
    n: usize,
) -> Cursor
    requires ready { ReadyIn (recording_of content) from }
    requires at_le_n { (from.at ≤ n) × (n ≤ length content.bytes.now) }
    requires fits { Fits (entries_only (front (n - from.at) (left_in (recording_of content) from))) (out bytes.old numbers.old texts.old from) }
    ensures result_after { out bytes.new numbers.new texts.new result ≡ add
        (entries_only (front (n - from.at) (left_in (recording_of content.entry) from)))
        (out bytes.old numbers.old texts.old from) }
    ensures result_value { left_in (recording_of content.entry) result ≡ back (n - from.at) (left_in (recording_of content.entry) from) }
    ensures ready_2 { ReadyIn (recording_of content.entry) result × (result.at ≡ n) }
{
    if n < place_at(content.entries, from.k) {
        return Cursor { at: n, ..from };
    }
    skip_entries(bytes, numbers, texts, content, from, n)
}

// Writes all of a recording at the ends; the place in the content that is read comes back as it was.
pub fn put_recording(
    bytes: &mut [u8],
    numbers: &mut [u32],
    texts: &mut [u8],
    content: Recording<'_>,
    c: Cursor,
) -> Cursor
    requires sound { SoundIn (recording_of content) }
    requires fits { Fits (items (recording_of content)) (out bytes.old numbers.old texts.old c) }
    ensures result_after { out bytes.new numbers.new texts.new result ≡ add (items (recording_of content.entry))
        (out bytes.old numbers.old texts.old c) }
    ensures at_value { (result.at ≡ c.at) × (result.k ≡ c.k) × RunHeld c.d result.d content.entry.bytes.now bytes.old bytes.new }
{
    let from = Cursor { at: 0, k: 0, ..c };
    let r = keep(bytes, numbers, texts, content, from, content.bytes.len());
    Cursor {
        at: c.at,
        k: c.k,
        ..r
    }
}

// Refusals 9 and 21 to 24 of a result of these sizes, in buffers of those.
#[tactic(auto, unfolding(crate::specs::Sizes::sizes_fault))]
pub fn settle(needed: Lengths, room: Lengths) -> Result<(), Refusal>
    ensures { fault_of result ≡ sizes_fault needed.bytes needed.numbers needed.texts needed.lines (room_of_lengths room) }
{
    if 1048576 < needed.bytes || 16384 < needed.numbers || 65536 < needed.texts {
        return Err(Refusal::ResultOverLimit);
    }
    if room.bytes < needed.bytes {
        return Err(Refusal::DataBufferTooShort);
    }
    if room.numbers < needed.numbers {
        return Err(Refusal::EntryBufferTooShort);
    }
    if room.texts < needed.texts {
        return Err(Refusal::TextBufferTooShort);
    }
    if room.lines < needed.lines {
        return Err(Refusal::LineListTooShort);
    }
    Ok(())
}
