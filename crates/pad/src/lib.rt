// Padding: `write_padded_start`, `write_padded_end`, `write_padded_centered` (document 01, module 3).
// Each keeps one promise, `Leaves` (layout), for its job. All three are `write_padded` with a side.
// `bytes`, `numbers` and `texts` are the lent buffers; `content` is the recording that is padded.
#![tactic(auto)]

ghost use Rattle.std.specs.Prelude.{◌≡◌, ◌+◌, ◌≤◌, length};
ghost use Rattle.buffer.specs.Place.{over_at, part};
ghost use Rattle.recording.specs.Recording.{items};
ghost use Rattle.recording.specs.Read.{recording_of};
ghost use Rattle.writer.specs.Write.{out, add, blank, Fits, SoundIn};
ghost use Rattle.layout.specs.Layout.{padding, fill_count_of, with_second, pad_start, pad_end, pad_centered};
ghost use Rattle.layout.specs.Lent.{lent_of, Leaves};
ghost use Rattle.pad.specs.Padding.{repeated, once_if_of, sides, left_of, kind_of};

use buffer::{put, put_byte_times};
use chars::display_width;
use recording::{Done, Recording, Refusal, entry_at};
use recording_check::check_both;
use share::text_size;
use writer::{Cursor, Lengths, START, place_at, put_entry, put_recording, settle};

// Where the fill goes.
#[derive(Clone, Copy)]
enum Side {
    // All of it before the content.
    Start,
    // All of it behind the content.
    End,
    // Half of it, rounded down, before the content and the rest behind it.
    Centered,
}

// Writes the bytes of `from` from a up to b n times, copy by copy.
fn put_copies(out: &mut [u8], at: usize, from: &[u8], a: usize, b: usize, n: usize) -> usize
    requires { (a ≤ b) × (b ≤ length from.now) × (at + length (repeated n (part a b from.now)) ≤ length out.old) }
    ensures { (result ≡ at + length (repeated n (part a b from.now))) × (out.new ≡ over_at at (repeated n (part a b from.now)) out.old) }
{
    let mut d = at;
    for _ in 0..n {
        d = put(out, d, from, a, b);
    }
    d
}

// The same at any length of the piece: none is no work however large n is, and a single byte is stored, not copied.
fn put_piece(out: &mut [u8], at: usize, from: &[u8], a: usize, b: usize, n: usize) -> usize
    requires { (a ≤ b) × (b ≤ length from.now) × (at + length (repeated n (part a b from.now)) ≤ length out.old) }
    ensures { (result ≡ at + length (repeated n (part a b from.now))) × (out.new ≡ over_at at (repeated n (part a b from.now)) out.old) }
{
    if a == b {
        return at;
    }
    if a + 1 == b {
        return put_byte_times(out, at, from[a], n);
    }
    put_copies(out, at, from, a, b, n)
}

// Writes the bytes of `from` from a up to b n times at the data's end.
fn put_times(bytes: &mut [u8], from: &[u8], a: usize, b: usize, n: usize, c: Cursor) -> Cursor
    requires { (a ≤ b) × (b ≤ length from.now) × (c.d + length (repeated n (part a b from.now)) ≤ length bytes.old) }
    ensures at_value { (result.at ≡ c.at) × (result.k ≡ c.k) × (result.d ≡ c.d + length (repeated n (part a b from.now))) × (result.e ≡ c.e) × (result.t ≡ c.t) }
    ensures bytes_after { bytes.new ≡ over_at c.d (repeated n (part a b from.now)) bytes.old }
{
    let d = put_piece(bytes, c.d, from, a, b, n);
    Cursor { d, ..c }
}

// Writes the pieces of the fill, each n times before the next, and its entries between them; at count 0 nothing.
fn put_padding(
    bytes: &mut [u8],
    numbers: &mut [u32],
    texts: &mut [u8],
    fill: Recording<'_>,
    n: usize,
    c: Cursor,
) -> Cursor
    requires sound { SoundIn (recording_of fill) }
    requires fits { Fits (padding n (items (recording_of fill))) (out bytes.old numbers.old texts.old c) }
    ensures { out bytes.new numbers.new texts.new result
        ≡ add (padding n (items (recording_of fill.entry))) (out bytes.old numbers.old texts.old c) }
{
    if n == 0 {
        return c;
    }
    let mut f = Cursor { at: 0, k: 0, ..c };
    let mut p = place_at(fill.entries, 0);
    // kept: no `for`: which entry is next stands in the cursor that each step hands on.
    while p <= fill.bytes.len() {
        let e = entry_at(fill.entries, f.k);
        f = put_times(bytes, fill.bytes, f.at, p, n, f);
        f = put_entry(numbers, texts, fill.text, e, f);
        p = place_at(fill.entries, f.k);
    }
    put_times(bytes, fill.bytes, f.at, fill.bytes.len(), n, f)
}

// Fill count = min width less content width, not below 0.
#[tactic(auto, unfolding(layout::specs::Layout::fill_count_of))]
fn fill_count(content: &[u8], min_width: u32) -> usize
    ensures value { result ≡ fill_count_of min_width content.now }
    ensures upper_bound { result ≤ 4294967295 }
{
    u64::from(min_width).saturating_sub(display_width(content)) as usize
}

// How many of n times come before the content.
#[tactic(auto, unfolding(crate::specs::Padding::left_of))]
fn left_count(side: Side, n: usize) -> usize
    ensures { (result ≡ left_of side n) × (result ≤ n) }
{
    match side {
        Side::Start => n,
        Side::End => 0,
        Side::Centered => n / 2,
    }
}

// How often a side with `count` times the fill has the fill's entries.
#[tactic(auto, unfolding(crate::specs::Padding::once_if_of))]
fn once_if(count: usize) -> usize
    ensures { (result ≡ once_if_of count) × (result ≤ 1) }
{
    usize::from(count != 0)
}

// Writes the content between `left` and `right` times the fill.
fn put_padded(
    bytes: &mut [u8],
    numbers: &mut [u32],
    texts: &mut [u8],
    content: Recording<'_>,
    fill: Recording<'_>,
    left: usize,
    right: usize,
) -> Cursor
    requires sound { SoundIn (recording_of content) × SoundIn (recording_of fill) }
    requires fits { Fits (sides left right (items (recording_of fill)) (items (recording_of content)))
        (blank bytes.old numbers.old texts.old) }
    ensures { out bytes.new numbers.new texts.new result
        ≡ add (sides left right (items (recording_of fill.entry))
        (items (recording_of content.entry))) (blank bytes.old numbers.old texts.old) }
{
    let a = put_padding(bytes, numbers, texts, fill, left, START);
    let b = put_recording(bytes, numbers, texts, content, a);
    put_padding(bytes, numbers, texts, fill, right, b)
}

// The three calls. The sizes come first, by products: nothing is written and no count is walked before they are granted.
fn write_padded(
    content: Recording<'_>,
    fill: Recording<'_>,
    side: Side,
    min_width: u32,
    bytes: &mut [u8],
    numbers: &mut [u32],
    texts: &mut [u8],
) -> Result<Done, Refusal>
    ensures { Leaves (with_second (kind_of side) min_width (recording_of fill.entry))
        (recording_of content.entry)
        (lent_of bytes.old numbers.old texts.old) (lent_of bytes.new numbers.new texts.new) result }
{
    let sizes = check_both(content, fill)?;
    let count = fill_count(content.bytes, min_width);
    let left = left_count(side, count);
    let right = count - left;
    let times = once_if(left) + once_if(right);
    let shared = text_size(
        sizes.content + times * sizes.second,
        texts.len(),
        content,
        fill,
        times,
    );
    settle(
        Lengths {
            bytes: content.bytes.len() + count * fill.bytes.len(),
            numbers: content.entries.len() + times * fill.entries.len(),
            texts: shared,
            lines: 0,
        },
        Lengths {
            bytes: bytes.len(),
            numbers: numbers.len(),
            texts: texts.len(),
            lines: 0,
        },
    )?;
    let c = put_padded(bytes, numbers, texts, content, fill, left, right);
    Ok(Done {
        data: c.d,
        entries: c.e,
        text: c.t,
        number: 0,
    })
}

// Writes the fill before a content that is narrower than the min width: as often as width is missing, each piece that often before the next.
#[tactic(auto, unfolding(crate::specs::Padding::kind_of))]
pub fn write_padded_start(
    content: Recording<'_>,
    fill: Recording<'_>,
    min_width: u32,
    bytes: &mut [u8],
    numbers: &mut [u32],
    texts: &mut [u8],
) -> Result<Done, Refusal>
    ensures { Leaves (pad_start min_width (recording_of fill.entry))
        (recording_of content.entry)
        (lent_of bytes.old numbers.old texts.old) (lent_of bytes.new numbers.new texts.new) result }
{
    write_padded(content, fill, Side::Start, min_width, bytes, numbers, texts)
}

// The same with the fill behind the content.
#[tactic(auto, unfolding(crate::specs::Padding::kind_of))]
pub fn write_padded_end(
    content: Recording<'_>,
    fill: Recording<'_>,
    min_width: u32,
    bytes: &mut [u8],
    numbers: &mut [u32],
    texts: &mut [u8],
) -> Result<Done, Refusal>
    ensures { Leaves (pad_end min_width (recording_of fill.entry))
        (recording_of content.entry)
        (lent_of bytes.old numbers.old texts.old) (lent_of bytes.new numbers.new texts.new) result }
{
    write_padded(content, fill, Side::End, min_width, bytes, numbers, texts)
}

// The same with half of the fill, rounded down, before the content and the rest behind it.
#[tactic(auto, unfolding(crate::specs::Padding::kind_of))]
pub fn write_padded_centered(
    content: Recording<'_>,
    fill: Recording<'_>,
    min_width: u32,
    bytes: &mut [u8],
    numbers: &mut [u32],
    texts: &mut [u8],
) -> Result<Done, Refusal>
    ensures { Leaves (pad_centered min_width (recording_of fill.entry))
        (recording_of content.entry)
        (lent_of bytes.old numbers.old texts.old) (lent_of bytes.new numbers.new texts.new) result }
{
    write_padded(
        content,
        fill,
        Side::Centered,
        min_width,
        bytes,
        numbers,
        texts,
    )
}
