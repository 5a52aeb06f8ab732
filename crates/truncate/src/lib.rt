// The two truncating calls (document 01, module 2): a content wider than max is cut, and an ellipsis stands for what is gone.
// Each call checks both recordings, measures, asks whether the result fits, and only then writes. No entry is dropped, also not of what is cut.
// What is kept of content and ellipsis is a run each, and goes once, straight to its final place: after each run the data buffer holds the finished result up to there,
// and beyond it what it held before (`HoldsUpTo`).
// `bytes`, `numbers` and `texts` are the lent buffers; `content` is the recording that is cut.
// kept: the functions that write stand twice, for the end and for the start, since the theorems on the order of the runs (`LendsOn`) list the calls of each function:
// of one function by the end that is cut they would list both orders, and its contract would choose by the end what these two say outright.
#![tactic(auto)]

ghost use Rattle.std.specs.Prelude.{◌≡◌, true, Ok, ◌+◌, ◌-◌, ◌*◌, ◌≤◌, length, take, drop};
ghost use Rattle.buffer.specs.Held.{HoldsUpTo, RunHeld};
ghost use Rattle.recording.specs.Recording.{entries_of, items};
ghost use Rattle.recording.specs.Read.{recording_of};
ghost use Rattle.recording.specs.Check.{fault_of, BothChecked};
ghost use Rattle.recording.specs.Edit.{edit};
ghost use Rattle.share.specs.Sizes.{text_size_of};
ghost use Rattle.writer.specs.Write.{out, add, Fits, SoundIn, blank};
ghost use Rattle.writer.specs.Sizes.{sizes_fault, room_of_lengths};
ghost use Rattle.layout.specs.Layout.{cut_end_of, cut_start_of, truncate_end, truncate_start};
ghost use Rattle.layout.specs.Lent.{lent_of, Leaves};
ghost use Rattle.truncate.specs.Planned.{end_items, start_items, finished_end, finished_start};

use recording::{Done, Recording, Refusal, TextSizes};
use recording_check::check_both;
use share::text_size;
use truncate_plan::{Plan, measure_end, measure_start};
use writer::{Cursor, Lengths, START, keep, put_recording, settle, skip_entries};

// Writes a recording at the ends up to the byte n; of the rest the entries.
fn put_up_to(
    bytes: &mut [u8],
    numbers: &mut [u32],
    texts: &mut [u8],
    content: Recording<'_>,
    c: Cursor,
    n: usize,
) -> Cursor
    requires sound { SoundIn (recording_of content) }
    requires n_in_bounds { n ≤ length content.bytes.now }
    requires fits { Fits (edit (cut_end_of n content.bytes.now) (items (recording_of content))) (out bytes.old numbers.old texts.old c) }
    ensures result_after { out bytes.new numbers.new texts.new result ≡ add
        (edit (cut_end_of n content.entry.bytes.now) (items (recording_of content.entry)))
        (out bytes.old numbers.old texts.old c) }
    ensures run_held { RunHeld c.d result.d (take n content.entry.bytes.now) bytes.old bytes.new }
{
    let from = Cursor { at: 0, k: 0, ..c };
    let there = keep(bytes, numbers, texts, content, from, n);
    skip_entries(bytes, numbers, texts, content, there, content.bytes.len())
}

// Writes a recording at the ends from the byte n on; of what comes before it the entries.
fn put_from(
    bytes: &mut [u8],
    numbers: &mut [u32],
    texts: &mut [u8],
    content: Recording<'_>,
    c: Cursor,
    n: usize,
) -> Cursor
    requires sound { SoundIn (recording_of content) }
    requires n_in_bounds { n ≤ length content.bytes.now }
    requires fits { Fits (edit (cut_start_of n) (items (recording_of content))) (out bytes.old numbers.old texts.old c) }
    ensures result_after { out bytes.new numbers.new texts.new result ≡ add
        (edit (cut_start_of n) (items (recording_of content.entry))) (out bytes.old numbers.old texts.old c) }
    ensures run_held { RunHeld c.d result.d (drop n content.entry.bytes.now) bytes.old bytes.new }
{
    let from = Cursor { at: 0, k: 0, ..c };
    let there = skip_entries(bytes, numbers, texts, content, from, n);
    keep(bytes, numbers, texts, content, there, content.bytes.len())
}

// Writes the second run of the end call, what is kept of the ellipsis. The first has to stand in the buffer; the content is lent to say so.
fn put_end_ellipsis(
    bytes: &mut [u8],
    numbers: &mut [u32],
    texts: &mut [u8],
    content: Recording<'_>,
    ellipsis: Recording<'_>,
    p: Plan,
    c: Cursor,
) -> Cursor
    requires sound { SoundIn (recording_of ellipsis) }
    requires cut_value { (p.cut ≡ true) × (p.content ≤ length content.bytes.now) × (p.ellipsis ≤ length ellipsis.bytes.now) }
    requires d_value { (c.d ≡ p.content) × HoldsUpTo c.d (finished_end p content.bytes.now ellipsis.bytes.now) bytes.old bytes.old }
    requires fits { Fits (edit (cut_end_of p.ellipsis ellipsis.bytes.now) (items (recording_of ellipsis))) (out bytes.old numbers.old texts.old c) }
    ensures result_after { out bytes.new numbers.new texts.new result ≡ add
        (edit (cut_end_of p.ellipsis ellipsis.entry.bytes.now) (items (recording_of ellipsis.entry)))
        (out bytes.old numbers.old texts.old c) }
    ensures holds_up_to { HoldsUpTo result.d (finished_end p content.entry.bytes.now ellipsis.entry.bytes.now) bytes.old bytes.new }
{
    put_up_to(bytes, numbers, texts, ellipsis, c, p.ellipsis)
}

// Writes the second run of the start call, what is kept of the content. The first has to stand in the buffer; the ellipsis is lent to say so.
fn put_start_content(
    bytes: &mut [u8],
    numbers: &mut [u32],
    texts: &mut [u8],
    content: Recording<'_>,
    ellipsis: Recording<'_>,
    p: Plan,
    c: Cursor,
) -> Cursor
    requires sound { SoundIn (recording_of content) }
    requires cut_value { (p.cut ≡ true) × (p.content ≤ length content.bytes.now) }
    requires d_value { (c.d ≡ length ellipsis.bytes.now - p.ellipsis) × HoldsUpTo c.d (finished_start p content.bytes.now ellipsis.bytes.now) bytes.old bytes.old }
    requires fits { Fits (edit (cut_start_of p.content) (items (recording_of content))) (out bytes.old numbers.old texts.old c) }
    ensures result_after { out bytes.new numbers.new texts.new result ≡ add
        (edit (cut_start_of p.content) (items (recording_of content.entry))) (out bytes.old numbers.old texts.old c) }
    ensures holds_up_to { HoldsUpTo result.d (finished_start p content.entry.bytes.now ellipsis.entry.bytes.now) bytes.old bytes.new }
{
    put_from(bytes, numbers, texts, content, c, p.content)
}

// Writes what the end call keeps: content, then ellipsis.
fn put_end(
    bytes: &mut [u8],
    numbers: &mut [u32],
    texts: &mut [u8],
    content: Recording<'_>,
    ellipsis: Recording<'_>,
    p: Plan,
) -> Cursor
    requires sound { SoundIn (recording_of content) }
    requires sound_2 { SoundIn (recording_of ellipsis) }
    requires content_in_bounds { (p.content ≤ length content.bytes.now) × (p.ellipsis ≤ length ellipsis.bytes.now) }
    requires fits { Fits (end_items p (recording_of content) (recording_of ellipsis)) (blank bytes.old numbers.old texts.old) }
    ensures result_after { out bytes.new numbers.new texts.new result ≡ add
        (end_items p (recording_of content.entry) (recording_of ellipsis.entry)) (blank bytes.old numbers.old texts.old) }
    ensures d_value { (result.d ≡ length (finished_end p content.entry.bytes.now ellipsis.entry.bytes.now))
        × HoldsUpTo result.d (finished_end p content.entry.bytes.now ellipsis.entry.bytes.now) bytes.old bytes.new }
{
    if !p.cut {
        return put_recording(bytes, numbers, texts, content, START);
    }
    let c = put_up_to(bytes, numbers, texts, content, START, p.content);
    put_end_ellipsis(bytes, numbers, texts, content, ellipsis, p, c)
}

// Writes what the start call keeps: ellipsis, then content.
fn put_start(
    bytes: &mut [u8],
    numbers: &mut [u32],
    texts: &mut [u8],
    content: Recording<'_>,
    ellipsis: Recording<'_>,
    p: Plan,
) -> Cursor
    requires sound { SoundIn (recording_of content) }
    requires sound_2 { SoundIn (recording_of ellipsis) }
    requires content_in_bounds { (p.content ≤ length content.bytes.now) × (p.ellipsis ≤ length ellipsis.bytes.now) }
    requires fits { Fits (start_items p (recording_of content) (recording_of ellipsis)) (blank bytes.old numbers.old texts.old) }
    ensures result_after { out bytes.new numbers.new texts.new result ≡ add
        (start_items p (recording_of content.entry) (recording_of ellipsis.entry)) (blank bytes.old numbers.old texts.old) }
    ensures d_value { (result.d ≡ length (finished_start p content.entry.bytes.now ellipsis.entry.bytes.now))
        × HoldsUpTo result.d (finished_start p content.entry.bytes.now ellipsis.entry.bytes.now) bytes.old bytes.new }
{
    if !p.cut {
        return put_from(bytes, numbers, texts, content, START, p.content);
    }
    let c = put_from(bytes, numbers, texts, ellipsis, START, p.ellipsis);
    put_start_content(bytes, numbers, texts, content, ellipsis, p, c)
}

// Refusals 9 and 21 to 23 of a result of `kept` data bytes with all entries of the content, and those of the ellipsis `times` times.
fn settle_kept(
    content: Recording<'_>,
    ellipsis: Recording<'_>,
    sizes: TextSizes,
    times: usize,
    kept: usize,
    room: Lengths,
) -> Result<(), Refusal>
    requires checked { BothChecked (Ok sizes) (recording_of content) (recording_of ellipsis) }
    requires times_bound { times ≤ 1048576 }
    ensures { fault_of result ≡ sizes_fault kept (length content.entry.entries.now + times * length ellipsis.entry.entries.now)
        (text_size_of content.entry.text.now (entries_of content.entry.entries.now) ellipsis.entry.text.now (entries_of ellipsis.entry.entries.now) times)
        0 (room_of_lengths room) }
{
    let texts = text_size(
        sizes.content + times * sizes.second,
        room.texts,
        content,
        ellipsis,
        times,
    );
    settle(
        Lengths {
            bytes: kept,
            numbers: content.entries.len() + times * ellipsis.entries.len(),
            texts,
            lines: 0,
        },
        room,
    )
}

// Cuts a content wider than max_width at its end and writes the ellipsis after it. The number is the width kept.
pub fn write_truncated_end(
    content: Recording<'_>,
    ellipsis: Recording<'_>,
    max_width: u32,
    bytes: &mut [u8],
    numbers: &mut [u32],
    texts: &mut [u8],
) -> Result<Done, Refusal>
    ensures { Leaves (truncate_end max_width (recording_of ellipsis.entry)) (recording_of content.entry)
        (lent_of bytes.old numbers.old texts.old) (lent_of bytes.new numbers.new texts.new) result }
{
    let sizes = check_both(content, ellipsis)?;
    let p = measure_end(content.bytes, ellipsis.bytes, max_width);
    settle_kept(
        content,
        ellipsis,
        sizes,
        usize::from(p.cut), // if cut, all entries of the ellipsis are written
        p.content + p.ellipsis,
        Lengths {
            bytes: bytes.len(),
            numbers: numbers.len(),
            texts: texts.len(),
            lines: 0,
        },
    )?;
    let c = put_end(bytes, numbers, texts, content, ellipsis, p);
    Ok(Done {
        data: c.d,
        entries: c.e,
        text: c.t,
        number: p.width,
    })
}

// Cuts a content wider than max_width at its start and writes the ellipsis before it. The number is the width kept.
pub fn write_truncated_start(
    content: Recording<'_>,
    ellipsis: Recording<'_>,
    max_width: u32,
    bytes: &mut [u8],
    numbers: &mut [u32],
    texts: &mut [u8],
) -> Result<Done, Refusal>
    ensures { Leaves (truncate_start max_width (recording_of ellipsis.entry)) (recording_of content.entry)
        (lent_of bytes.old numbers.old texts.old) (lent_of bytes.new numbers.new texts.new) result }
{
    let sizes = check_both(content, ellipsis)?;
    let p = measure_start(content.bytes, ellipsis.bytes, max_width);
    settle_kept(
        content,
        ellipsis,
        sizes,
        usize::from(p.cut),
        (content.bytes.len() - p.content) + (ellipsis.bytes.len() - p.ellipsis),
        Lengths {
            bytes: bytes.len(),
            numbers: numbers.len(),
            texts: texts.len(),
            lines: 0,
        },
    )?;
    let c = put_start(bytes, numbers, texts, content, ellipsis, p);
    Ok(Done {
        data: c.d,
        entries: c.e,
        text: c.t,
        number: p.width,
    })
}
