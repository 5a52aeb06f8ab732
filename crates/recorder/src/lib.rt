// Module 1 of document 01, the recorder: append data, push a label, pop it, append a raw sequence, replay. None of the calls requires anything.
// Each keeps the promise (`Promised`) of its outcome in `specs/Recorder.antt`; refused calls write nothing.
// `put_whole` is no call of the module: `replay` ends in it, and calls of other crates that have checked a recording do too.
#![tactic(auto)]

ghost use Rattle.std.specs.Prelude.{◌≡◌, ◌+◌, ◌≤◌, [], ◌∷◌, length, IfOk};
ghost use Rattle.buffer.specs.Place.{over_at};
ghost use Rattle.recording.specs.Recording.{numbers_of_ranges, items, text_of};
ghost use Rattle.recording.specs.Read.{recording_of};
ghost use Rattle.recording.specs.Refusals.{first_of, recording_fault};
ghost use Rattle.recording.specs.Outcome.{Promised, room_in};
ghost use Rattle.recording.specs.Check.{fault_of};
ghost use Rattle.writer.specs.Sizes.{sizes_fault};
ghost use Rattle.recorder.specs.Recorder.{lent_of, judged_by_size, used_of, UsedIn, lengths_fault, replayed, written, pushed, popped, raw_added};

use buffer::put;
use recording::{Done, Entry, Recording, Refusal};
use recording_check::check;
use share::{own_size, place_label, set_entry};
use well_formed::is_well_formed;
use writer::{Lengths, START, keep_entries, settle};

// Writes all of a recording without faults, whose entries' texts are `size` bytes one after another, or refuses it for its sizes alone.
#[tactic(auto, using(crate::proofs::LeftLaws::own_bounds, crate::proofs::LeftLaws::own_at_most))]
pub fn put_whole(
    content: Recording<'_>,
    size: usize,
    out_data: &mut [u8],
    out_entries: &mut [u32],
    out_text: &mut [u8],
) -> Result<Done, Refusal>
    requires { (recording_fault (recording_of content) ≡ 0) × (size ≡ length (text_of (items (recording_of content)))) }
    ensures { Promised
        (judged_by_size (room_in (lent_of out_data.old out_entries.old out_text.old)) (items (recording_of content.entry)))
        (lent_of out_data.old out_entries.old out_text.old) (lent_of out_data.new out_entries.new out_text.new) result }
{
    settle(
        Lengths {
            bytes: content.bytes.len(),
            numbers: content.entries.len(),
            texts: own_size(size, out_text.len(), content),
            lines: 0,
        },
        Lengths {
            bytes: out_data.len(),
            numbers: out_entries.len(),
            texts: out_text.len(),
            lines: 0,
        },
    )?;
    // a recording that is copied has entries as a rule
    let c = keep_entries(
        out_data,
        out_entries,
        out_text,
        content,
        START,
        content.bytes.len(),
    );
    Ok(Done {
        data: content.bytes.len(),
        entries: content.entries.len(),
        text: c.t,
        number: 0,
    })
}

// Copies a recording into three lent buffers, each entry's text one after another from 0, equal labels a single time; text that no entry uses is left out.
pub fn replay(
    content: Recording<'_>,
    out_data: &mut [u8],
    out_entries: &mut [u32],
    out_text: &mut [u8],
) -> Result<Done, Refusal>
    ensures { Promised
        (replayed (recording_of content.entry) (lent_of out_data.old out_entries.old out_text.old))
        (lent_of out_data.old out_entries.old out_text.old) (lent_of out_data.new out_entries.new out_text.new) result }
{
    put_whole(content, check(content)?, out_data, out_entries, out_text)
}

// Refusal 10, then the content's 1 to 6, in lent buffers of which d, e and n numbers are used.
// kept: three lengths; as a `Lengths` they cost an adding call 4 to 7 instructions more, of about 200 on a short recording.
#[tactic(auto, using(crate::proofs::AddLaws::used_in, crate::proofs::AddLaws::used_alone), unfolding(crate::specs::Recorder::lengths_fault))]
fn check_used(lent: Recording<'_>, d: usize, e: usize, n: usize) -> Result<usize, Refusal>
    ensures result_value { fault_of result
        ≡ first_of (lengths_fault (lent_of lent.entry.bytes.now lent.entry.entries.now lent.entry.text.now) d e n
        ∷ recording_fault (used_of (lent_of lent.entry.bytes.now lent.entry.entries.now lent.entry.text.now) d e n) ∷ []) }
    ensures used_in { IfOk result (λ _. UsedIn (lent_of lent.entry.bytes.now lent.entry.entries.now lent.entry.text.now) d e n) }
{
    if lent.bytes.len() < d || lent.entries.len() < e || lent.text.len() < n {
        return Err(Refusal::LengthOverBuffer);
    }
    check(Recording {
        bytes: &lent.bytes[..d],
        entries: &lent.entries[..e],
        text: &lent.text[..n],
    })
}

// Refusals 9 and 21 to 23 of a recording of these lengths, in these buffers; else what a call answers that leaves it.
#[tactic(auto, using(crate::proofs::AddLaws::settled_in))]
fn settle_in(lent: Recording<'_>, needed: Lengths) -> Result<Done, Refusal>
    ensures result_value { fault_of result
        ≡ sizes_fault needed.bytes needed.numbers needed.texts needed.lines (room_in (lent_of lent.entry.bytes.now lent.entry.entries.now lent.entry.text.now)) }
    ensures answer { IfOk result (λ x. (x.data ≡ needed.bytes) × (x.entries ≡ needed.numbers) × (x.text ≡ needed.texts) × (x.number ≡ 0)) }
    ensures room { IfOk result (λ _. UsedIn (lent_of lent.entry.bytes.now lent.entry.entries.now lent.entry.text.now) needed.bytes needed.numbers needed.texts) }
{
    settle(
        needed,
        Lengths {
            bytes: lent.bytes.len(),
            numbers: lent.entries.len(),
            texts: lent.text.len(),
            lines: 0,
        },
    )?;
    Ok(Done {
        data: needed.bytes,
        entries: needed.numbers,
        text: needed.texts,
        number: 0,
    })
}

// kept: the buffers of the adding calls are parameters of their own: the C interface lends each by itself, as const where a call does not write it.

// Appends bytes to the data; none is allowed.
pub fn write(
    content: &mut [u8],
    content_len: usize,
    entries: &[u32],
    entries_len: usize,
    text: &[u8],
    text_len: usize,
    added: &[u8],
) -> Result<Done, Refusal>
    ensures { Promised
        (written added.now (lent_of content.old entries.now text.now) content_len entries_len text_len)
        (lent_of content.old entries.now text.now) (lent_of content.new entries.now text.now) result }
{
    let lent = Recording {
        bytes: content,
        entries,
        text,
    };
    check_used(lent, content_len, entries_len, text_len)?;
    let needed = Lengths {
        bytes: content_len + added.len(),
        numbers: entries_len,
        texts: text_len,
        lines: 0,
    };
    let left = settle_in(lent, needed)?;
    put(content, content_len, added, 0, added.len());
    Ok(left)
}

// A pop of the last label, at the current end. Whether one is open is not asked.
pub fn pop_label(
    content: &[u8],
    content_len: usize,
    entries: &mut [u32],
    entries_len: usize,
    text: &[u8],
    text_len: usize,
) -> Result<Done, Refusal>
    ensures { Promised
        (popped (lent_of content.now entries.old text.now) content_len entries_len text_len)
        (lent_of content.now entries.old text.now) (lent_of content.now entries.new text.now) result }
{
    let lent = Recording {
        bytes: content,
        entries,
        text,
    };
    check_used(lent, content_len, entries_len, text_len)?;
    let needed = Lengths {
        bytes: content_len,
        numbers: entries_len + 4,
        texts: text_len,
        lines: 0,
    };
    let left = settle_in(lent, needed)?;
    let e = Entry {
        position: content_len as u32,
        kind: 1,
        start: 0,
        len: 0,
    };
    set_entry(entries, entries_len, e);
    Ok(left)
}

// Writes an entry from e on, and what comes to the text from n on.
fn put_mark(numbers: &mut [u32], e: usize, m: Entry, texts: &mut [u8], n: usize, part: &[u8])
    requires { (e + 4 ≤ length numbers.old) × (n + length part.now ≤ length texts.old) }
    ensures numbers_after { numbers.new ≡ over_at e (numbers_of_ranges (m ∷ [])) numbers.old }
    ensures texts_after { texts.new ≡ over_at n part.now texts.old }
{
    set_entry(numbers, e, m);
    put(texts, n, part, 0, part.len());
}

// Pushes a label, at the current end. It takes the part of the first push with an equal text; a new one goes to the text's end.
pub fn push_label(
    content: &[u8],
    content_len: usize,
    entries: &mut [u32],
    entries_len: usize,
    text: &mut [u8],
    text_len: usize,
    label: &[u8],
) -> Result<Done, Refusal>
    ensures { Promised
        (pushed label.now (lent_of content.now entries.old text.old) content_len entries_len text_len)
        (lent_of content.now entries.old text.old) (lent_of content.now entries.new text.new) result }
{
    let lent = Recording {
        bytes: content,
        entries,
        text,
    };
    check_used(lent, content_len, entries_len, text_len)?;
    if !is_well_formed(label) {
        return Err(Refusal::LabelIllFormed);
    }
    let place = place_label(&lent.entries[..entries_len], &lent.text[..text_len], label);
    let needed = Lengths {
        bytes: content_len,
        numbers: entries_len + 4,
        texts: text_len + place.add,
        lines: 0,
    };
    let left = settle_in(lent, needed)?;
    let e = Entry {
        position: content_len as u32,
        kind: 0,
        start: place.start,
        len: label.len() as u32,
    };
    put_mark(entries, entries_len, e, text, text_len, &label[..place.add]);
    Ok(left)
}

// Appends a raw sequence as one entry at the current end; it is never empty.
pub fn raw(
    content: &[u8],
    content_len: usize,
    entries: &mut [u32],
    entries_len: usize,
    text: &mut [u8],
    text_len: usize,
    sequence: &[u8],
) -> Result<Done, Refusal>
    ensures { Promised
        (raw_added sequence.now (lent_of content.now entries.old text.old) content_len entries_len text_len)
        (lent_of content.now entries.old text.old) (lent_of content.now entries.new text.new) result }
{
    let lent = Recording {
        bytes: content,
        entries,
        text,
    };
    check_used(lent, content_len, entries_len, text_len)?;
    if sequence.is_empty() {
        return Err(Refusal::EntryShape);
    }
    let needed = Lengths {
        bytes: content_len,
        numbers: entries_len + 4,
        texts: text_len + sequence.len(),
        lines: 0,
    };
    let left = settle_in(lent, needed)?;
    let e = Entry {
        position: content_len as u32,
        kind: 2,
        start: text_len as u32,
        len: sequence.len() as u32,
    };
    put_mark(entries, entries_len, e, text, text_len, sequence);
    Ok(left)
}
