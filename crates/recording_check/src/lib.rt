// The check of a recording: refusals 1 to 6. What an answer tells (`specs/Check.antt`) is said in `recording`.
#![tactic(auto)]

ghost use Rattle.std.specs.Prelude.{◌≡◌, ◌%◌, ◌≤◌, length};
ghost use Rattle.recording.specs.Recording.{entries_of, items, text_of};
ghost use Rattle.recording.specs.Read.{recording_of};
ghost use Rattle.recording.specs.Refusals.{bad_shape_of, entry_fault, entries_fault, recording_fault};
ghost use Rattle.recording.specs.Check.{fault_of, Counted, Within, BothChecked};

use recording::{Entries, Entry, Recording, Refusal, TextSizes};
use well_formed::is_well_formed;

// Refusal 3: whether an entry's kind, start and length do not go together.
#[tactic(auto, unfolding(recording::specs::Refusals::bad_shape_of))]
fn bad_shape(kind: u32, start: u32, len: u32) -> bool
    ensures { result ≡ bad_shape_of kind start len }
{
    match kind {
        0 => false,
        1 => start != 0 || len != 0,
        2 => len == 0,
        _ => true,
    }
}

// Checks one entry, refusals 3, 4, 5, 6 in this order; `at` is the position of the entry before.
// The part's end is the exact sum of start and length: two 32-bit numbers in 64 bits.
#[tactic(auto, unfolding(recording::specs::Refusals::entry_fault))]
fn check_entry(content: Recording<'_>, e: Entry, at: u32) -> Result<usize, Refusal>
    ensures result_value { fault_of result ≡ entry_fault at content.entry.bytes.now content.entry.text.now e }
    ensures counted { Counted result e.len }
{
    if bad_shape(e.kind, e.start, e.len) {
        return Err(Refusal::EntryShape);
    }
    if e.position < at || content.bytes.len() < e.position as usize {
        return Err(Refusal::EntryPosition);
    }
    let start = e.start as usize;
    let end = start + e.len as usize;
    if content.text.len() < end {
        return Err(Refusal::TextPart);
    }
    if e.kind == 0 && !is_well_formed(&content.text[start..end]) {
        return Err(Refusal::LabelIllFormed);
    }
    Ok(e.len as usize)
}

// Checks the entries, one after another.
fn check_entries(content: Recording<'_>) -> Result<usize, Refusal>
    requires { (length content.entries.now % 4 ≡ 0) × (length content.entries.now ≤ 16384) × (length content.text.now ≤ 65536) }
    ensures result_value { fault_of result ≡ entries_fault 0 content.entry.bytes.now content.entry.text.now (entries_of content.entry.entries.now) }
    ensures counted { Counted result (length (text_of (items (recording_of content.entry)))) }
    ensures within { Within result 268435456 }
{
    let mut at = 0;
    let mut size = 0;
    for e in Entries::of(content.entries) {
        size += check_entry(content, e, at)?;
        at = e.position;
    }
    Ok(size)
}

// Checks a recording: refusals 1, 2 and 5 for its lengths, then entry by entry. 268435456 is 4,096 texts of 65,536 bytes: parts may overlap.
#[tactic(auto, unfolding(recording::specs::Refusals::recording_fault))]
pub fn check(content: Recording<'_>) -> Result<usize, Refusal>
    ensures result_value { fault_of result ≡ recording_fault (recording_of content.entry) }
    ensures counted { Counted result (length (text_of (items (recording_of content.entry)))) }
    ensures within { Within result 268435456 }
{
    if 1048576 < content.bytes.len() {
        return Err(Refusal::DataTooLong);
    }
    if content.entries.len() % 4 != 0 || 16384 < content.entries.len() {
        return Err(Refusal::EntryNumbers);
    }
    if 65536 < content.text.len() {
        return Err(Refusal::TextPart);
    }
    check_entries(content)
}

// Checks the content, whole, and then the second recording, whole.
pub fn check_both(content: Recording<'_>, second: Recording<'_>) -> Result<TextSizes, Refusal>
    ensures { BothChecked result (recording_of content.entry) (recording_of second.entry) }
{
    Ok(TextSizes {
        content: check(content)?,
        second: check(second)?,
    })
}
