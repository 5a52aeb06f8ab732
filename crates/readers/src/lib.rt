// Two readers of one recording (document 02, Q-6): the office reads what `replay` leaves, the floor reads stars for what stands under a label.
// `write_for_office` and `write_for_floor` keep the promises of `office_outcome` and `floor_outcome` (view/specs/View.antt). None of them requires anything.
// The floor's data is written run by run. A run has no entry inside: its bytes are copied, or stars come in their stead.
// Between two runs the entries at that place are written, but for raw sequences under the label.
// Only characters under the label are read one by one: what stands outside it is copied whole, up to the character that the next entry may divide.
// `bytes`, `numbers` and `texts` are the lent buffers; `content` is the recording that is read.
#![tactic(auto)]

ghost use Rattle.std.specs.Prelude.{◌≡◌, true, false, [], ◌∷◌, ◌+◌, ◌≤◌, ◌<◌, length, take, Ok};
ghost use Rattle.buffer.specs.Place.{over_at};
ghost use Rattle.recording.specs.Recording.{entries_of, items, data_of, text_of};
ghost use Rattle.recording.specs.Read.{recording_of};
ghost use Rattle.recording.specs.Check.{fault_of};
ghost use Rattle.recording.specs.Refusals.{bad_shape_of, first_of, recording_fault, data_limit, text_limit};
ghost use Rattle.recording.specs.Outcome.{Promised, room_in};
ghost use Rattle.writer.specs.Write.{out, add, blank, Fits, SoundIn, text_for, item_at};
ghost use Rattle.share.specs.Placed.{placed_from};
ghost use Rattle.writer.specs.Sizes.{sizes_fault, room_of_lengths};
ghost use Rattle.recorder.specs.Recorder.{lent_of, judged_by_size};
ghost use Rattle.view.specs.View.{floor_items, view_fault, office_outcome, floor_outcome};
ghost use Rattle.open_label.specs.Open.{ScanTold};
ghost use Rattle.open_label.specs.Walk.{ArrivedIn};
ghost use Rattle.floor_runs.specs.Runs.{run_bytes};
ghost use Rattle.readers.specs.Entries.{PassedIn, shown, EntriesPut, EntriesFitIn, EntriesWrittenIn};
ghost use Rattle.readers.specs.Admit.{AdmittedTold};

use buffer::put_byte_times;
use floor_runs::{Run, copied_to, next_run};
use open_label::{FIRST, Kept, Walk, drops, opened, scan};
use recorder::put_whole;
use recording::{Done, Entry, Recording, Refusal, entry_at};
use recording_check::check;
use share::less_size;
use well_formed::is_well_formed;
use writer::{Cursor, Lengths, place_at, put_bytes, put_entry, settle};

// What a recording and a label have that pass all checks: the length of the entries' texts, and what the floor is left of the entries.
#[derive(Clone, Copy)]
pub struct Sizes {
    pub office: usize,
    pub floor: Kept,
}

// Writes a run at the data's end, and passes its bytes.
fn put_run(bytes: &mut [u8], content: &[u8], run: Run, c: Cursor) -> Cursor
    requires { (c.at ≤ run.to) × (run.to ≤ length content.now) × (c.d + length (run_bytes content.now c.at run) ≤ length bytes.old) }
    ensures at_value { (result.at ≡ run.to) × (result.k ≡ c.k) × (result.d ≡ c.d + length (run_bytes content.now c.at run)) × (result.e ≡ c.e) × (result.t ≡ c.t) }
    ensures bytes_after { bytes.new ≡ over_at c.d (run_bytes content.now c.at run) bytes.old }
{
    if run.copy {
        let r = put_bytes(bytes, content, c.at, run.to, c);
        return Cursor { at: run.to, ..r };
    }
    let d = put_byte_times(bytes, c.d, 0x2A, run.stars);
    Cursor { at: run.to, d, ..c }
}

// How many bytes a run of the content writes from `at` on.
fn run_len(content: &[u8], run: Run, at: usize) -> usize
    requires { (at ≤ run.to) × (run.to ≤ length content.now) }
    ensures { result ≡ length (run_bytes content.now at run) }
{
    if run.copy { run.to - at } else { run.stars }
}

// The cursor behind an entry that is not written.
fn behind_entry(c: Cursor) -> Cursor
    requires { c.k + 4 ≤ 18446744073709551615 }
    ensures { (result.at ≡ c.at) × (result.k ≡ c.k + 4) × (result.d ≡ c.d) × (result.e ≡ c.e) × (result.t ≡ c.t) }
{
    Cursor { k: c.k + 4, ..c }
}

// Writes an entry, unless it goes, and passes it.
fn put_unless(
    goes: bool,
    numbers: &mut [u32],
    texts: &mut [u8],
    text: &[u8],
    e: Entry,
    c: Cursor,
) -> Cursor
    requires len_value { (bad_shape_of e.kind e.start e.len ≡ false) × (e.start + e.len ≤ length text.now) × (e.position ≡ c.at) }
    requires d_le_data_limit { (c.d ≤ data_limit) × (c.k + 4 ≤ 18446744073709551615) }
    requires e_in_bounds { goes ≡ false → (c.e + 4 ≤ length numbers.old) × (c.t + length (text_for c.d numbers.old texts.old c (item_at text.now e)) ≤ length texts.old) × (c.t ≤ text_limit)
        × (placed_from 0 [] (entries_of (take c.e numbers.old)) ≡ true) }
    ensures { (result.at ≡ c.at) × (result.k ≡ c.k + 4) × EntriesPut (shown goes (item_at text.now e))
        numbers.old texts.old c numbers.new texts.new result }
{
    if goes {
        return behind_entry(c);
    }
    put_entry(numbers, texts, text, e, c)
}

// Writes the entries at the place of the walk, but for raw sequences under the label.
// kept: `while` at the next entry's place, here and in `pass_entries`. Most runs have no entry behind them, and `for e in Entries::of(..)` reads a whole entry before it asks for the place:
// under a label with a 0A at each fourth byte `put_entries` then takes 1.3 times as many instructions.
fn put_entries(
    numbers: &mut [u32],
    texts: &mut [u8],
    content: Recording<'_>,
    label: &[u8],
    from: Walk,
) -> Walk
    requires arrived { ArrivedIn (recording_of content) from }
    requires entries_fit { EntriesFitIn label.now (recording_of content) from numbers.old texts.old }
    ensures passed { PassedIn label.now (recording_of content.entry) from result }
    ensures entries_written { EntriesWrittenIn label.now (recording_of content.entry) from
        numbers.old texts.old result numbers.new texts.new }
{
    let mut c = from.c;
    let mut o = from.o;
    let mut p = place_at(content.entries, c.k);
    while p <= c.at {
        let e = entry_at(content.entries, c.k);
        let goes = drops(e, o);
        c = put_unless(goes, numbers, texts, content.text, e, c);
        o = opened(content.text, label, e, o);
        p = place_at(content.entries, c.k);
    }
    Walk { c, o }
}

// Passes the entries at the place of the walk.
fn pass_entries(content: Recording<'_>, label: &[u8], from: Walk) -> Walk
    requires { ArrivedIn (recording_of content) from }
    ensures { PassedIn label.now (recording_of content.entry) from result }
{
    let mut c = from.c;
    let mut o = from.o;
    let mut p = place_at(content.entries, c.k);
    while p <= c.at {
        let e = entry_at(content.entries, c.k);
        o = opened(content.text, label, e, o);
        c = behind_entry(c);
        p = place_at(content.entries, c.k);
    }
    Walk { c, o }
}

// How many data bytes the floor is left.
fn floor_len(content: Recording<'_>, label: &[u8]) -> usize
    requires { SoundIn (recording_of content) }
    ensures { result ≡ length (data_of (floor_items label.now (recording_of content.entry))) }
{
    let mut size = 0;
    let mut run = copied_to(0);
    let mut w = pass_entries(content, label, FIRST);
    // kept: no `for`: each run begins where the one before ended.
    while w.c.at < content.bytes.len() {
        run = next_run(content, label, w, run);
        size += run_len(content.bytes, run, w.c.at);
        let c = Cursor { at: run.to, ..w.c };
        w = pass_entries(content, label, Walk { c, ..w });
    }
    size
}

// Writes what the floor is left.
fn put_floor(
    content: Recording<'_>,
    label: &[u8],
    bytes: &mut [u8],
    numbers: &mut [u32],
    texts: &mut [u8],
) -> Cursor
    requires sound { SoundIn (recording_of content) }
    requires fits { Fits (floor_items label.now (recording_of content)) (blank bytes.old numbers.old texts.old) }
    ensures { out bytes.new numbers.new texts.new result
        ≡ add (floor_items label.now (recording_of content.entry))
        (blank bytes.old numbers.old texts.old) }
{
    let mut run = copied_to(0);
    let mut w = put_entries(numbers, texts, content, label, FIRST);
    // kept: no `for`: each run begins where the one before ended.
    while w.c.at < content.bytes.len() {
        run = next_run(content, label, w, run);
        let c = put_run(bytes, content.bytes, run, w.c);
        w = put_entries(numbers, texts, content, label, Walk { c, ..w });
    }
    w.c
}

// Refusals 9 and 21 to 23 of what the floor is left, with these entry numbers and a text of this size. Its data is never longer than the content: if there is room for that, nothing is measured.
fn settle_floor(
    content: Recording<'_>,
    label: &[u8],
    numbers: usize,
    texts: usize,
    room: Lengths,
) -> Result<(), Refusal>
    requires { SoundIn (recording_of content) }
    ensures { fault_of result ≡ sizes_fault (length (data_of (floor_items label.now (recording_of content.entry))))
        numbers texts 0 (room_of_lengths room) }
{
    let whole = Lengths {
        bytes: content.bytes.len(),
        numbers,
        texts,
        lines: 0,
    };
    if settle(whole, room).is_ok() {
        return Ok(());
    }
    let bytes = floor_len(content, label);
    settle(Lengths { bytes, ..whole }, room)
}

// Refusals 1 to 6 of the recording, then 34 and 35.
fn admit(content: Recording<'_>, label: &[u8]) -> Result<Sizes, Refusal>
    ensures result_value { fault_of result ≡ first_of (recording_fault (recording_of content.entry)
        ∷ view_fault label.now (recording_of content.entry) ∷ []) }
    ensures admitted_told { AdmittedTold label.now (recording_of content.entry) result }
{
    let office = check(content)?;
    if label.len() == 0 || !is_well_formed(label) {
        return Err(Refusal::ViewLabel);
    }
    let floor = scan(content, label)?;
    Ok(Sizes { office, floor })
}

// Writes what the floor is left of a recording in which the label is pushed, or refuses it for want of room.
fn put_starred(
    content: Recording<'_>,
    label: &[u8],
    sizes: Sizes,
    bytes: &mut [u8],
    numbers: &mut [u32],
    texts: &mut [u8],
) -> Result<Done, Refusal>
    requires text_value { (recording_fault (recording_of content) ≡ 0) × (sizes.office ≡ length (text_of (items (recording_of content)))) }
    requires scan_told { ScanTold label.now (recording_of content) (Ok sizes.floor) }
    ensures { Promised
        (judged_by_size (room_in (lent_of bytes.old numbers.old texts.old))
        (floor_items label.now (recording_of content.entry)))
        (lent_of bytes.old numbers.old texts.old) (lent_of bytes.new numbers.new texts.new) result }
{
    let floor = sizes.floor;
    let shared = less_size(floor.text, texts.len(), sizes.office - floor.text, content);
    settle_floor(
        content,
        label,
        floor.entries,
        shared,
        Lengths {
            bytes: bytes.len(),
            numbers: numbers.len(),
            texts: texts.len(),
            lines: 0,
        },
    )?;
    let c = put_floor(content, label, bytes, numbers, texts);
    Ok(Done {
        data: c.d,
        entries: c.e,
        text: c.t,
        number: 0,
    })
}

// For the office: what `replay` leaves of the recording.
pub fn write_for_office(
    content: Recording<'_>,
    label: &[u8],
    bytes: &mut [u8],
    numbers: &mut [u32],
    texts: &mut [u8],
) -> Result<Done, Refusal>
    ensures { Promised
        (office_outcome label.now (room_in (lent_of bytes.old numbers.old texts.old))
        (recording_of content.entry))
        (lent_of bytes.old numbers.old texts.old) (lent_of bytes.new numbers.new texts.new) result }
{
    let sizes = admit(content, label)?;
    put_whole(content, sizes.office, bytes, numbers, texts)
}

// For the floor: each character with a byte under the label as so many stars as it is wide, under the labels of its first byte; a 0A stays, and raw sequences under the label are left out.
// A content in which the label is not pushed is written as for the office.
pub fn write_for_floor(
    content: Recording<'_>,
    label: &[u8],
    bytes: &mut [u8],
    numbers: &mut [u32],
    texts: &mut [u8],
) -> Result<Done, Refusal>
    ensures { Promised
        (floor_outcome label.now (room_in (lent_of bytes.old numbers.old texts.old))
        (recording_of content.entry))
        (lent_of bytes.old numbers.old texts.old) (lent_of bytes.new numbers.new texts.new) result }
{
    let sizes = admit(content, label)?;
    if !sizes.floor.found {
        return put_whole(content, sizes.office, bytes, numbers, texts);
    }
    put_starred(content, label, sizes, bytes, numbers, texts)
}
