// Replacing stretches of a recording's data (document 01, module 5): the steps of the scan and of the writing, and `write_replaced_flat`, whose records are flat numbers, four each, as C lends them.
// `write_replaced` over a list of structs stands in crate `replace_records`: one definition, two front doors.
// All records are scanned first, for refusal 8 and for the size of the result, and written only then.
// What the call answers and leaves is the `outcome` of the job `replace` in `layout/specs/Layout.antt`; the records behind the numbers are `records_of` of `specs/Records.antt`.
#![tactic(auto)]

ghost use Rattle.std.specs.Prelude.{◌≡◌, ◌+◌, ◌≤◌, ◌∷◌, length, drop};
ghost use Rattle.recording.specs.Recording.{items};
ghost use Rattle.recording.specs.Read.{recording_of};
ghost use Rattle.recording.specs.Edit.{edit};
ghost use Rattle.writer.specs.Write.{out, add, blank, Fits, SoundIn};
ghost use Rattle.layout.specs.Layout.{bad_record_of, records_fault, replace_ops, replace};
ghost use Rattle.layout.specs.Lent.{lent_of, Leaves};
ghost use Rattle.replace.specs.Records.{records_of, capped, scan, check_step, check_all};
ghost use Rattle.replace.specs.Turn.{Turn, Turned};

use layout::Replacement;
use recording::{Done, Recording, Refusal};
use recording_check::check;
use share::own_size;
use writer::{Cursor, Lengths, START, keep, put_bytes, settle, skip};

// What the records so far say, none of them bad: the end of the last one, and the size of the result up to there, capped above the limit.
#[derive(Clone, Copy)]
pub struct Scan {
    pub at: u32,
    pub size: usize,
}

// The scan before the first record.
pub const FIRST: Scan = Scan { at: 0, size: 0 };

// The record whose numbers start at k: the records from k on are this one and those from k + 4 on.
#[tactic(auto, using(crate::proofs::RecordLaws::records_next))]
fn record_at(records: &[u32], k: usize) -> Replacement
    requires { k + 4 ≤ length records.now }
    ensures { records_of (drop k records.now) ≡ result ∷ records_of (drop (k + 4) records.now) }
{
    Replacement {
        start: records[k],
        end: records[k + 1],
        from: records[k + 2],
        to: records[k + 3],
    }
}

// The records behind numbers, one after another; a rest of fewer than four numbers is none.
#[derive(Clone, Copy)]
pub struct Records<'a> {
    numbers: &'a [u32],
}

impl<'a> Records<'a> {
    ghost use Rattle.replace.specs.Read.{records_left};

    fn of(numbers: &'a [u32]) -> Records<'a>
        ensures { records_left result ≡ records_of numbers.now }
    {
        Records { numbers }
    }
}

impl<'a> Iterator for Records<'a> {
    ghost use Rattle.std.specs.Iterator.{YieldsFirst, item_count};
    ghost use Rattle.replace.specs.Read.{records_left};

    type Item = Replacement;

    ghost next_gives = { YieldsFirst records_left };

    ghost remaining = { item_count records_left };

    fn next(&mut self) -> Option<Replacement> {
        if self.numbers.len() < 4 {
            return None;
        }
        let x = record_at(self.numbers, 0);
        self.numbers = &self.numbers[4..];
        Some(x)
    }
}

// Refusal 8 of one record after a record that ends at `at`, for n data bytes and a replacement text of t bytes.
fn bad_record(at: u32, x: Replacement, n: usize, t: usize) -> bool
    ensures { result ≡ bad_record_of at n t x }
{
    x.end < x.start || n < x.end as usize || x.start < at || x.to < x.from || t < x.to as usize
}

// A size and some bytes more, capped above the limit of data: sizes of any number of records can be summed.
#[tactic(auto, unfolding(crate::specs::Records::capped))]
pub fn capped_add(size: usize, more: usize) -> usize
    ensures { result ≡ capped (size + more) }
{
    size.saturating_add(more).min(1048577)
}

// One record more of the scan.
#[tactic(auto, using(crate::proofs::RecordLaws::good), unfolding(crate::specs::Records::check_step))]
pub fn check_record(s: Scan, x: Replacement, n: usize, t: usize) -> Result<Scan, Refusal>
    ensures { result ≡ check_step n t x s }
{
    if bad_record(s.at, x, n, t) {
        return Err(Refusal::ReplacementRange);
    }
    let kept = capped_add(s.size, (x.start - s.at) as usize);
    Ok(Scan {
        at: x.end,
        size: capped_add(kept, (x.to - x.from) as usize),
    })
}

// The scan over all records.
fn check_records(records: &[u32], n: usize, t: usize) -> Result<Scan, Refusal>
    ensures { result ≡ check_all n t (records_of records.now) (scan 0 0) }
{
    let mut s = FIRST;
    for x in Records::of(records) {
        s = check_record(s, x, n, t)?;
    }
    Ok(s)
}

// Writes one record: keeps the content up to its start, puts the new bytes in, and passes the stretch that goes, whose entries stay.
// The contract is a relation (`Turned`): `keep` and `skip` tell what is left of the content, not which entry is next.
pub fn write_step(
    c: Cursor,
    x: Replacement,
    content: Recording<'_>,
    new: &[u8],
    bytes: &mut [u8],
    numbers: &mut [u32],
    texts: &mut [u8],
) -> Cursor
    requires { Turn content.bytes.now content.entries.now content.text.now new.now x c (out bytes.old numbers.old texts.old c) }
    ensures { Turned content.entry.bytes.now content.entry.entries.now content.entry.text.now new.now x c result
        (out bytes.old numbers.old texts.old c) (out bytes.new numbers.new texts.new result) }
{
    let a = keep(bytes, numbers, texts, content, c, x.start as usize);
    let b = put_bytes(bytes, new, x.from as usize, x.to as usize, a);
    skip(bytes, numbers, texts, content, b, x.end as usize)
}

// Writes all records, and the rest of the content after the last one.
fn write_records(
    content: Recording<'_>,
    records: &[u32],
    new: &[u8],
    bytes: &mut [u8],
    numbers: &mut [u32],
    texts: &mut [u8],
) -> Cursor
    requires sound { SoundIn (recording_of content) }
    requires records_value { records_fault 0 (length content.bytes.now) (length new.now) (records_of records.now) ≡ 0 }
    requires fits { Fits (edit (replace_ops new.now 0 (records_of records.now)) (items (recording_of content)))
        (blank bytes.old numbers.old texts.old) }
    ensures { out bytes.new numbers.new texts.new result
        ≡ add (edit (replace_ops new.now 0 (records_of records.now)) (items (recording_of content.entry)))
        (blank bytes.old numbers.old texts.old) }
{
    let mut c = START;
    for record in Records::of(records) {
        c = write_step(c, record, content, new, bytes, numbers, texts);
    }
    keep(bytes, numbers, texts, content, c, content.bytes.len())
}

// Writes the content with each record's stretch gone and its part of the replacement text `new` in its stead. A record is four numbers; a rest of fewer is none.
pub fn write_replaced_flat(
    content: Recording<'_>,
    records: &[u32],
    new: &[u8],
    bytes: &mut [u8],
    numbers: &mut [u32],
    texts: &mut [u8],
) -> Result<Done, Refusal>
    ensures { Leaves (replace (records_of records.now) new.now) (recording_of content.entry)
        (lent_of bytes.old numbers.old texts.old) (lent_of bytes.new numbers.new texts.new) result }
{
    let size = check(content)?;
    let s = check_records(records, content.bytes.len(), new.len())?;
    let shared = own_size(size, texts.len(), content);
    settle(
        Lengths {
            bytes: capped_add(s.size, content.bytes.len() - s.at as usize),
            numbers: content.entries.len(),
            texts: shared,
            lines: 0,
        },
        Lengths {
            bytes: bytes.len(),
            numbers: numbers.len(),
            texts: texts.len(),
            lines: 0,
        },
    )?;
    let c = write_records(content, records, new, bytes, numbers, texts);
    Ok(Done {
        data: c.d,
        entries: c.e,
        text: c.t,
        number: 0,
    })
}
