// Replacing stretches of a recording's data by a lent list of records (document 01, module 5): `write_replaced`.
// It goes as `replace::write_replaced_flat`, whose records are flat numbers: what a record asks and does is decided by that crate's `check_record` and `write_step`.
#![tactic(auto)]

ghost use Rattle.std.specs.Prelude.{◌≡◌, length};
ghost use Rattle.recording.specs.Recording.{items};
ghost use Rattle.recording.specs.Read.{recording_of};
ghost use Rattle.recording.specs.Edit.{edit};
ghost use Rattle.writer.specs.Write.{out, add, blank, Fits, SoundIn};
ghost use Rattle.layout.specs.Layout.{records_fault, replace_ops, replace};
ghost use Rattle.layout.specs.Lent.{lent_of, Leaves};
ghost use Rattle.replace.specs.Records.{scan, check_all};

use layout::Replacement;
use recording::{Done, Recording, Refusal};
use recording_check::check;
use replace::{FIRST, Scan, capped_add, check_record, write_step};
use share::own_size;
use writer::{Cursor, Lengths, START, keep, settle};

// The scan over all records, for n data bytes and a replacement text of t bytes.
fn check_each(records: &[Replacement], n: usize, t: usize) -> Result<Scan, Refusal>
    ensures { result ≡ check_all n t records.now (scan 0 0) }
{
    let mut s = FIRST;
    for x in records {
        s = check_record(s, *x, n, t)?;
    }
    Ok(s)
}

// Writes all records, and the rest of the content after the last one.
fn write_each(
    content: Recording<'_>,
    records: &[Replacement],
    new: &[u8],
    bytes: &mut [u8],
    numbers: &mut [u32],
    texts: &mut [u8],
) -> Cursor
    requires sound { SoundIn (recording_of content) }
    requires records_value { records_fault 0 (length content.bytes.now) (length new.now) records.now ≡ 0 }
    requires fits { Fits (edit (replace_ops new.now 0 records.now) (items (recording_of content))) (blank bytes.old numbers.old texts.old) }
    ensures { out bytes.new numbers.new texts.new result
        ≡ add (edit (replace_ops new.now 0 records.now) (items (recording_of content.entry))) (blank bytes.old numbers.old texts.old) }
{
    let mut c = START;
    for x in records {
        c = write_step(c, *x, content, new, bytes, numbers, texts);
    }
    keep(bytes, numbers, texts, content, c, content.bytes.len())
}

// Writes the content with each record's stretch gone and its part of the replacement text `new` in its stead.
pub fn write_replaced(
    content: Recording<'_>,
    records: &[Replacement],
    new: &[u8],
    bytes: &mut [u8],
    numbers: &mut [u32],
    texts: &mut [u8],
) -> Result<Done, Refusal>
    ensures { Leaves (replace records.now new.now) (recording_of content.entry)
        (lent_of bytes.old numbers.old texts.old) (lent_of bytes.new numbers.new texts.new) result }
{
    let size = check(content)?;
    let s = check_each(records, content.bytes.len(), new.len())?;
    let shared = own_size(size, texts.len(), content);
    settle(
        Lengths {
            bytes: capped_add(s.size, content.bytes.len() - s.at as usize),
            numbers: content.entries.len(),
            texts: shared,
            lines: 0,
        },
        Lengths {
            bytes: bytes.len(),
            numbers: numbers.len(),
            texts: texts.len(),
            lines: 0,
        },
    )?;
    let c = write_each(content, records, new, bytes, numbers, texts);
    Ok(Done {
        data: c.d,
        entries: c.e,
        text: c.t,
        number: 0,
    })
}
