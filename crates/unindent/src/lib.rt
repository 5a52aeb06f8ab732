// Taking the indent off: `write_unindented` (document 02, Q-3), the prefix's bytes taken out of every line that is not empty.
// It keeps one promise, `Leaves` (layout), for the job `unindent`. The lines are found as in indenting.
// `bytes`, `numbers` and `texts` are the lent buffers; `content` is the recording whose indent goes.
#![tactic(auto)]

ghost use Rattle.std.specs.Prelude.{◌≡◌, true, false, ◌≤◌, ◌<◌, length, drop};
ghost use Rattle.recording.specs.Recording.{items};
ghost use Rattle.recording.specs.Read.{recording_of};
ghost use Rattle.recording.specs.Edit.{edit, edit_data};
ghost use Rattle.recording.specs.Refusals.{data_limit};
ghost use Rattle.recording.specs.Check.{fault_of, Counted};
ghost use Rattle.writer.specs.Write.{out, add, blank, Fits, SoundIn};
ghost use Rattle.layout.specs.Wrap.{split_lines};
ghost use Rattle.layout.specs.Unindent.{has_newline_in, begins_with, all_begin, unindent_ops, prefix_fault};
ghost use Rattle.layout.specs.Layout.{unindent};
ghost use Rattle.layout.specs.Lent.{lent_of, Leaves};

use indent::next_line;
use recording::{Done, Recording, Refusal};
use recording_check::check_both;
use share::own_size;
use writer::{Cursor, Lengths, START, keep, settle, skip};

// Whether one of the bytes is 0A. Without an early exit, so that many of them are compared at once.
// kept: a loop. `s.contains(&10)` would be one caller more of a method that `indent` finds lines with, and it is then inlined at none: there a block takes 36 instructions and not 9.
#[tactic(auto, using(crate::proofs::Laws::newline_next))]
fn has_newline(s: &[u8]) -> bool
    ensures { result ≡ has_newline_in s.now }
{
    let mut found = false;
    for b in s {
        found |= *b == 10;
    }
    found
}

// Whether the content has the prefix's bytes from `at` on.
fn begins_at(content: &[u8], at: usize, prefix: &[u8]) -> bool
    requires { at ≤ length content.now }
    ensures { result ≡ begins_with prefix.now (drop at content.now) }
{
    // kept: no `starts_with`, which is a call a line: with it taking an indent off takes up to a seventh longer.
    prefix.len() <= content.len() - at && prefix == &content[at..at + prefix.len()]
}

// How many data bytes are left once the prefix is taken out; refused if a line that is not empty does not begin with it.
fn left_len(content: &[u8], prefix: &[u8]) -> Result<usize, Refusal>
    requires { (length content.now ≤ data_limit) × (has_newline_in prefix.now ≡ false) }
    ensures result_value { fault_of result ≡ prefix_fault prefix.now content.now }
    ensures counted { Counted result (length (edit_data (unindent_ops (length prefix.now) (split_lines content.now)) content.now)) }
{
    let mut size = content.len();
    let mut at = next_line(content, 0, true);
    // kept: no `for`: each line begins where the one before ended.
    while at < content.len() {
        if !begins_at(content, at, prefix) {
            return Err(Refusal::PrefixMissing);
        }
        size -= prefix.len();
        at = next_line(content, at + prefix.len(), false);
    }
    Ok(size)
}

// Writes the content without the prefix's bytes, with which every line that is not empty begins. The entries among them stay, before what is left of the line.
fn put_unindented(
    bytes: &mut [u8],
    numbers: &mut [u32],
    texts: &mut [u8],
    content: Recording<'_>,
    prefix: &[u8],
) -> Cursor
    requires sound { SoundIn (recording_of content) × (prefix_fault prefix.now content.bytes.now ≡ 0) }
    requires fits { Fits (edit (unindent_ops (length prefix.now) (split_lines content.bytes.now)) (items (recording_of content)))
        (blank bytes.old numbers.old texts.old) }
    ensures { out bytes.new numbers.new texts.new result
        ≡ add (edit (unindent_ops (length prefix.now) (split_lines content.entry.bytes.now)) (items (recording_of content.entry)))
        (blank bytes.old numbers.old texts.old) }
{
    let mut c = START;
    let mut p = next_line(content.bytes, 0, true);
    // kept: no `for`: each line begins where the one before ended.
    while p < content.bytes.len() {
        c = keep(bytes, numbers, texts, content, c, p);
        p += prefix.len();
        c = skip(bytes, numbers, texts, content, c, p);
        p = next_line(content.bytes, p, false);
    }
    keep(bytes, numbers, texts, content, c, content.bytes.len())
}

// Writes the content with the prefix's bytes taken out of every line that is not empty. All lines are held against the prefix before anything is written.
pub fn write_unindented(
    content: Recording<'_>,
    prefix: Recording<'_>,
    bytes: &mut [u8],
    numbers: &mut [u32],
    texts: &mut [u8],
) -> Result<Done, Refusal>
    ensures { Leaves (unindent (recording_of prefix.entry)) (recording_of content.entry)
        (lent_of bytes.old numbers.old texts.old) (lent_of bytes.new numbers.new texts.new) result }
{
    let sizes = check_both(content, prefix)?;
    if has_newline(prefix.bytes) {
        return Err(Refusal::PrefixNewline);
    }
    let size = left_len(content.bytes, prefix.bytes)?;
    let shared = own_size(sizes.content, texts.len(), content);
    settle(
        Lengths {
            bytes: size,
            numbers: content.entries.len(),
            texts: shared,
            lines: 0,
        },
        Lengths {
            bytes: bytes.len(),
            numbers: numbers.len(),
            texts: texts.len(),
            lines: 0,
        },
    )?;
    let c = put_unindented(bytes, numbers, texts, content, prefix.bytes);
    Ok(Done {
        data: c.d,
        entries: c.e,
        text: c.t,
        number: 0,
    })
}
