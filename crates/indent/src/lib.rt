// Indenting: `write_indented` (document 01, module 3), the prefix, a recording, before every line that is not empty.
// It keeps one promise, `Leaves` (layout), for the job `indent`.
// `bytes`, `numbers` and `texts` are the lent buffers; `content` is the recording that is indented.
#![tactic(auto)]

ghost use Rattle.std.specs.Prelude.{◌≡◌, true, false, ◌+◌, ◌-◌, ◌*◌, ◌≤◌, ◌<◌, length, drop};
ghost use Rattle.newlines.specs.Newlines.{to_break};
ghost use Rattle.recording.specs.Recording.{items};
ghost use Rattle.recording.specs.Read.{recording_of};
ghost use Rattle.recording.specs.Edit.{edit};
ghost use Rattle.writer.specs.Write.{out, add, blank, Fits, SoundIn};
ghost use Rattle.layout.specs.Layout.{indent_ops, indent};
ghost use Rattle.layout.specs.Lent.{lent_of, Leaves};
ghost use Rattle.indent.specs.Lines.{filled_lines_of, to_next};

use newlines::has_break;
use recording::{Done, Recording, Refusal};
use recording_check::check_both;
use share::text_size;
use writer::{Cursor, Lengths, START, keep, put_recording, settle};

// Passes blocks of 16 bytes while no 0A is among them.
fn skip_blocks(s: &[u8], from: usize) -> usize
    requires { from ≤ length s.now }
    ensures s_value { result + to_break (drop result s.now) ≡ from + to_break (drop from s.now) }
    ensures lower_bound { (from ≤ result) × (result ≤ length s.now) }
{
    let (blocks, _) = s[from..].as_chunks::<16>();
    let n = blocks
        .iter()
        .position(|b| has_break(b))
        .unwrap_or(blocks.len());
    from + 16 * n
}

// The place of the next 0A, the end if there is none.
fn line_end(s: &[u8], from: usize) -> usize
    requires { from ≤ length s.now }
    ensures value { result ≡ from + to_break (drop from s.now) }
    ensures lower_bound { (from ≤ result) × (result ≤ length s.now) }
{
    let at = skip_blocks(s, from);
    at + s[at..]
        .iter()
        .position(|b| *b == 10)
        .unwrap_or(s.len() - at)
}

// The first place from the start of a line on that has no 0A: empty lines are passed.
fn skip_empty(s: &[u8], from: usize) -> usize
    requires { from ≤ length s.now }
    ensures value { result ≡ from + to_next true (drop from s.now) }
    ensures lower_bound { (from ≤ result) × (result ≤ length s.now) }
{
    from + s[from..]
        .iter()
        .position(|b| *b != 10)
        .unwrap_or(s.len() - from)
}

// The next place at which a line that is not empty starts, the data's end if there is none.
pub fn next_line(content: &[u8], from: usize, at_start: bool) -> usize
    requires { from ≤ length content.now }
    ensures value { result ≡ from + to_next at_start (drop from content.now) }
    ensures lower_bound { (from ≤ result) × (result ≤ length content.now) }
{
    if at_start {
        return skip_empty(content, from);
    }
    skip_empty(content, line_end(content, from))
}

// How many lines are not empty.
fn filled_lines(content: &[u8]) -> usize
    ensures { (result ≡ filled_lines_of true content.now) × (result ≤ length content.now) }
{
    let mut n = 0;
    let mut at = next_line(content, 0, true);
    // kept: no `for`: each line begins where the one before ended.
    while at < content.len() {
        n += 1;
        at = next_line(content, at, false);
    }
    n
}

// Writes the content with the prefix before every line that is not empty. The entries at a line's first byte come before the prefix, which stands under that byte's labels.
fn put_indented(
    bytes: &mut [u8],
    numbers: &mut [u32],
    texts: &mut [u8],
    content: Recording<'_>,
    prefix: Recording<'_>,
) -> Cursor
    requires sound { SoundIn (recording_of content) × SoundIn (recording_of prefix) }
    requires fits { Fits (edit (indent_ops (items (recording_of prefix)) true content.bytes.now) (items (recording_of content)))
        (blank bytes.old numbers.old texts.old) }
    ensures { out bytes.new numbers.new texts.new result
        ≡ add (edit (indent_ops (items (recording_of prefix.entry)) true content.entry.bytes.now) (items (recording_of content.entry)))
        (blank bytes.old numbers.old texts.old) }
{
    let mut c = START;
    let mut p = next_line(content.bytes, 0, true);
    // kept: no `for`: each line begins where the one before ended.
    while p < content.bytes.len() {
        c = keep(bytes, numbers, texts, content, c, p);
        c = put_recording(bytes, numbers, texts, prefix, c);
        p = next_line(content.bytes, p, false);
    }
    keep(bytes, numbers, texts, content, c, content.bytes.len())
}

// Writes the content with the prefix before every line that is not empty. The sizes come first, as exact products.
pub fn write_indented(
    content: Recording<'_>,
    prefix: Recording<'_>,
    bytes: &mut [u8],
    numbers: &mut [u32],
    texts: &mut [u8],
) -> Result<Done, Refusal>
    ensures { Leaves (indent (recording_of prefix.entry)) (recording_of content.entry)
        (lent_of bytes.old numbers.old texts.old) (lent_of bytes.new numbers.new texts.new) result }
{
    let sizes = check_both(content, prefix)?;
    let count = filled_lines(content.bytes);
    let shared = text_size(
        sizes.content + count * sizes.second,
        texts.len(),
        content,
        prefix,
        count,
    );
    settle(
        Lengths {
            bytes: content.bytes.len() + count * prefix.bytes.len(),
            numbers: content.entries.len() + count * prefix.entries.len(),
            texts: shared,
            lines: 0,
        },
        Lengths {
            bytes: bytes.len(),
            numbers: numbers.len(),
            texts: texts.len(),
            lines: 0,
        },
    )?;
    let c = put_indented(bytes, numbers, texts, content, prefix);
    Ok(Done {
        data: c.d,
        entries: c.e,
        text: c.t,
        number: 0,
    })
}
