// Runs `write_replaced` over arrays of two records and prints a line for each case: the refusal, or the three lengths; then what the buffers hold, dots where they were not written.
// Its cases are those that `vectors` has over flat numbers, under the same titles.
#![tactic(auto)]

ghost use Rattle.std.specs.Prelude.{[], ◌∷◌, ◌≤◌};
ghost use Rattle.recording.specs.Read.{recording_of};
ghost use Rattle.layout.specs.Layout.{replace};
ghost use Rattle.layout.specs.Lent.{lent_of, Leaves};

use layout::Replacement;
use recording::{Done, Recording, Refusal};
use replace_records::write_replaced;
use std::io;

// Lends two records as a list.
fn with_two(
    a: Replacement,
    b: Replacement,
    content: Recording<'_>,
    new: &[u8],
    bytes: &mut [u8],
    numbers: &mut [u32],
    texts: &mut [u8],
) -> Result<Done, Refusal>
    ensures { Leaves (replace (a ∷ b ∷ []) new.now) (recording_of content.entry)
        (lent_of bytes.old numbers.old texts.old) (lent_of bytes.new numbers.new texts.new) result }
{
    write_replaced(content, &[a, b], new, bytes, numbers, texts)
}

fn record(start: u32, end: u32, from: u32, to: u32) -> Replacement {
    Replacement {
        start,
        end,
        from,
        to,
    }
}

// The lengths of the lent buffers.
#[derive(Clone, Copy)]
struct Room {
    bytes: usize,
    numbers: usize,
    texts: usize,
}

// A case in these buffers; the replacement text is XY.
fn case_by(
    rt: &impl Print,
    name: &[u8],
    content: Recording<'_>,
    a: Replacement,
    b: Replacement,
    bytes: &mut [u8],
    numbers: &mut [u32],
    texts: &mut [u8],
) -> io::Result<()> {
    let r = with_two(a, b, content, b"XY", bytes, numbers, texts);
    rt.write_all(name)?;
    rt.write_all(b":")?;
    report::answer(rt, r)?;
    rt.write_all(b" |")?;
    rt.write_all(bytes)?;
    rt.write_all(b"|")?;
    report::numbers(rt, numbers)?;
    rt.write_all(b" |")?;
    rt.write_all(texts)?;
    rt.write_all(b"|\n")
}

// A case in buffers of these lengths.
fn case_in(
    rt: &impl Print,
    name: &[u8],
    content: Recording<'_>,
    a: Replacement,
    b: Replacement,
    room: Room,
) -> io::Result<()>
    requires { (room.bytes ≤ 32) × (room.numbers ≤ 32) × (room.texts ≤ 16) }
{
    let mut bytes = [0x2E; 32];
    let mut numbers = [7; 32];
    let mut texts = [0x2E; 16];
    case_by(
        rt,
        name,
        content,
        a,
        b,
        &mut bytes[..room.bytes],
        &mut numbers[..room.numbers],
        &mut texts[..room.texts],
    )
}

// The content abcdef without entries, with a data buffer of 12 bytes.
fn plain(rt: &impl Print, name: &[u8], a: Replacement, b: Replacement) -> io::Result<()> {
    let content = Recording {
        bytes: b"abcdef",
        entries: &[],
        text: b"",
    };
    let room = Room {
        bytes: 12,
        numbers: 0,
        texts: 0,
    };
    case_in(rt, name, content, a, b, room)
}

// abcdef with "hi" open from 1 to 4 and a raw sequence at 3.
fn labelled(
    rt: &impl Print,
    name: &[u8],
    a: Replacement,
    b: Replacement,
    bytes: usize,
    numbers: usize,
    texts: usize,
) -> io::Result<()>
    requires { (bytes ≤ 32) × (numbers ≤ 32) × (texts ≤ 16) }
{
    let content = Recording {
        bytes: b"abcdef",
        entries: &[1, 0, 1, 2, 3, 2, 3, 1, 4, 1, 0, 0],
        text: b"?hiR?",
    };
    let room = Room {
        bytes,
        numbers,
        texts,
    };
    case_in(rt, name, content, a, b, room)
}

// Document 01's C14 first.
fn good(rt: &impl Print) -> io::Result<()> {
    plain(rt, b"C14", record(1, 3, 0, 1), record(6, 6, 1, 2))?;
    plain(rt, b"touching", record(1, 3, 0, 1), record(3, 4, 1, 2))?;
    plain(rt, b"at both ends", record(0, 0, 0, 1), record(6, 6, 1, 2))?;
    labelled(
        rt,
        b"twice in at the pop",
        record(4, 4, 0, 1),
        record(4, 4, 1, 2),
        8,
        12,
        4,
    )?;
    labelled(
        rt,
        b"at both ends",
        record(0, 0, 0, 1),
        record(6, 6, 1, 2),
        8,
        12,
        3,
    )
}

// Each cause of refusal 8, in the second record; and the first bad one before it.
fn bad(rt: &impl Print) -> io::Result<()> {
    let a = record(1, 3, 0, 1);
    plain(rt, b"start > end", a, record(5, 4, 0, 1))?;
    plain(rt, b"end beyond the data", a, record(4, 7, 0, 1))?;
    plain(rt, b"start below the previous end", a, record(2, 4, 0, 1))?;
    plain(rt, b"from > to", a, record(4, 5, 1, 0))?;
    plain(rt, b"to beyond its text", a, record(4, 5, 0, 3))?;
    plain(rt, b"the first", record(3, 2, 0, 1), record(4, 5, 0, 1))
}

// Other refusals: the content's first, then 8, then those for room; nothing is written.
fn refused(rt: &impl Print) -> io::Result<()> {
    let a = record(1, 3, 0, 1);
    let b = record(4, 4, 1, 2);
    let c = record(2, 4, 0, 1);
    labelled(rt, b"exactly full", a, b, 6, 12, 3)?;
    labelled(rt, b"data one short", a, b, 5, 12, 3)?;
    labelled(rt, b"entries one short", a, b, 6, 11, 3)?;
    labelled(rt, b"text one short", a, b, 6, 12, 2)?;
    labelled(rt, b"bad and short", a, c, 5, 11, 2)?;
    let falling = Recording {
        bytes: b"ab",
        entries: &[2, 1, 0, 0, 1, 1, 0, 0],
        text: b"",
    };
    let room = Room {
        bytes: 4,
        numbers: 8,
        texts: 1,
    };
    case_in(rt, b"falling", falling, a, c, room)
}

fn main(rt: HostRuntime) -> io::Result<()> {
    good(&rt)?;
    bad(&rt)?;
    refused(&rt)
}
