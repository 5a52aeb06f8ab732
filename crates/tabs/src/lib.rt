// Tab stops: `write_tabs_expanded` (document 02, Q-2), each byte 09 replaced by spaces up to the next stop.
// It keeps one promise, `Leaves` (layout), for the job `expand_tabs`.
// A tab is one replacement: the 09 goes and some of 64 spaces come in. So the laws of writing are those of replacement records.
// Its step stands here and is not `replace::write_step`: with a second caller that one would no longer be inlined, and replacing would take up to half as long again.
// `bytes`, `numbers` and `texts` are the lent buffers; `content` is the recording whose tabs are expanded.
#![tactic(auto)]

ghost use Rattle.std.specs.Prelude.{◌≡◌, ◌+◌, ◌*◌, ◌≤◌, ◌<◌, length, drop, get_or};
ghost use Rattle.chars.specs.Chars.{chars};
ghost use Rattle.recording.specs.Recording.{items};
ghost use Rattle.recording.specs.Read.{recording_of};
ghost use Rattle.recording.specs.Edit.{edit, edit_data};
ghost use Rattle.recording.specs.Refusals.{data_limit};
ghost use Rattle.recording.specs.Check.{fault_of};
ghost use Rattle.writer.specs.Write.{out, add, blank, Fits, SoundIn};
ghost use Rattle.writer.specs.Sizes.{sizes_fault, room_of_lengths};
ghost use Rattle.layout.specs.Tabs.{spaces_at_column, tab_ops};
ghost use Rattle.layout.specs.Layout.{expand_tabs, stop_fault};
ghost use Rattle.layout.specs.Lent.{lent_of, Leaves};
ghost use Rattle.replace.specs.Records.{capped};
ghost use Rattle.tabs.specs.Tabs.{Onward, Passed, Reached, tab_count_of};

use chars::seen_at;
use recording::{Done, Recording, Refusal};
use recording_check::check;
use share::own_size;
use writer::{Cursor, Lengths, START, keep, put_bytes, settle, skip};

// What a tab's spaces are taken from: no tab becomes more than 64.
const SPACES: [u8; 64] = [0x20; 64];

// A place in the data, and the column there.
#[derive(Clone, Copy)]
pub struct Place {
    pub at: usize,
    pub column: u32,
}

// How many spaces a tab at this column becomes.
fn spaces_at(stop: u32, column: u32) -> u32
    requires { 1 ≤ stop }
    ensures { (result ≡ spaces_at_column stop column) × (1 ≤ result) × (result ≤ stop) }
{
    stop - column % stop
}

// The place behind the character at a place, which is no tab. A 0A and other controls are told apart only below 20.
fn pass(s: &[u8], p: Place) -> Place
    requires { (p.at < length s.now) × (length s.now ≤ data_limit) × (p.column ≤ 64 * p.at) × (get_or s.now p.at 0 ≡ 0x09 → ⊥) }
    ensures { Passed s.now p.at p.column result }
{
    let b = s[p.at];
    if 0x20 <= b {
        let c = seen_at(s, p.at);
        return Place {
            at: p.at + c.len,
            column: p.column + c.width,
        };
    }
    if b == 0x0A {
        return Place {
            at: p.at + 1,
            column: 0,
        };
    }
    Place { at: p.at + 1, ..p }
}

// The place behind the printable ASCII bytes from a place on. Each is a character of width 1, and two tests are enough for it; most texts have no others.
fn pass_printable(s: &[u8], p: Place) -> Place
    requires { (p.at ≤ length s.now) × (length s.now ≤ data_limit) × (p.column ≤ 64 * p.at) }
    ensures { Onward s.now p.at p.column result }
{
    let n = s[p.at..]
        .iter()
        .position(|b| *b < 0x20 || 0x7F <= *b)
        .unwrap_or(s.len() - p.at);
    Place {
        at: p.at + n,
        column: p.column + n as u32,
    }
}

// The place of the next tab, the data's end if there is none.
fn next_tab(s: &[u8], from: Place) -> Place
    requires { (from.at ≤ length s.now) × (length s.now ≤ data_limit) × (from.column ≤ 64 * from.at) }
    ensures { Reached s.now from.at from.column result }
{
    let mut p = pass_printable(s, from);
    // kept: no `for`: a step is as long as the character that is read.
    while p.at < s.len() && s[p.at] != 0x09 {
        p = pass(s, p);
    }
    p
}

// The start of the data.
const FIRST: Place = Place { at: 0, column: 0 };

// How many data bytes the result has, capped above the limit of data: the reading stops where that is passed.
fn expanded_len(content: &[u8], stop: u32) -> usize
    requires { (1 ≤ stop) × (stop ≤ 64) × (length content.now ≤ data_limit) }
    ensures { result ≡ capped (length (edit_data (tab_ops stop 0 (chars content.now)) content.now)) }
{
    let mut size = content.len();
    let mut p = next_tab(content, FIRST);
    // kept: no `for`: the next tab is looked for behind the one before.
    while p.at < content.len() {
        let n = spaces_at(stop, p.column);
        size += (n - 1) as usize;
        if 1048576 < size {
            return 1048577;
        }
        p = next_tab(
            content,
            Place {
                at: p.at + 1,
                column: p.column + n,
            },
        );
    }
    size
}

// Writes the content with each tab's spaces in its stead.
fn put_expanded(
    content: Recording<'_>,
    stop: u32,
    bytes: &mut [u8],
    numbers: &mut [u32],
    texts: &mut [u8],
) -> Cursor
    requires sound { SoundIn (recording_of content) }
    requires le_stop { (1 ≤ stop) × (stop ≤ 64) }
    requires fits { Fits (edit (tab_ops stop 0 (chars content.bytes.now)) (items (recording_of content))) (blank bytes.old numbers.old texts.old) }
    ensures { out bytes.new numbers.new texts.new result
        ≡ add (edit (tab_ops stop 0 (chars content.entry.bytes.now)) (items (recording_of content.entry))) (blank bytes.old numbers.old texts.old) }
{
    let mut c = START;
    let mut p = next_tab(content.bytes, FIRST);
    // kept: no `for`: the next tab is looked for behind the one before.
    while p.at < content.bytes.len() {
        let n = spaces_at(stop, p.column);
        c = keep(bytes, numbers, texts, content, c, p.at);
        c = put_bytes(bytes, &SPACES, 0, n as usize, c);
        c = skip(bytes, numbers, texts, content, c, p.at + 1);
        p = next_tab(
            content.bytes,
            Place {
                at: p.at + 1,
                column: p.column + n,
            },
        );
    }
    keep(bytes, numbers, texts, content, c, content.bytes.len())
}

// How many bytes 09 there are. Without a branch, so that many bytes are compared at once.
// kept: a loop. `s.iter().filter(|b| **b == 0x09).count()` branches at each byte: 7 instructions a byte in place of 4.
#[tactic(auto, using(crate::proofs::RecordLaws::count_next))]
fn tab_count(s: &[u8]) -> usize
    ensures { (result ≡ tab_count_of s.now) × (result ≤ length s.now) }
{
    let mut n: usize = 0;
    for b in s {
        n += usize::from(*b == 0x09);
    }
    n
}

// Refusals 9 and 21 to 23, from a text for which `shared` stands. No tab becomes more than `stop` spaces: if there is room for so many, nothing is measured.
fn settle_expanded(
    content: Recording<'_>,
    stop: u32,
    shared: usize,
    room: Lengths,
) -> Result<(), Refusal>
    requires { (1 ≤ stop) × (stop ≤ 64) × (length content.bytes.now ≤ data_limit) }
    ensures { fault_of result ≡ sizes_fault
        (length (edit_data (tab_ops stop 0 (chars content.entry.bytes.now)) content.entry.bytes.now)) (length content.entry.entries.now) shared 0 (room_of_lengths room) }
{
    let most = Lengths {
        bytes: content.bytes.len() + tab_count(content.bytes) * (stop - 1) as usize,
        numbers: content.entries.len(),
        texts: shared,
        lines: 0,
    };
    if settle(most, room).is_ok() {
        return Ok(());
    }
    let bytes = expanded_len(content.bytes, stop);
    settle(Lengths { bytes, ..most }, room)
}

// Refusal 31.
fn check_stop(stop: u32) -> Result<(), Refusal>
    ensures { fault_of result ≡ stop_fault stop }
{
    if stop == 0 || 64 < stop {
        return Err(Refusal::TabStop);
    }
    Ok(())
}

// Writes the content with each byte 09 replaced by spaces up to the next of the stops, which are `stop` columns apart, from 1 to 64. The spaces carry the tab's labels.
pub fn write_tabs_expanded(
    content: Recording<'_>,
    stop: u32,
    bytes: &mut [u8],
    numbers: &mut [u32],
    texts: &mut [u8],
) -> Result<Done, Refusal>
    ensures { Leaves (expand_tabs stop) (recording_of content.entry)
        (lent_of bytes.old numbers.old texts.old) (lent_of bytes.new numbers.new texts.new) result }
{
    let size = check(content)?;
    check_stop(stop)?;
    let shared = own_size(size, texts.len(), content);
    settle_expanded(
        content,
        stop,
        shared,
        Lengths {
            bytes: bytes.len(),
            numbers: numbers.len(),
            texts: texts.len(),
            lines: 0,
        },
    )?;
    let c = put_expanded(content, stop, bytes, numbers, texts);
    Ok(Done {
        data: c.d,
        entries: c.e,
        text: c.t,
        number: 0,
    })
}
