// Whether a reader's label is open at a place, without a stack: how many labels are open, and the depth that the outermost push of this label made.
// The label is open as long as that push is, and the pop that finds the depth at `since` closes it.
#![tactic(auto)]

ghost use Rattle.std.specs.Prelude.{◌≡◌, false, not, ◌&&◌, ◌||◌, ltb, eqb, ◌+◌, ◌-◌, ◌≤◌, ◌<◌, length};
ghost use Rattle.recording.specs.Read.{recording_of};
ghost use Rattle.recording.specs.Coloured.{balanced};
ghost use Rattle.recording.specs.Refusals.{bad_shape_of, refuse_if, text_limit, entry_limit};
ghost use Rattle.recording.specs.Check.{fault_of};
ghost use Rattle.writer.specs.Write.{SoundIn, ReadyIn, left_in, item_at};
ghost use Rattle.open_label.specs.Open.{Opened, Drops, Under, Counted, ScanTold};

use recording::{Entries, Entry, Recording, Refusal};
use writer::{Cursor, START};

// How many labels are open, and since which depth the reader's label is; 0: it is not.
#[derive(Clone, Copy)]
pub struct Open {
    pub depth: usize,
    pub since: usize,
}

// No label is open.
pub const CLOSED: Open = Open { depth: 0, since: 0 };

// A place in the content with how far the buffers are written, and what is open there.
#[derive(Clone, Copy)]
pub struct Walk {
    pub c: Cursor,
    pub o: Open,
}

// The walk at the content's first place, with nothing written.
pub const FIRST: Walk = Walk {
    c: START,
    o: CLOSED,
};

// What the floor is left of the entries: whether the label is pushed at all, and how many entry numbers and text bytes there are without the raw sequences under it.
#[derive(Clone, Copy)]
pub struct Kept {
    // kept: no Option: the two lengths are those of what stays, whether the label is found or not.
    pub found: bool,
    pub entries: usize,
    pub text: usize,
}

// What is open behind an entry. A pop that finds no label open leaves none open.
pub fn opened(text: &[u8], label: &[u8], e: Entry, o: Open) -> Open
    requires { (e.start + e.len ≤ length text.now) × (o.depth < 18446744073709551615) }
    ensures opened { Opened label.now (item_at text.now e) o result }
    ensures depth_bound { result.depth ≤ o.depth + 1 }
{
    match e.kind {
        0 => {
            let start = e.start as usize;
            let end = start + e.len as usize;
            let depth = o.depth + 1;
            // `==` compares from the first byte on, many at once: labels that differ early cost nothing, and long ones that differ late little.
            let first = o.since == 0 && label == &text[start..end];
            Open {
                depth,
                since: if first { depth } else { o.since },
            }
        }
        1 => Open {
            depth: o.depth.saturating_sub(1),
            since: if o.depth == o.since { 0 } else { o.since },
        },
        _ => o,
    }
}

// Whether an entry is a raw sequence under the label: the floor is not left it.
pub fn drops(e: Entry, o: Open) -> bool
    requires { bad_shape_of e.kind e.start e.len ≡ false }
    ensures { Drops e o result }
{
    e.kind == 2 && o.since != 0
}

// Whether there is a byte from `at` up to p under the label.
fn covers(at: usize, p: usize, since: usize) -> bool
    ensures { result ≡ (ltb at p && not (eqb since 0)) }
{
    at < p && since != 0
}

// Whether one of the bytes from the walk's place up to `end` is under the label. A byte is under it after all entries at its place.
pub fn any_under(content: Recording<'_>, label: &[u8], from: Walk, end: usize) -> bool
    requires ready { ReadyIn (recording_of content) from.c }
    requires at_lt_end { (from.c.at < end) × (end ≤ length content.bytes.now) × (from.o.depth ≤ from.c.k) }
    ensures { Under label.now from.o (end - from.c.at) (left_in (recording_of content.entry) from.c) result }
{
    let mut at = from.c.at;
    let mut o = from.o;
    for e in Entries::of(&content.entries[from.c.k..]) {
        let p = e.position as usize;
        if end <= p {
            break;
        }
        if covers(at, p, o.since) {
            return true;
        }
        o = opened(content.text, label, e, o);
        at = p;
    }
    o.since != 0
}

// The entry numbers and text bytes of an entry that the floor is left, added.
fn counted(n: Kept, e: Entry, o: Open, behind: Open) -> Kept
    requires len_value { bad_shape_of e.kind e.start e.len ≡ false }
    requires entries_bound { (n.entries < 4294967296) × (n.text < 4294967296) }
    ensures found_value { result.found ≡ (n.found || not (eqb behind.since 0)) }
    ensures counted { Counted e o n result }
    ensures entries_bound_2 { (result.entries ≤ n.entries + 4) × (result.text ≤ n.text + e.len) }
{
    let found = n.found | (behind.since != 0);
    if drops(e, o) {
        return Kept { found, ..n };
    }
    Kept {
        found,
        entries: n.entries + 4,
        text: n.text + e.len as usize,
    }
}

// Whether an entry is a pop that finds no label open.
fn unopened(e: Entry, o: Open) -> bool
    ensures { result ≡ (eqb e.kind 1 && eqb o.depth 0) }
{
    e.kind == 1 && o.depth == 0
}

// Reads the entries once: refusal 35, a pop without an open label or a label that is never closed, and what the floor is left of them.
pub fn scan(content: Recording<'_>, label: &[u8]) -> Result<Kept, Refusal>
    requires sound { SoundIn (recording_of content) }
    requires entries_len_bound { (length content.entries.now ≤ entry_limit) × (length content.text.now ≤ text_limit) }
    ensures result_value { fault_of result ≡ refuse_if (not (balanced (recording_of content.entry))) 35 }
    ensures scan_told { ScanTold label.now (recording_of content.entry) result }
{
    let mut o = CLOSED;
    let mut n = Kept {
        found: false,
        entries: 0,
        text: 0,
    };
    for e in Entries::of(content.entries) {
        if unopened(e, o) {
            return Err(Refusal::ContentUnbalanced);
        }
        let behind = opened(content.text, label, e, o);
        n = counted(n, e, o, behind);
        o = behind;
    }
    if o.depth != 0 {
        return Err(Refusal::ContentUnbalanced);
    }
    Ok(n)
}
