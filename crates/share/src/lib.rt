// Labels that are stored a single time: where the text of a label that is pushed goes, behind entries that are there.
#![tactic(auto)]

ghost use Rattle.std.specs.Prelude.{◌≡◌, ◌+◌, ◌%◌, ◌≤◌, length, take, [], ◌∷◌, true};
ghost use Rattle.buffer.specs.Place.{over_at};
ghost use Rattle.recording.specs.Lists.{same};
ghost use Rattle.recording.specs.Share.{Inside};
ghost use Rattle.recording.specs.Recording.{entries_of, numbers_of_ranges, is_push_of, start_in, new_text};
ghost use Rattle.share.specs.Placed.{placed_from};
ghost use Rattle.share.specs.Sizes.{raw_in, raws_in, label_in, labels_in, first_added_of, Serve, size_less, text_size_of, own_size_of, less_size_of, Counts, Stands};

use recording::{Entries, Entry, Recording};

// Where a label's text starts, and how many of its bytes come to the text: all of them, or none if a push has them.
#[derive(Clone, Copy)]
pub struct Place {
    pub start: u32,
    pub add: usize,
}

// Whether two texts are equal. From the end: names that differ often begin alike.
pub fn same_text(a: &[u8], b: &[u8]) -> bool
    ensures { result ≡ same a.now b.now }
{
    if a.len() != b.len() {
        return false;
    }
    for i in (0..a.len()).rev() {
        if a[i] != b[i] {
            return false;
        }
    }
    true
}

// Whether an entry is a push of the label: its kind and length first, which most others fail.
#[tactic(auto, using(crate::proofs::Laws::sticks_out))]
fn is_push(texts: &[u8], e: Entry, label: &[u8]) -> bool
    ensures { result ≡ is_push_of label.now texts.now e }
{
    if e.kind != 0 || e.len as usize != label.len() {
        return false;
    }
    let start = e.start as usize;
    let end = start + e.len as usize;
    if texts.len() < end {
        return e.len == 0;
    }
    same_text(&texts[start..end], label)
}

// Searches the entries from the first on for a push of the label: it takes the part of the first one that has it, and else goes to the text's end.
pub fn place_label(numbers: &[u32], texts: &[u8], label: &[u8]) -> Place
    requires { length texts.now ≤ 65536 }
    ensures start_value { result.start ≡ start_in label.now texts.now (length texts.now) (entries_of numbers.now) }
    ensures add_value { result.add ≡ length (new_text label.now texts.now (entries_of numbers.now)) }
{
    for e in Entries::of(numbers) {
        if is_push(texts, e, label) {
            return Place {
                start: e.start,
                add: 0,
            };
        }
    }
    Place {
        start: texts.len() as u32,
        add: label.len(),
    }
}

// As `place_label`, among the entries of a result: a part is compared a single time, however many pushes have it.
// `top` is how far the texts reach: a push that starts below it has a part that was compared.
pub fn place_in_result(numbers: &[u32], texts: &[u8], label: &[u8]) -> Place
    requires texts_len_bound { length texts.now ≤ 65536 }
    requires numbers_value { placed_from 0 [] (entries_of numbers.now) ≡ true }
    ensures start_value { result.start ≡ start_in label.now texts.now (length texts.now) (entries_of numbers.now) }
    ensures add_value { result.add ≡ length (new_text label.now texts.now (entries_of numbers.now)) }
{
    let mut top = 0;
    for entry in Entries::of(numbers) {
        let start = entry.start as usize;
        if top <= start {
            if is_push(texts, entry, label) {
                return Place {
                    start: entry.start,
                    add: 0,
                };
            }
            top = start + entry.len as usize;
        }
    }
    Place {
        start: texts.len() as u32,
        add: label.len(),
    }
}

// The raw sequence of an entry.
fn raw_len(e: Entry) -> usize
    ensures { result ≡ raw_in e }
{
    if e.kind == 2 { e.len as usize } else { 0 }
}

// The raw sequences of a recording.
fn raw_size(content: Recording<'_>) -> usize
    requires { (length content.entries.now ≤ 16384) × (length content.text.now ≤ 65536) × Inside content.text.now (entries_of content.entries.now) }
    ensures { (result ≡ raws_in (entries_of content.entry.entries.now)) × (result ≤ 268435456) }
{
    let mut size = 0;
    for e in Entries::of(content.entries) {
        size += raw_len(e);
    }
    size
}

// What the label of the entry e, behind the pushes in `before`, brings to a text that has the labels of `those`; `own` has the parts of e and of `before`.
#[tactic(auto, using(crate::proofs::SizeLaws::no_label, crate::proofs::SizeLaws::none_new))]
fn label_more(those: Recording<'_>, before: &[u32], own: &[u8], e: Entry) -> usize
    requires { (length those.text.now ≤ 65536) × (length own.now ≤ 65536) × (e.start + e.len ≤ length own.now) }
    ensures { (result ≡ label_in those.entry.text.now (entries_of those.entry.entries.now) own.now (entries_of before.now) e) × (result ≤ 65536) }
{
    let start = e.start as usize;
    let label = &own[start..start + e.len as usize];
    if e.kind != 0 || place_label(those.entries, those.text, label).add == 0 {
        return 0;
    }
    place_label(before, own, label).add
}

// Writes an entry's four numbers from k on.
// kept: four stores; one `copy_from_slice` of the four is 100 bytes of machine code and not 37, over an array on the stack and a test for overlap.
#[tactic(auto, using(crate::proofs::FirstLaws::four_stores))]
pub fn set_entry(numbers: &mut [u32], k: usize, e: Entry)
    requires { k + 4 ≤ length numbers.old }
    ensures { numbers.new ≡ over_at k (numbers_of_ranges (e ∷ [])) numbers.old }
{
    numbers[k] = e.position;
    numbers[k + 1] = e.kind;
    numbers[k + 2] = e.start;
    numbers[k + 3] = e.len;
}

// The entries that brought a new text, up to `end` in a list of their own; and the size that is counted with them.
#[derive(Clone, Copy)]
struct Firsts {
    end: usize,
    size: usize,
}

// Counts the label of the entry e, and keeps the entry if its label is new: who searches a label needs no other push of it.
#[tactic(auto, using(crate::proofs::FirstLaws::not_kept, crate::proofs::FirstLaws::kept))]
fn add_first(those: Recording<'_>, firsts: &mut [u32], own: &[u8], e: Entry, f: Firsts) -> Firsts
    requires text_len_bound { (length those.text.now ≤ 65536) × (length own.now ≤ 65536) × (e.start + e.len ≤ length own.now) }
    requires end_in_bounds { (f.end + 4 ≤ length firsts.old) × (f.end % 4 ≡ 0) × (f.size ≤ 65536) }
    ensures size_value { result.size ≡ f.size + label_in those.entry.text.now (entries_of those.entry.entries.now) own.now (entries_of (take f.end firsts.old)) e }
    ensures end_value { (result.end % 4 ≡ 0) × (result.end ≤ f.end + 4) × (result.size ≤ f.size + 65536) }
    ensures firsts_after { entries_of (take result.end firsts.new) ≡ first_added_of those.entry.text.now (entries_of those.entry.entries.now) own.now (entries_of (take f.end firsts.old)) e }
{
    let m = f.end;
    let add = label_more(those, &firsts[..m], own, e);
    if add == 0 {
        return f;
    }
    set_entry(firsts, m, e);
    Firsts {
        end: m + 4,
        size: f.size + add,
    }
}

// Counts, from `size` on, the labels of a recording that neither `those` nor entries before them in their own recording have, and keeps in `firsts` the entries that brought one.
// Stops above the limit, where refusal 9 is certain: what is kept was counted, so that no label is compared with more than 65,536 bytes.
fn more_labels(size: usize, those: Recording<'_>, more: Recording<'_>, firsts: &mut [u32]) -> Firsts
    requires { (size ≤ 65536) × (length those.text.now ≤ 65536) × (length more.text.now ≤ 65536) × (length more.entries.now ≤ length firsts.old) × Inside more.text.now (entries_of more.entries.now) }
    ensures counts { Counts (size + labels_in those.entry.text.now (entries_of those.entry.entries.now) more.entry.text.now [] (entries_of more.entry.entries.now)) result.size }
    ensures end_in_bounds { (result.end ≤ length firsts.old) × (result.size ≤ 131072) }
    ensures serve { Serve result.size those.entry.text.now (entries_of those.entry.entries.now) more.entry.text.now (entries_of (take result.end firsts.new)) (entries_of more.entry.entries.now) }
{
    let mut f = Firsts { end: 0, size };
    for e in Entries::of(more.entries) {
        f = add_first(those, firsts, more.text, e, f);
        if 65536 < f.size {
            return f;
        }
    }
    f
}

// A recording without anything.
const NOTHING: Recording<'static> = Recording {
    bytes: &[],
    entries: &[],
    text: &[],
};

// The text of a result that has all entries of one recording but raw sequences of `gone` bytes, and those of a second one n times; above the limit, any number above it.
#[inline(never)]
fn exact_size(gone: usize, content: Recording<'_>, second: Recording<'_>, n: usize) -> usize
    requires entries_len_bound { (length content.entries.now ≤ 16384) × (length content.text.now ≤ 65536) × Inside content.text.now (entries_of content.entries.now) × (gone ≤ raws_in (entries_of content.entries.now)) }
    requires second_len_bound { (length second.entries.now ≤ 16384) × (length second.text.now ≤ 65536) × Inside second.text.now (entries_of second.entries.now) × (n ≤ 1048576) }
    ensures { Counts (size_less gone content.entry.text.now (entries_of content.entry.entries.now) second.entry.text.now (entries_of second.entry.entries.now) n) result }
{
    let raws = raw_size(content) - gone + n * raw_size(second);
    if 65536 < raws {
        return raws;
    }
    let mut firsts = [0u32; 16384];
    let one = more_labels(raws, NOTHING, content, &mut firsts);
    if n == 0 || 65536 < one.size {
        return one.size;
    }
    let own_firsts = Recording {
        entries: &firsts[..one.end],
        ..content
    };
    let mut others = [0u32; 16384];
    more_labels(one.size, own_firsts, second, &mut others).size
}

// A text size that settles the call as the exact one, of a result that has all entries of one recording, and those of a second one n times:
// all texts side by side, `plain`, if there is room for them, and else the exact size.
// Callers have the test in place, and the arrays of the count stay out of their frames: `exact_size` is never inlined.
#[tactic(auto, using(crate::proofs::SizeLaws::exact, crate::proofs::SizeLaws::roomy, crate::proofs::SizeLaws::less_none))]
pub fn text_size(
    plain: usize,
    room: usize,
    content: Recording<'_>,
    second: Recording<'_>,
    n: usize,
) -> usize
    requires entries_len_bound { (length content.entries.now ≤ 16384) × (length content.text.now ≤ 65536) × Inside content.text.now (entries_of content.entries.now) }
    requires second_len_bound { (length second.entries.now ≤ 16384) × (length second.text.now ≤ 65536) × Inside second.text.now (entries_of second.entries.now) × (n ≤ 1048576) }
    requires n_bound { text_size_of content.text.now (entries_of content.entries.now) second.text.now (entries_of second.entries.now) n ≤ plain }
    ensures { Stands room (text_size_of content.entry.text.now (entries_of content.entry.entries.now) second.entry.text.now (entries_of second.entry.entries.now) n) result }
{
    if plain <= 65536 && plain <= room {
        return plain;
    }
    exact_size(0, content, second, n)
}

// As `text_size`, of a result that has the entries of one recording alone.
#[tactic(auto, unfolding(recording::specs::Share::Inside))]
pub fn own_size(plain: usize, room: usize, content: Recording<'_>) -> usize
    requires entries_len_bound { (length content.entries.now ≤ 16384) × (length content.text.now ≤ 65536) × Inside content.text.now (entries_of content.entries.now) }
    requires entries_bound { own_size_of content.text.now (entries_of content.entries.now) ≤ plain }
    ensures { Stands room (own_size_of content.entry.text.now (entries_of content.entry.entries.now)) result }
{
    // of a recording that is written 0 times nothing counts, so the content stands for any
    text_size(plain, room, content, content, 0)
}

// As `own_size`, of a result that has all entries of a recording but raw sequences of `gone` bytes.
#[tactic(auto, using(crate::proofs::SizeLaws::exact, crate::proofs::SizeLaws::roomy), unfolding(recording::specs::Share::Inside))]
pub fn less_size(plain: usize, room: usize, gone: usize, content: Recording<'_>) -> usize
    requires entries_len_bound { (length content.entries.now ≤ 16384) × (length content.text.now ≤ 65536) × Inside content.text.now (entries_of content.entries.now) }
    requires gone_bound { (gone ≤ raws_in (entries_of content.entries.now)) × (less_size_of content.text.now (entries_of content.entries.now) gone ≤ plain) }
    ensures { Stands room (less_size_of content.entry.text.now (entries_of content.entry.entries.now) gone) result }
{
    if plain <= 65536 && plain <= room {
        return plain;
    }
    exact_size(gone, content, NOTHING, 0)
}
