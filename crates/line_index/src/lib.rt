// A line index beside the data (document 02, Q-7): a lent list of line starts, 0 and the place after each 0A.
// The four calls answer and leave what the outcomes and replies of `specs/Index.antt` say, refusals included. None of them requires anything.
// A refused call touches nothing: the list is asked and the room is settled before the first number is written.
#![tactic(auto)]

ghost use Rattle.std.specs.Prelude.{◌≡◌, ◌+◌, ◌≤◌, ◌<◌, leb, length, drop, get_or};
ghost use Rattle.std.specs.List.Sorted.{IsPartitionedBy};
ghost use Rattle.buffer.specs.Place.{over, over_at};
ghost use Rattle.recording.specs.Lists.{same};
ghost use Rattle.recording.specs.Read.{recording_of};
ghost use Rattle.recording.specs.Refusals.{data_limit};
ghost use Rattle.recording.specs.Outcome.{Promised, lent_lines, reply_of};
ghost use Rattle.line_index.specs.Starts.{starts_from, line_starts, line_span};
ghost use Rattle.line_index.specs.Index.{build_outcome, extend_outcome, line_replied, place_replied};
ghost use Rattle.line_index.specs.Code.{stand_behind_in};

use newlines::{count_newlines, has_break};
use recording::{Done, Found, Recording, Refusal};
use recording_check::check;

// Whether so many numbers take the starts after `from`. There is at most one a byte, so that they need not be counted for a list that takes these.
fn starts_fit(s: &[u8], from: usize, room: usize) -> bool
    requires { from ≤ length s.now }
    ensures { result ≡ leb (length (starts_from from (drop from s.now))) room }
{
    s.len() - from <= room || count_newlines(s, from) <= room
}

// Puts the places behind the 0A among the bytes of a part, which stands from `at` on, into the list from k on, and returns the place after them.
fn put_starts(part: &[u8], at: usize, index: &mut [u32], k: usize) -> usize
    requires part_bound { at + length part.now ≤ data_limit }
    requires part_in_bounds { k + length (starts_from at part.now) ≤ length index.old }
    ensures index_after { index.new ≡ over_at k (starts_from at part.now) index.old }
    ensures value { result ≡ k + length (starts_from at part.now) }
{
    let mut n = k;
    for (i, b) in part.iter().enumerate() {
        if *b == 10 {
            index[n] = (at + i + 1) as u32;
            n += 1;
        }
    }
    n
}

// Puts the starts after `from` into the list from `first` on, and returns the place after them. Blocks without 0A are passed whole.
fn write_starts(s: &[u8], from: usize, index: &mut [u32], first: usize) -> usize
    requires from_in_bounds { (from ≤ length s.now) × (length s.now ≤ data_limit) }
    requires s_in_bounds { first + length (starts_from from (drop from s.now)) ≤ length index.old }
    ensures index_after { index.new ≡ over_at first (starts_from from (drop from s.now)) index.old }
    ensures value { result ≡ first + length (starts_from from (drop from s.now)) }
{
    let (blocks, rest) = s[from..].as_chunks::<16>();
    let mut k = first;
    let mut at = from;
    for block in blocks {
        if has_break(block) {
            k = put_starts(block, at, index, k);
        }
        at += 16;
    }
    put_starts(rest, at, index, k)
}

// Puts the whole index into the list, and returns how many lines there are.
fn write_index(s: &[u8], index: &mut [u32]) -> usize
    requires s_len_bound { length s.now ≤ data_limit }
    requires s_in_bounds { length (line_starts s.now) ≤ length index.old }
    ensures index_after { index.new ≡ over (line_starts s.now) index.old }
    ensures value { result ≡ length (line_starts s.now) }
{
    index[0] = 0;
    write_starts(s, 0, index, 1)
}

// Whether the numbers rise from 0 on, and each is the place behind a 0A.
fn stand_behind(s: &[u8], starts: &[u32]) -> bool
    ensures { result ≡ stand_behind_in s.now 0 starts.now }
{
    let mut last = 0;
    for start in starts {
        let at = *start as usize;
        if at <= last || s.len() < at || s[at - 1] != 10 {
            return false;
        }
        last = at;
    }
    true
}

// Whether the list is the index of the data. Numbers that rise, each behind a 0A, and as many as there are 0A, are all of them: so the data is read once, to count.
fn is_index(s: &[u8], index: &[u32]) -> bool
    ensures { result ≡ same index.now (line_starts s.now) }
{
    match index {
        [first, rest @ ..] => *first == 0
            && stand_behind(s, rest)
            && count_newlines(s, 0) == rest.len(),
        [] => false,
    }
}

// The last place of the list whose number is not above the offset.
fn find_line(index: &[u32], offset: usize) -> usize
    requires index_parted { IsPartitionedBy (λ n. leb n offset) index.now }
    requires index_nonzero { 0 < length index.now }
    requires index_bound { get_or index.now 0 0 ≤ offset }
    ensures { (result < length index.now) × (get_or index.now result 0 ≤ offset)
        × (result + 1 < length index.now → offset < get_or index.now (result + 1) 0) }
{
    index.partition_point(|start| *start as usize <= offset) - 1
}

// The end of line n: one before the next start, or the data's end.
fn end_of(s: &[u8], index: &[u32], n: usize) -> usize
    requires index_value { index.now ≡ line_starts s.now }
    requires n_in_bounds { n < length index.now }
    ensures { result ≡ (line_span s.now n).end }
{
    match index.get(n + 1) {
        Some(next) => *next as usize - 1,
        None => s.len(),
    }
}

// The index of the data, in `index`; the number that comes back is the count of lines.
pub fn build_line_index(content: Recording<'_>, index: &mut [u32]) -> Result<Done, Refusal>
    ensures { Promised (build_outcome (recording_of content.entry) (length index.old))
        (lent_lines index.old) (lent_lines index.new) result }
{
    check(content)?;
    if index.len() == 0 || !starts_fit(content.bytes, 0, index.len() - 1) {
        return Err(Refusal::LineIndex);
    }
    let count = write_index(content.bytes, index);
    Ok(Done {
        data: 0,
        entries: 0,
        text: 0,
        number: count as u64,
    })
}

// The index of all data, in `index`, whose first `used` numbers are that of the first `earlier` bytes. Only the starts behind those are written.
pub fn extend_line_index(
    content: Recording<'_>,
    earlier: usize,
    index: &mut [u32],
    used: usize,
) -> Result<Done, Refusal>
    ensures { Promised (extend_outcome (recording_of content.entry) earlier index.old used)
        (lent_lines index.old) (lent_lines index.new) result }
{
    check(content)?;
    if index.len() < used
        || content.bytes.len() < earlier
        || !is_index(&content.bytes[..earlier], &index[..used])
        || !starts_fit(content.bytes, earlier, index.len() - used)
    {
        return Err(Refusal::LineIndex);
    }
    let count = write_starts(content.bytes, earlier, index, used);
    Ok(Done {
        data: 0,
        entries: 0,
        text: 0,
        number: count as u64,
    })
}

// The first byte and the end of line n, counted from 0.
pub fn line_at(content: Recording<'_>, index: &[u32], n: usize) -> Result<Found, Refusal>
    ensures { reply_of result ≡ line_replied (recording_of content.entry) index.now n }
{
    check(content)?;
    if !is_index(content.bytes, index) {
        return Err(Refusal::LineIndex);
    }
    if index.len() <= n {
        return Err(Refusal::NoSuchPlace);
    }
    Ok(Found {
        first: index[n] as usize,
        second: end_of(content.bytes, index, n),
    })
}

// The line and the byte column of an offset, both counted from 0.
pub fn place_of(content: Recording<'_>, index: &[u32], offset: usize) -> Result<Found, Refusal>
    ensures { reply_of result ≡ place_replied (recording_of content.entry) index.now offset }
{
    check(content)?;
    if !is_index(content.bytes, index) {
        return Err(Refusal::LineIndex);
    }
    if content.bytes.len() < offset {
        return Err(Refusal::NoSuchPlace);
    }
    let line = find_line(index, offset);
    Ok(Found {
        first: line,
        second: offset - index[line] as usize,
    })
}
