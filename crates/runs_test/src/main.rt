// Runs lists of layout calls: lists that are refused, with the buffers as they were; one list of all kinds, refused calls among them, by one call; and its calls one by one.
// What is proved of a program is that it is safe; what it should print stands in the file `stdout`: the five numbers, the two sets of buffers, the line list and the list of answers.
#![tactic(auto)]

ghost use Rattle.std.specs.Prelude.{◌+◌, ◌≤◌, length};

use buffer::put;
use recording::{Done, Refusal};
use runs::run_calls;
use std::io;

// A list of calls, and the pools that their ranges are of.
#[derive(Clone, Copy)]
struct List<'a> {
    calls: &'a [u32],
    pool: &'a [u8],
    pool_numbers: &'a [u32],
}

// How long the content is.
#[derive(Clone, Copy)]
struct Used {
    data: usize,
    entries: usize,
    text: usize,
}

// The first content: "oak 12 ft b" with "oak" labelled and a raw sequence before "12".
const FIRST: Used = Used {
    data: 11,
    entries: 12,
    text: 4,
};

// The content is a result if the list was not refused.
fn used_after(used: Used, a: Result<Done, Refusal>) -> Used {
    match a {
        Err(_) => used,
        Ok(d) => Used {
            data: d.data,
            entries: d.entries,
            text: d.text,
        },
    }
}

// Every place that is lent: two sets of buffers, the line list and the list of answers.
#[derive(Clone, Copy)]
struct Lent {
    bytes: [u8; 64],
    numbers: [u32; 96],
    texts: [u8; 24],
    other_bytes: [u8; 64],
    other_numbers: [u32; 96],
    other_texts: [u8; 24],
    lines: [u32; 16],
    answers: [u64; 42],
}

impl Lent {
    // Writes the first content at the front of the first set.
    fn start(&mut self) {
        let entries = [0, 0, 0, 3, 3, 1, 0, 0, 4, 2, 3, 1];
        put(&mut self.bytes, 0, b"oak 12 ft b", 0, 11);
        put(&mut self.numbers, 0, &entries, 0, 12);
        put(&mut self.texts, 0, b"redR", 0, 4);
    }

    // Runs a list, with the first places of the other text and of the list of answers lent.
    fn run(
        &mut self,
        list: List<'_>,
        used: Used,
        texts: usize,
        answers: usize,
    ) -> Result<Done, Refusal> {
        let other_texts = &mut self.other_texts[..];
        let all_answers = &mut self.answers[..];
        run_calls(
            list.calls,
            list.pool,
            list.pool_numbers,
            used.data,
            used.entries,
            used.text,
            &mut self.bytes,
            &mut self.numbers,
            &mut self.texts,
            &mut self.other_bytes,
            &mut self.other_numbers,
            &mut other_texts[..texts.min(24)],
            &mut self.lines,
            &mut all_answers[..answers.min(42)],
        )
    }

    fn run_all(&mut self, list: List<'_>, used: Used) -> Result<Done, Refusal> {
        self.run(list, used, 24, 42)
    }

    fn show(&self, rt: &impl Print) -> io::Result<()> {
        show_set(rt, b"  first", &self.bytes, &self.numbers, &self.texts)?;
        show_set(
            rt,
            b"  other",
            &self.other_bytes,
            &self.other_numbers,
            &self.other_texts,
        )?;
        rt.write_all(b"  lines")?;
        report::numbers(rt, &self.lines)?;
        rt.write_all(b"\n")?;
        show_answers(rt, &self.answers)
    }
}

fn show_set(
    rt: &impl Print,
    name: &[u8],
    bytes: &[u8],
    numbers: &[u32],
    texts: &[u8],
) -> io::Result<()> {
    rt.write_all(name)?;
    report::text(rt, bytes)?;
    report::numbers(rt, numbers)?;
    report::text(rt, texts)?;
    rt.write_all(b"\n")
}

fn show_answers(rt: &impl Print, answers: &[u64]) -> io::Result<()> {
    rt.write_all(b"  answers")?;
    for a in answers {
        report::number(rt, *a)?;
    }
    rt.write_all(b"\n")
}

// Lists that are refused, a row each: the range among the calls, how much data is used, and how much of the other text and of the list of answers is lent.
fn refused_lists(
    rt: &impl Print,
    lent: &mut Lent,
    rows: &[[u32; 5]],
    list: List<'_>,
) -> io::Result<()> {
    for row in rows {
        rt.write_all(b"list")?;
        report::numbers(rt, row)?;
        rt.write_all(b":")?;
        let to = (row[1] as usize).min(list.calls.len());
        let from = (row[0] as usize).min(to);
        let bad = List {
            calls: &list.calls[from..to],
            ..list
        };
        let used = Used {
            data: row[2] as usize,
            ..FIRST
        };
        let a = lent.run(bad, used, row[3] as usize, row[4] as usize);
        report::answer(rt, a)?;
        rt.write_all(b"\n")?;
    }
    Ok(())
}

// The calls one by one, each on what the one before left.
fn each(rt: &impl Print, lent: &mut Lent, list: List<'_>) -> io::Result<()> {
    let mut used = FIRST;
    for call in list.calls.as_chunks::<8>().0 {
        rt.write_all(b"call")?;
        report::numbers(rt, &call[..2])?;
        rt.write_all(b":")?;
        let one = List {
            calls: call,
            ..list
        };
        let a = lent.run_all(one, used);
        report::answer(rt, a)?;
        show_set(rt, b"\n  first", &lent.bytes, &lent.numbers, &lent.texts)?;
        show_answers(rt, &lent.answers[..2])?;
        used = used_after(used, a);
    }
    Ok(())
}

// All calls at once, and every lent place after them.
fn at_once(rt: &impl Print, lent: &mut Lent, list: List<'_>) -> io::Result<()> {
    let a = lent.run_all(list, FIRST);
    rt.write_all(b"at once:")?;
    report::answer(rt, a)?;
    rt.write_all(b"\n")?;
    lent.show(rt)
}

// All lists, one after another, in the same buffers.
fn lists(rt: &impl Print, lent: &mut Lent, pool: &[u8]) -> io::Result<()> {
    let pool_numbers = [
        // The entries of =>.
        0, 0, 0, 1, 2, 1, 0, 0,
        // Of ~.
        0, 2, 0, 2, 0, 0, 2, 1, 1, 1, 0, 0,
        // Of -+.
        0, 0, 0, 4, 1, 1, 0, 0,
        // Of | .
        0, 0, 0, 5, 2, 1, 0, 0,
        // Records beyond the data.
        0, 2, 0, 3, 20, 20, 0, 0,
        // Records.
        2, 5, 0, 2, 8, 8, 1, 2,
        // Three numbers.
        0, 1, 0,
        // The entries of > .
        0, 0, 0, 1, 2, 1, 0, 0,
    ];
    let calls = [
        // Truncate at the start to 9: 11 wide, with => before it.
        0, 9, 0, 2, 0, 8, 2, 3,
        // Records beyond the data: refused (8).
        8, 0, 23, 26, 36, 44, 26, 26,
        // Truncate at the end to 8, with a raw sequence and a label in the ellipsis.
        1, 8, 3, 4, 8, 20, 4, 7,
        // Pad at the start to 10 with a character two columns wide.
        2, 10, 7, 10, 20, 20, 10, 10,
        // Pad to the largest width: refused (9).
        3, 4294967295, 10, 12, 20, 28, 12, 16,
        // Pad at the end to 14.
        3, 14, 10, 12, 20, 28, 12, 16,
        // Pad on both sides to 60: more than the data's room, refused (21).
        4, 60, 0, 2, 0, 8, 2, 3,
        // Pad on both sides to 17.
        4, 17, 16, 18, 28, 36, 18, 23,
        // Wrap to 8.
        6, 8, 0, 0, 0, 0, 0, 0,
        // Wrap to 1 and break: more lines than the list holds, refused (24).
        7, 1, 0, 0, 0, 0, 0, 0,
        // Wrap to 7 and break.
        7, 7, 0, 0, 0, 0, 0, 0,
        // The same again: it changes nothing.
        7, 7, 0, 0, 0, 0, 0, 0,
        // An ellipsis with three numbers for an entry: refused (2).
        0, 3, 28, 29, 52, 55, 29, 29,
        // Indent with a raw sequence, which each line stores anew: more than the text's room, refused (23).
        5, 0, 3, 4, 8, 20, 4, 7,
        // Indent with a label, which is stored once.
        5, 0, 29, 31, 55, 63, 31, 32,
        // Replace, by a text with a tab.
        8, 0, 26, 28, 44, 52, 28, 28,
        // Stops every 65 columns: refused (31).
        9, 65, 0, 0, 0, 0, 0, 0,
        // Tabs to stops every 4 columns: one of them without a label, one under the label of =>.
        9, 4, 0, 0, 0, 0, 0, 0,
        // Take the indent off: the width, here the largest, is not looked at, nor are the entries of > .
        10, 4294967295, 29, 31, 55, 63, 31, 32,
        // Truncate at the end to 12: the result is shorter than the one before.
        1, 12, 3, 4, 8, 20, 4, 7,
    ];
    let list = List {
        calls: &calls,
        pool,
        pool_numbers: &pool_numbers,
    };
    lent.start();
    at_once(rt, lent, list)?;
    lent.start();
    each(rt, lent, list)
}

// Lists that are refused, and the buffers as they were. The calls, in this order: one that is good, one of an unknown kind, and ranges that run backwards or beyond their pool.
fn refusals(rt: &impl Print, lent: &mut Lent, pool: &[u8]) -> io::Result<()> {
    let pool_numbers = [0; 63];
    let bad = [
        // A good call.
        0, 9, 0, 2, 0, 8, 2, 3,
        // An unknown kind.
        11, 9, 0, 2, 0, 8, 2, 3,
        // A range that runs backwards: bytes, numbers, text.
        0, 9, 2, 0, 0, 8, 2, 3, 0, 9, 0, 2, 8, 0, 2, 3, 0, 9, 0, 2, 0, 8, 3, 2,
        // A range beyond its pool: bytes, numbers, text.
        0, 9, 0, 33, 0, 8, 2, 3, 0, 9, 0, 2, 0, 64, 2, 3, 0, 9, 0, 2, 0, 8, 0, 33,
    ];
    // The range among the calls, the used data, the lent other text and the lent answers.
    let rows = [
        [0, 8, 65, 24, 2],
        [0, 8, 11, 23, 2],
        [0, 7, 11, 24, 2],
        [8, 16, 11, 24, 2],
        [16, 24, 11, 24, 2],
        [24, 32, 11, 24, 2],
        [32, 40, 11, 24, 2],
        [40, 48, 11, 24, 2],
        [48, 56, 11, 24, 2],
        [56, 64, 11, 24, 2],
        [0, 8, 11, 24, 1],
        [8, 15, 65, 23, 0],
        [8, 15, 11, 23, 0],
        [8, 15, 11, 24, 0],
        [0, 0, 11, 24, 0],
    ];
    lent.start();
    refused_lists(
        rt,
        lent,
        &rows,
        List {
            calls: &bad,
            pool,
            pool_numbers: &pool_numbers,
        },
    )?;
    lent.show(rt)
}

fn main(rt: HostRuntime) -> io::Result<()> {
    let mut lent = Lent {
        bytes: [95; 64],
        numbers: [9; 96],
        texts: [95; 24],
        other_bytes: [95; 64],
        other_numbers: [9; 96],
        other_texts: [95; 24],
        lines: [9; 16],
        answers: [9; 42],
    };
    let pool = b"=>a~^^c\xe6\x9c\xa8-+blue| greenoakX\x09.> g";
    refusals(&rt, &mut lent, pool)?;
    lists(&rt, &mut lent, pool)
}
