// Runs a list of layout calls, of any kind and refused ones among them, back and forth between two sets of lent buffers.
// A call's content is the result of the last call not refused: it stands in one set, and the next call writes into the other. At the end the result stands in the first set.
// The contracts follow from those of the calls alone, so what `run_calls` leaves is `run` of `layout/specs/Layout.antt`, and demand 3 holds of it.
#![tactic(auto)]

ghost use Rattle.std.specs.Prelude.{◌≡◌, true, [], ◌+◌, ◌*◌, ◌/◌, ◌≤◌, length, take, drop};
ghost use Rattle.layout.specs.Lent.{lent_of};
ghost use Rattle.requests.specs.Requests.{request_in, requests_of, job_in, fits_in, all_fit_in};
ghost use Rattle.call_lists.specs.Runs.{state, Sound, Turn, Ran, given, buffers, RunsCalls};

use call_lists::{Held, alike, bring_back, check_input, moved, put_answer, too_long};
use recording::{Done, Recording, Refusal};
use requests::make_call;

// The call whose eight numbers start at i, on the content where it stands, into the other set.
fn turn(
    s: Held,
    calls: &[u32],
    i: usize,
    pool: &[u8],
    pool_numbers: &[u32],
    bytes: &mut [u8],
    numbers: &mut [u32],
    texts: &mut [u8],
    other_bytes: &mut [u8],
    other_numbers: &mut [u32],
    other_texts: &mut [u8],
    lines: &mut [u32],
) -> Result<Done, Refusal>
    requires i_in_bounds { i + 8 ≤ length calls.now }
    requires calls_value { fits_in (length pool.now) (length pool_numbers.now) (request_in (drop i calls.now)) ≡ true }
    requires sound { Sound s (lent_of bytes.old numbers.old texts.old) (lent_of other_bytes.old other_numbers.old other_texts.old) }
    ensures { Turn (job_in pool.now pool_numbers.now (request_in (drop i calls.now)))
        (state s (lent_of bytes.old numbers.old texts.old) (lent_of other_bytes.old other_numbers.old other_texts.old)
        lines.old [])
        (state s (lent_of bytes.new numbers.new texts.new) (lent_of other_bytes.new other_numbers.new other_texts.new)
        lines.new []) result }
{
    if s.first {
        return make_call(
            calls,
            i,
            pool,
            pool_numbers,
            Recording {
                bytes: &bytes[..s.bytes],
                entries: &numbers[..s.numbers],
                text: &texts[..s.texts],
            },
            other_bytes,
            other_numbers,
            other_texts,
            lines,
        );
    }
    make_call(
        calls,
        i,
        pool,
        pool_numbers,
        Recording {
            bytes: &other_bytes[..s.bytes],
            entries: &other_numbers[..s.numbers],
            text: &other_texts[..s.texts],
        },
        bytes,
        numbers,
        texts,
        lines,
    )
}

// All calls of a list that fits, each with its two numbers in the list of answers.
fn run_all(
    s: Held,
    calls: &[u32],
    pool: &[u8],
    pool_numbers: &[u32],
    bytes: &mut [u8],
    numbers: &mut [u32],
    texts: &mut [u8],
    other_bytes: &mut [u8],
    other_numbers: &mut [u32],
    other_texts: &mut [u8],
    lines: &mut [u32],
    answers: &mut [u64],
) -> Held
    requires made_value { (s.made ≡ 0) × (2 * (length calls.now / 8) ≤ length answers.old) }
    requires calls_value { all_fit_in (length pool.now) (length pool_numbers.now) (requests_of (length calls.now / 8) calls.now) ≡ true }
    requires sound { Sound s (lent_of bytes.old numbers.old texts.old) (lent_of other_bytes.old other_numbers.old other_texts.old) }
    ensures { Ran pool.now pool_numbers.now calls.now
        (state s (lent_of bytes.old numbers.old texts.old) (lent_of other_bytes.old other_numbers.old other_texts.old)
        lines.old []) answers.old
        (state result (lent_of bytes.new numbers.new texts.new) (lent_of other_bytes.new other_numbers.new other_texts.new)
        lines.new (take (2 * (length calls.now / 8)) answers.new)) answers.new }
{
    let mut held = s;
    for k in 0..calls.len() / 8 {
        let a = turn(
            held,
            calls,
            8 * k,
            pool,
            pool_numbers,
            bytes,
            numbers,
            texts,
            other_bytes,
            other_numbers,
            other_texts,
            lines,
        );
        put_answer(answers, 2 * k, a);
        held = moved(held, a);
    }
    held
}

// Runs all calls of a list, eight numbers each: kind, width, and the ranges of its second recording, data and text in `pool` and entry numbers in `pool_numbers`.
// The kinds: 0 and 1 truncate at the start and the end; 2, 3 and 4 pad there and on both sides; 5 indents; 6 wraps, 7 wraps and breaks words; 8 replaces, with its records, four numbers each,
// in `pool_numbers` and their text at the data's range; 9 expands tabs, with the columns between stops as its width;
// 10 takes the indent off, with the prefix as its second recording.
// The first content stands at the front of the first set, up to the three lengths; the result stands there too. `answers` gets two numbers a call: its refusal or 0, and its width or count.
// The number that comes back says how many calls were not refused.
pub fn run_calls(
    calls: &[u32],
    pool: &[u8],
    pool_numbers: &[u32],
    data_len: usize,
    entries_len: usize,
    text_len: usize,
    bytes: &mut [u8],
    numbers: &mut [u32],
    texts: &mut [u8],
    other_bytes: &mut [u8],
    other_numbers: &mut [u32],
    other_texts: &mut [u8],
    lines: &mut [u32],
    answers: &mut [u64],
) -> Result<Done, Refusal>
    ensures { RunsCalls (given calls.now pool.now pool_numbers.now data_len entries_len text_len)
        (buffers (lent_of bytes.old numbers.old texts.old) (lent_of other_bytes.old other_numbers.old other_texts.old)
        lines.old answers.old)
        (buffers (lent_of bytes.new numbers.new texts.new) (lent_of other_bytes.new other_numbers.new other_texts.new)
        lines.new answers.new) result }
{
    let long = too_long(
        data_len,
        entries_len,
        text_len,
        bytes.len(),
        numbers.len(),
        texts.len(),
    );
    let same = alike(
        bytes.len(),
        numbers.len(),
        texts.len(),
        other_bytes.len(),
        other_numbers.len(),
        other_texts.len(),
    );
    check_input(
        long,
        same,
        calls,
        pool.len(),
        pool_numbers.len(),
        answers.len(),
    )?;
    let start = Held {
        first: true,
        bytes: data_len,
        numbers: entries_len,
        texts: text_len,
        made: 0,
    };
    let end = run_all(
        start,
        calls,
        pool,
        pool_numbers,
        bytes,
        numbers,
        texts,
        other_bytes,
        other_numbers,
        other_texts,
        lines,
        answers,
    );
    bring_back(
        end,
        bytes,
        numbers,
        texts,
        other_bytes,
        other_numbers,
        other_texts,
    );
    Ok(Done {
        data: end.bytes,
        entries: end.numbers,
        text: end.texts,
        number: end.made as u64,
    })
}
