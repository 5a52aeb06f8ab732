// A list of layout calls on two sets of lent buffers: the definitions of what it leaves and answers, their laws, and what is done before, between and after its calls. `runs` makes them.
// A call's content is the result of the last call not refused: it stands in one set, and the next call writes into the other. At the end the result stands in the first set.
#![tactic(auto)]

ghost use Rattle.std.specs.Prelude.{◌≡◌, [], ◌∷◌, ◌+◌, ◌≤◌, ◌<◌, length, take};
ghost use Rattle.buffer.specs.Place.{over, over_at};
ghost use Rattle.recording.specs.Outcome.{answer_of};
ghost use Rattle.recording.specs.Check.{fault_of};
ghost use Rattle.layout.specs.Lent.{lent_of};
ghost use Rattle.call_lists.specs.Runs as runs;
ghost use Rattle.call_lists.specs.Runs.{held_by, two_of, input_fault, state, Sound, first_at_end};

use buffer::put;
use recording::{Done, Refusal};
use requests::all_fit;

// Where the content stands: in the first set or in the other one, and up to which lengths; and how many calls were not refused.
#[derive(Clone, Copy)]
pub struct Held {
    // kept: no Option: the lengths beside it are of either set.
    pub first: bool,
    pub bytes: usize,
    pub numbers: usize,
    pub texts: usize,
    pub made: usize,
}

// ── refusals of the list itself

// Whether one of three used lengths is above its buffer.
#[tactic(auto, unfolding(crate::specs::Runs::too_long_in))]
pub fn too_long(d: usize, e: usize, t: usize, bytes: usize, numbers: usize, texts: usize) -> bool
    ensures { result ≡ runs.too_long_in d e t bytes numbers texts }
{
    bytes < d || numbers < e || texts < t
}

// Whether two sets have the same lengths.
#[tactic(auto, unfolding(crate::specs::Runs::alike))]
pub fn alike(d: usize, e: usize, t: usize, bytes: usize, numbers: usize, texts: usize) -> bool
    ensures { result ≡ runs.alike d e t bytes numbers texts }
{
    d == bytes && e == numbers && t == texts
}

// What is refused before any call, in order; `long` and `same` are what the two tests of lengths say, p and q the lengths of the pools, n that of the list of answers.
#[tactic(auto, unfolding(crate::specs::Runs::input_fault))]
pub fn check_input(
    long: bool,
    same: bool,
    calls: &[u32],
    p: usize,
    q: usize,
    n: usize,
) -> Result<(), Refusal>
    ensures { fault_of result ≡ input_fault long same calls.now p q n }
{
    if long {
        return Err(Refusal::LengthOverBuffer);
    }
    if !same {
        return Err(Refusal::SetsDiffer);
    }
    if calls.len() % 8 != 0 || !all_fit(calls, p, q) {
        return Err(Refusal::CallNumbers);
    }
    if n < 2 * (calls.len() / 8) {
        return Err(Refusal::AnswerListTooShort);
    }
    Ok(())
}

// ── between two calls

// Where the content stands after an answer: in the other set if the call is done.
#[tactic(auto, unfolding(crate::specs::Runs::held_by))]
pub fn moved(s: Held, a: Result<Done, Refusal>) -> Held
    requires { s.made < 18446744073709551615 }
    ensures { result ≡ held_by (answer_of a) s }
{
    match a {
        Err(_) => s,
        Ok(d) => Held {
            first: !s.first,
            bytes: d.data,
            numbers: d.entries,
            texts: d.text,
            made: s.made + 1,
        },
    }
}

fn put_two(answers: &mut [u64], k: usize, x: u64, y: u64)
    requires { k + 2 ≤ length answers.old }
    ensures { answers.new ≡ over_at k (x ∷ y ∷ []) answers.old }
{
    answers[k] = x;
    answers[k + 1] = y;
}

// A call's two numbers: its refusal or 0, and its width or count.
pub fn put_answer(answers: &mut [u64], k: usize, a: Result<Done, Refusal>)
    requires { k + 2 ≤ length answers.old }
    ensures { answers.new ≡ over_at k (two_of (answer_of a)) answers.old }
{
    match a {
        Err(f) => put_two(answers, k, u64::from(f), 0),
        Ok(d) => put_two(answers, k, 0, d.number),
    }
}

// ── after the last one

// Copies a result that stands in the other set to the first one.
pub fn bring_back(
    s: Held,
    bytes: &mut [u8],
    numbers: &mut [u32],
    texts: &mut [u8],
    other_bytes: &[u8],
    other_numbers: &[u32],
    other_texts: &[u8],
)
    requires { Sound s (lent_of bytes.old numbers.old texts.old) (lent_of other_bytes.now other_numbers.now other_texts.now) }
    ensures { lent_of bytes.new numbers.new texts.new
        ≡ first_at_end (state s (lent_of bytes.old numbers.old texts.old)
        (lent_of other_bytes.now other_numbers.now other_texts.now) [] []) }
{
    if s.first {
        return;
    }
    put(bytes, 0, other_bytes, 0, s.bytes);
    put(numbers, 0, other_numbers, 0, s.numbers);
    put(texts, 0, other_texts, 0, s.texts);
}
