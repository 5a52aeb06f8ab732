// One layout call given as eight numbers: read, held against the pools that its ranges are of, and made.
// What a call by its kind leaves is what the call of that name leaves, so `make_call` has the promise of a layout call.
#![tactic(auto)]

ghost use Rattle.std.specs.Prelude.{◌≡◌, true, ◌+◌, ◌/◌, ◌≤◌, length, drop};
ghost use Rattle.recording.specs.Read.{recording_of};
ghost use Rattle.layout.specs.Lent.{lent_lined, Leaves};
ghost use Rattle.requests.specs.Requests as requests;
ghost use Rattle.requests.specs.Requests.{request_in, requests_of, job_of, job_in, fits_in, all_fit_in};

use indent::write_indented;
use pad::{write_padded_centered, write_padded_end, write_padded_start};
use recording::{Done, Recording, Refusal};
use replace::write_replaced_flat;
use tabs::write_tabs_expanded;
use truncate::{write_truncated_end, write_truncated_start};
use unindent::write_unindented;
use wrap::write_wrapped;

// One call of a list: its kind, its width, and its ranges: bytes from..to and text start..end of the pool of bytes, numbers first..last of the pool of numbers.
#[derive(Clone, Copy)]
pub struct Request {
    pub kind: u32,
    pub width: u32,
    pub from: usize,
    pub to: usize,
    pub first: usize,
    pub last: usize,
    pub start: usize,
    pub end: usize,
}

// The largest kind.
const LAST_KIND: u32 = 10;

// ── the numbers of the calls

// The call whose eight numbers start at i.
fn request_at(calls: &[u32], i: usize) -> Request
    requires { i + 8 ≤ length calls.now }
    ensures { result ≡ request_in (drop i calls.now) }
{
    Request {
        kind: calls[i],
        width: calls[i + 1],
        from: calls[i + 2] as usize,
        to: calls[i + 3] as usize,
        first: calls[i + 4] as usize,
        last: calls[i + 5] as usize,
        start: calls[i + 6] as usize,
        end: calls[i + 7] as usize,
    }
}

// Whether a range runs forwards and within n.
#[tactic(auto, unfolding(crate::specs::Requests::range_fits_in))]
fn range_fits(n: usize, from: usize, to: usize) -> bool
    ensures { result ≡ requests.range_fits_in n from to }
{
    from <= to && to <= n
}

// Whether a call has a known kind, and its ranges lie in pools of p bytes and q numbers.
#[tactic(auto, unfolding(crate::specs::Requests::fits_in))]
fn fits(x: Request, p: usize, q: usize) -> bool
    ensures { result ≡ fits_in p q x }
{
    x.kind <= LAST_KIND
        && range_fits(p, x.from, x.to)
        && range_fits(q, x.first, x.last)
        && range_fits(p, x.start, x.end)
}

// Whether all calls do; a rest of fewer than eight numbers is none.
pub fn all_fit(calls: &[u32], p: usize, q: usize) -> bool
    ensures { result ≡ all_fit_in p q (requests_of (length calls.now / 8) calls.now) }
{
    for k in 0..calls.len() / 8 {
        if !fits(request_at(calls, 8 * k), p, q) {
            return false;
        }
    }
    true
}

// ── one call

// One call, chosen by its kind: 0 and 1 truncate at the start and the end; 2, 3 and 4 pad there and on both sides; 5 indents; 6 wraps, 7 wraps and breaks; 8 replaces;
// 9 expands tabs; all others take the indent off.
// `second` is the ellipsis, fill or prefix; of a replacement its numbers are the records and its data their text. For tabs `width` is the columns between stops.
fn apply(
    kind: u32,
    width: u32,
    content: Recording<'_>,
    second: Recording<'_>,
    bytes: &mut [u8],
    numbers: &mut [u32],
    texts: &mut [u8],
    lines: &mut [u32],
) -> Result<Done, Refusal>
    ensures { Leaves (job_of kind width (recording_of second.entry)) (recording_of content.entry)
        (lent_lined bytes.old numbers.old texts.old lines.old)
        (lent_lined bytes.new numbers.new texts.new lines.new) result }
{
    match kind {
        0 => write_truncated_start(content, second, width, bytes, numbers, texts),
        1 => write_truncated_end(content, second, width, bytes, numbers, texts),
        2 => write_padded_start(content, second, width, bytes, numbers, texts),
        3 => write_padded_end(content, second, width, bytes, numbers, texts),
        4 => write_padded_centered(content, second, width, bytes, numbers, texts),
        5 => write_indented(content, second, bytes, numbers, texts),
        6 => write_wrapped(content, width, false, bytes, numbers, texts, lines),
        7 => write_wrapped(content, width, true, bytes, numbers, texts, lines),
        8 => write_replaced_flat(content, second.entries, second.bytes, bytes, numbers, texts),
        9 => write_tabs_expanded(content, width, bytes, numbers, texts),
        _ => write_unindented(content, second, bytes, numbers, texts),
    }
}

// The call whose eight numbers start at i, with its ranges known to lie in their pools.
fn fitting_at(calls: &[u32], i: usize, p: usize, q: usize) -> Request
    requires i_in_bounds { i + 8 ≤ length calls.now }
    requires calls_value { fits_in p q (request_in (drop i calls.now)) ≡ true }
    ensures value { result ≡ request_in (drop i calls.now) }
    ensures from_le_to { (result.from ≤ result.to) × (result.to ≤ p) × (result.first ≤ result.last) × (result.last ≤ q) × (result.start ≤ result.end) × (result.end ≤ p) }
{
    request_at(calls, i)
}

// The call whose eight numbers start at i, on a content, into the lent buffers.
pub fn make_call(
    calls: &[u32],
    i: usize,
    pool: &[u8],
    pool_numbers: &[u32],
    content: Recording<'_>,
    bytes: &mut [u8],
    numbers: &mut [u32],
    texts: &mut [u8],
    lines: &mut [u32],
) -> Result<Done, Refusal>
    requires i_in_bounds { i + 8 ≤ length calls.now }
    requires calls_value { fits_in (length pool.now) (length pool_numbers.now) (request_in (drop i calls.now)) ≡ true }
    ensures { Leaves (job_in pool.now pool_numbers.now (request_in (drop i calls.now))) (recording_of content.entry)
        (lent_lined bytes.old numbers.old texts.old lines.old)
        (lent_lined bytes.new numbers.new texts.new lines.new) result }
{
    let x = fitting_at(calls, i, pool.len(), pool_numbers.len());
    let second = Recording {
        bytes: &pool[x.from..x.to],
        entries: &pool_numbers[x.first..x.last],
        text: &pool[x.start..x.end],
    };
    apply(
        x.kind, x.width, content, second, bytes, numbers, texts, lines,
    )
}
