// A whole page of cells in one call (document 02, Q-9): the parts of one data buffer, each cut at its end to one width, with one ellipsis.
// The ellipsis is measured once. A refused call touches nothing: the joined length is settled before the first byte is written.
// Where the longest result that there can be has room, the cells are read once: each is measured and written at once.
#![tactic(auto)]

ghost use Rattle.std.specs.Prelude.{◌≡◌, false, [], ◌∷◌, ◌+◌, ◌*◌, ◌≤◌, length};
ghost use Rattle.buffer.specs.Place.{over, over_at};
ghost use Rattle.recording.specs.Check.{fault_of};
ghost use Rattle.recording.specs.Refusals.{data_limit};
ghost use Rattle.recording.specs.Outcome.{room_in, Promised};
ghost use Rattle.writer.specs.Sizes.{sizes_fault, room_of_lengths};
ghost use Rattle.truncate_plan.specs.Plan.{plan_end};
ghost use Rattle.truncate.specs.Planned.{finished_end};
ghost use Rattle.cells.specs.Cells.{never_fall, wrong_ends_of, cells_outcome, lent_cells};
ghost use Rattle.cells.specs.Measured.{mark_of, plan_with};
ghost use Rattle.cells.specs.Shown.{LeftInOrder};

use buffer::put;
use chars::{cut_end, display_width};
use recording::{Done, Refusal};
use truncate_plan::Plan;
use writer::{Lengths, settle};

const DATA_LIMIT: usize = 1048576;

// The most cells of one call.
const CELL_LIMIT: usize = 64;

// The numbers of a cell in the list: its end in the result and its width.
const CELL_NUMBERS: usize = 2;

// The ellipsis of all cells, measured: the width that a cell keeps before it, how many bytes of it are kept, and how wide these are.
#[derive(Clone, Copy)]
struct Mark {
    room: u64,
    kept: usize,
    width: u64,
}

// The cells of a call, which are the parts of `content` that end at `ends`; the width that each is cut to, and the ellipsis, measured for it.
#[derive(Clone, Copy)]
struct Page<'a> {
    content: &'a [u8],
    ends: &'a [u32],
    ellipsis: &'a [u8],
    max_width: u32,
    mark: Mark,
    ghost in_order: { wrong_ends_of ends.now (length content.now) ≡ false },
    ghost content_short: { length content.now ≤ data_limit },
    ghost ellipsis_short: { length ellipsis.now ≤ data_limit },
    ghost measured: { mark ≡ mark_of max_width ellipsis.now },
}

// Whether no end is below the one before it.
fn never_falls(ends: &[u32]) -> bool
    ensures { result ≡ never_fall 0 ends.now }
{
    ends.is_sorted()
}

// Whether there are over 64 ends, one of them falls, or the last is not n.
#[tactic(auto, using(crate::proofs::EndsLaws::last_is), unfolding(crate::specs::Cells::wrong_ends_of))]
fn wrong_ends(ends: &[u32], n: usize) -> bool
    ensures { result ≡ wrong_ends_of ends.now n }
{
    let last = ends.last().copied().unwrap_or(0) as usize;
    CELL_LIMIT < ends.len() || !never_falls(ends) || last != n
}

// The ellipsis, measured for a width.
#[tactic(auto, using(crate::proofs::PlanLaws::mark_fits), unfolding(crate::specs::Measured::mark_of))]
fn measure_ellipsis(ellipsis: &[u8], max: u64) -> Mark
    ensures value { result ≡ mark_of max ellipsis.now }
    ensures kept_in_bounds { (result.kept ≤ length ellipsis.now) × (result.room + result.width ≤ max) }
{
    let room = max.saturating_sub(display_width(ellipsis));
    let k = cut_end(ellipsis, max);
    Mark {
        room,
        kept: k.pos,
        width: k.width,
    }
}

// The plan of a cell that is kept whole.
fn keep_whole(cell: &[u8], width: u64) -> Plan
    ensures { result ≡ record { cut = false; content = length cell.now; ellipsis = 0; width = width } }
{
    Plan {
        cut: false,
        content: cell.len(),
        ellipsis: 0,
        width,
    }
}

// What is kept of a cell. No text is wider than it is long, so a cell no longer than the width fits.
// Any other is cut to the room before the ellipsis, and whether all of it fits is seen from there on: nothing is read twice, and nothing behind the width.
#[tactic(auto, using(chars::proofs::NarrowLaws::width_short), unfolding(crate::specs::Measured::plan_with))]
fn measure_cell(cell: &[u8], m: Mark, max: u64) -> Plan
    requires { m.room + m.width ≤ max }
    ensures value { result ≡ plan_with m max cell.now }
    ensures content_in_bounds { (result.content ≤ length cell.now) × (result.ellipsis ≤ m.kept) × (result.width ≤ max) }
{
    if cell.len() as u64 <= max {
        return keep_whole(cell, display_width(cell));
    }
    let k = cut_end(cell, m.room);
    let at = k.pos;
    let more = cut_end(&cell[at..], max - k.width);
    if at + more.pos == cell.len() {
        return keep_whole(cell, k.width + more.width);
    }
    Plan {
        cut: true,
        content: at,
        ellipsis: m.kept,
        width: k.width + m.width,
    }
}

// What the truncating call keeps of one cell. The ellipsis is measured only if the cell is longer than the width.
#[tactic(auto, using(chars::proofs::NarrowLaws::width_short), unfolding(crate::specs::Measured::mark_of, crate::specs::Measured::plan_with, truncate_plan::specs::Plan::plan_end))]
pub fn plan_cell(cell: &[u8], ellipsis: &[u8], max_width: u32) -> Plan
    ensures value { result ≡ plan_end max_width cell.now ellipsis.now }
    ensures content_in_bounds { (result.content ≤ length cell.now) × (result.ellipsis ≤ length ellipsis.now) }
{
    let max = max_width as u64;
    if cell.len() as u64 <= max {
        return keep_whole(cell, display_width(cell));
    }
    measure_cell(cell, measure_ellipsis(ellipsis, max), max)
}

// Writes what is kept of a cell at `at`, and returns the place after it. A cell that is not cut is one copy.
#[tactic(auto, using(buffer::proofs::Laws::then_put), unfolding(truncate::specs::Planned::finished_end))]
fn put_cell(bytes: &mut [u8], at: usize, cell: &[u8], ellipsis: &[u8], p: Plan) -> usize
    requires plan_in_bounds { (p.content ≤ length cell.now) × (p.ellipsis ≤ length ellipsis.now) }
    requires content_value { p.cut ≡ false → p.content ≡ length cell.now }
    requires ellipsis_in_bounds { at + length (finished_end p cell.now ellipsis.now) ≤ length bytes.old }
    ensures { (result ≡ at + length (finished_end p cell.now ellipsis.now))
        × (bytes.new ≡ over_at at (finished_end p cell.now ellipsis.now) bytes.old) }
{
    let end = put(bytes, at, cell, 0, p.content);
    if !p.cut {
        return end;
    }
    put(bytes, end, ellipsis, 0, p.ellipsis)
}

// Puts the numbers of one cell at k.
#[tactic(auto, using(buffer::proofs::Laws::two_stores))]
fn set_cell(cells: &mut [u32], k: usize, end: u32, width: u32)
    requires { k + 2 ≤ length cells.old }
    ensures { cells.new ≡ over_at k (end ∷ width ∷ []) cells.old }
{
    cells[k] = end;
    cells[k + 1] = width;
}

impl Page<'_> {
    ghost use Rattle.cells.specs.OnPage.{joined_of, numbers_of};

    // How long the joined cells are.
    fn joined_len(self) -> usize
        ensures { result ≡ length (joined_of self.entry) }
    {
        let mut total = 0;
        let mut from = 0;
        for end in self.ends {
            let end = *end as usize;
            let p = measure_cell(&self.content[from..end], self.mark, self.max_width as u64);
            total += p.content + p.ellipsis;
            from = end;
        }
        total
    }

    // Refusals 9, 21 and 24 of the joined cells. A cell grows by no more than the ellipsis: where that has room, nothing is measured.
    fn settle(self, room: Lengths) -> Result<(), Refusal>
        ensures { fault_of result ≡ sizes_fault (length (joined_of self.entry)) 0 0 (length self.entry.ends.now * 2) (room_of_lengths room) }
    {
        let longest = Lengths {
            bytes: self.content.len() + self.ends.len() * self.mark.kept,
            numbers: 0,
            texts: 0,
            lines: self.ends.len() * CELL_NUMBERS,
        };
        if settle(longest, room).is_ok() {
            return Ok(());
        }
        settle(
            Lengths {
                bytes: self.joined_len(),
                ..longest
            },
            room,
        )
    }

    // Writes all cells and their numbers, and returns how long the result is.
    fn put(self, bytes: &mut [u8], cells: &mut [u32]) -> usize
        requires { (length (joined_of self) ≤ data_limit) × (length (joined_of self) ≤ length bytes.old) × (length self.ends.now * 2 ≤ length cells.old) }
        ensures value { result ≡ length (joined_of self.entry) }
        ensures bytes_after { bytes.new ≡ over (joined_of self.entry) bytes.old }
        ensures cells_after { cells.new ≡ over (numbers_of self.entry) cells.old }
    {
        let mut at = 0;
        let mut from = 0;
        for (k, end) in self.ends.iter().enumerate() {
            let end = *end as usize;
            let cell = &self.content[from..end];
            let p = measure_cell(cell, self.mark, self.max_width as u64);
            at = put_cell(bytes, at, cell, self.ellipsis, p);
            set_cell(cells, k * CELL_NUMBERS, at as u32, p.width as u32);
            from = end; // wherever this one was cut
        }
        at
    }
}

// Cuts the parts of the content that end at `ends`, each to max_width at its end, and joins them in `bytes`; `cells` gets two numbers a cell, its end there and its width.
// The number is the count of cells.
pub fn write_truncated_cells(
    content: &[u8],
    ends: &[u32],
    ellipsis: &[u8],
    max_width: u32,
    bytes: &mut [u8],
    cells: &mut [u32],
) -> Result<Done, Refusal>
    ensures promised { Promised (cells_outcome max_width ends.now ellipsis.now content.now (room_in (lent_cells bytes.old cells.old)))
        (lent_cells bytes.old cells.old) (lent_cells bytes.new cells.new) result }
    ensures left_in_order { LeftInOrder max_width ends.now ellipsis.now content.now (lent_cells bytes.new cells.new) result }
{
    if DATA_LIMIT < content.len() || DATA_LIMIT < ellipsis.len() {
        return Err(Refusal::DataTooLong);
    }
    if wrong_ends(ends, content.len()) {
        return Err(Refusal::CellEnds);
    }
    let page = Page {
        content,
        ends,
        ellipsis,
        max_width,
        mark: measure_ellipsis(ellipsis, max_width as u64),
    };
    page.settle(Lengths {
        bytes: bytes.len(),
        numbers: 0,
        texts: 0,
        lines: cells.len(),
    })?;
    let end = page.put(bytes, cells);
    Ok(Done {
        data: end,
        entries: 0,
        text: 0,
        number: ends.len() as u64,
    })
}
