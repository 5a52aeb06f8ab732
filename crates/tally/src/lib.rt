// The tally sheet (document 02, Q-10): a line of names and lines of values, laid out in columns, and a last row with the number of value lines and the sum of the column `boards`.
// Written from the promises of the crates below alone: no table of characters, no step of an edit is named here.
// Two passes over the input. The first turns away and measures, and writes nothing, so a refused call touches nothing; the second writes each cell straight into the rest of the lent buffer.
#![tactic(auto)]

ghost use Rattle.std.specs.Prelude.{true, false, ◌≡◌, [], ◌∷◌, ◌+◌, ◌≤◌, ◌<◌, length, drop, IfOk, MatchResult};
ghost use Rattle.chars.specs.Chars.{well_formed_of};
ghost use Rattle.buffer.specs.Place.{over_at};
ghost use Rattle.controls.specs.Controls.{is_clean_text};
ghost use Rattle.recording.specs.Check.{fault_of};
ghost use Rattle.recording.specs.declared.Refusal.TheVariants.{TallyCell, TallyLine};
ghost use Rattle.recording.specs.Lists.{AllOf};
ghost use Rattle.recording.specs.Refusals.{data_limit, number_of_refusal, first_of, recording_fault};
ghost use Rattle.cells.specs.Cells.{bare};
ghost use Rattle.recording.specs.Outcome.{room_in, Promised};
ghost use Rattle.tally.specs.Tally.{lines_of, cells_of, columns_of, laid_cell_of, boards_at_text, boards_in_text, boards_sum, last_row, ended, bad_column_of, wrong_columns_of, shape_fault, boards_fault, values_fault, all_values_fault, lines_fault, tally_outcome, lent_sheet};
ghost use Rattle.tally.specs.Shown.{SheetLeft};
ghost use Rattle.tally.specs.Code.{column, before_of, gap_after, laid_len, cells_clean, lines_left, line_of, lines_text, Tested, Fit, sum_of};

use buffer::{put, put_byte_times};
use cells::plan_cell;
use controls::is_clean;
use newlines::count_newlines;
use recording::{Done, Refusal};
use share::same_text;
use sheet::{decimal_in, decimal_len, find, put_decimal};
use writer::{Lengths, settle};

const DATA_LIMIT: usize = 1048576;

const LINE_LIMIT: usize = 4096;

const WIDTH_LIMIT: u32 = 80;

const BOARDS_LIMIT: u32 = 65535;

const COLUMN_LIMIT: usize = 12;

// The numbers of a column: its width and its alignment.
const COLUMN_NUMBERS: usize = 2;

// What lines that are not turned away come to: the bytes of their rows, each with its 0A, and their boards.
#[derive(Clone, Copy)]
struct Totals {
    bytes: usize,
    boards: u64,
}

// ── The columns and the number of lines: refusal 39

fn bad_column(width: u32, alignment: u32) -> bool
    ensures { result ≡ bad_column_of (column width alignment) }
{
    !(1..=WIDTH_LIMIT).contains(&width) || 2 < alignment
}

// Whether the columns are none or over twelve, have a number left over, or one of them is outside its limits.
fn wrong_columns(columns: &[u32]) -> bool
    ensures { result ≡ wrong_columns_of columns.now }
{
    let (pairs, rest) = columns.as_chunks::<COLUMN_NUMBERS>();
    !rest.is_empty()
        || !(1..=COLUMN_LIMIT).contains(&pairs.len())
        || pairs
            .iter()
            .any(|[width, alignment]| bad_column(*width, *alignment))
}

// How many lines the input has: one for each 0A, and one if bytes come after the last or there are none at all.
fn line_count(input: &[u8]) -> usize
    ensures { result ≡ length (lines_of input.now) }
{
    let n = count_newlines(input, 0);
    if input.ends_with(b"\n") { n } else { n + 1 }
}

// What decides before any line is looked at: refusals 1 and 39. It tells how many lines there are.
fn check_shape(input: &[u8], columns: &[u32]) -> Result<usize, Refusal>
    ensures { MatchResult result (λ n. Tested columns.now input.now n)
        (λ f. number_of_refusal f ≡ first_of (recording_fault (bare input.now) ∷ shape_fault columns.now (lines_of input.now) ∷ [])) }
{
    if DATA_LIMIT < input.len() {
        return Err(Refusal::DataTooLong);
    }
    if wrong_columns(columns) {
        return Err(Refusal::TallyShape);
    }
    let lines = line_count(input);
    if LINE_LIMIT < lines {
        return Err(Refusal::TallyShape);
    }
    Ok(lines)
}

// ── A line, turned away or measured: refusals 40 and 41

// How many cells a line has: one more than commas.
// kept: a loop. `filter(..).count()` branches at each byte (`newlines::count_bytes`).
#[tactic(auto, using(crate::proofs::CountLaws::count_next, crate::proofs::CountLaws::count_end))]
fn cell_count(line: &[u8]) -> usize
    ensures { result ≡ length (cells_of line.now) }
{
    let mut n = 1;
    for b in line {
        n += usize::from(*b == b',');
    }
    n
}

// How many bytes a cell takes once it is laid out; 40 if it is turned away.
fn cell_len(cell: &[u8], width: u32) -> Result<usize, Refusal>
    requires { (1 ≤ width) × (width ≤ 80) }
    ensures { MatchResult result
        (λ n. (is_clean_text cell.now ≡ true) × (n ≡ laid_len width cell.now) × (n ≤ length cell.now + 81))
        (λ f. (is_clean_text cell.now ≡ false) × (f ≡ TallyCell)) }
{
    if !is_clean(cell) {
        return Err(Refusal::TallyCell);
    }
    let p = plan_cell(cell, b"~", width);
    Ok(p.content + p.ellipsis + (width as u64 - p.width) as usize)
}

// How many bytes the row of a line takes with its 0A; 40 if one of its cells is turned away.
fn row_len(line: &[u8], columns: &[u32]) -> Result<usize, Refusal>
    requires columns_value { (wrong_columns_of columns.now ≡ false) × (length line.now ≤ data_limit) }
    requires line_len { length (cells_of line.now) ≡ length (columns_of columns.now) }
    ensures { MatchResult result
        (λ n. (cells_clean (cells_of line.now) ≡ true) × (n ≡ length (line_of columns.now line.now)) × (n ≤ length line.now + 2000))
        (λ f. (cells_clean (cells_of line.now) ≡ false) × (f ≡ TallyCell)) }
{
    let mut bytes = 0;
    let mut from = 0;
    for [width, _] in columns.as_chunks::<COLUMN_NUMBERS>().0 {
        let e = find(line, from, b',');
        let n = cell_len(&line[from..e], *width)?;
        bytes += n + 1;
        from = e + 1;
    }
    Ok(bytes)
}

// How many columns come before the first called `boards`, by the line of names.
// kept: a `while`. The text ends it, and how many cells there are is not known.
fn boards_at(names: &[u8]) -> usize
    requires { length names.now ≤ data_limit }
    ensures { result ≡ boards_at_text (cells_of names.now) }
{
    let mut k = 0;
    let mut from = 0;
    while from <= names.len() {
        let e = find(names, from, b',');
        if same_text(&names[from..e], b"boards") {
            return k;
        }
        from = e + 1;
        k += 1;
    }
    k
}

// The number in the cell k of a line, 41 if that is none of boards; 0 if there is no such cell.
fn boards_in(line: &[u8], k: usize) -> Result<u32, Refusal>
    requires { length line.now ≤ data_limit }
    ensures { MatchResult result
        (λ n. (boards_fault k line.now ≡ 0) × (n ≡ boards_in_text k line.now) × (n ≤ 65535))
        (λ f. (boards_fault k line.now ≡ 41) × (f ≡ TallyLine)) }
{
    let mut from = 0;
    for _ in 0..k {
        let e = find(line, from, b',');
        if e == line.len() {
            return Ok(0);
        }
        from = e + 1;
    }
    let e = find(line, from, b',');
    let n = decimal_in(&line[from..e]).ok_or(Refusal::TallyLine)?;
    if BOARDS_LIMIT < n {
        return Err(Refusal::TallyLine);
    }
    Ok(n)
}

// A line whose column `boards` comes after k others: 41 for the number of its cells, 40, 41 for its boards; or what it comes to.
// The line of names has no boards, so it is scanned with a k that no cell has.
fn scan_line(line: &[u8], columns: &[u32], k: usize) -> Result<Totals, Refusal>
    requires { (wrong_columns_of columns.now ≡ false) × (length line.now ≤ data_limit) }
    ensures result_value { fault_of result ≡ values_fault (length (columns_of columns.now)) k line.now }
    ensures told { IfOk result (λ t. (t.bytes ≡ length (line_of columns.now line.now)) × (t.boards ≡ boards_in_text k line.now)) }
    ensures small { IfOk result (λ t. (t.bytes ≤ length line.now + 2000) × (t.boards ≤ 65535)) }
{
    if cell_count(line) != columns.len() / COLUMN_NUMBERS {
        return Err(Refusal::TallyLine);
    }
    let bytes = row_len(line, columns)?;
    let boards = boards_in(line, k)?;
    Ok(Totals {
        bytes,
        boards: u64::from(boards),
    })
}

// The lines of values, which start at `from`, line by line.
fn scan_values(input: &[u8], from: usize, columns: &[u32], k: usize) -> Result<Totals, Refusal>
    requires { (wrong_columns_of columns.now ≡ false) × (length input.now ≤ data_limit) × (from ≤ length input.now + 1) }
    ensures result_value { fault_of result ≡ all_values_fault (length (columns_of columns.now)) k (lines_left (drop from input.now)) }
    ensures told { IfOk result (λ t. (t.bytes ≡ length (lines_text columns.now (lines_left (drop from input.now))))
        × (t.boards ≡ boards_sum k (lines_left (drop from input.now)))) }
    ensures small { IfOk result (λ t. (t.bytes ≤ 1099511627776) × (t.boards ≤ 1099511627776)) }
{
    let mut bytes = 0;
    let mut boards = 0;
    let mut at = from;
    // kept: no `for`: each line begins where the one before ended.
    while at < input.len() {
        let e = find(input, at, b'\n');
        let line = scan_line(&input[at..e], columns, k)?;
        bytes += line.bytes;
        boards += line.boards;
        at = e + 1;
    }
    Ok(Totals { bytes, boards })
}

// All lines: that of the names, then those of the values.
fn scan(input: &[u8], columns: &[u32]) -> Result<Totals, Refusal>
    requires { (wrong_columns_of columns.now ≡ false) × (length input.now ≤ data_limit) }
    ensures result_value { fault_of result ≡ lines_fault (length (columns_of columns.now)) (lines_of input.now) }
    ensures told { IfOk result (λ t. (t.bytes ≡ length (lines_text columns.now (lines_of input.now))) × (t.boards ≡ sum_of (lines_of input.now))) }
    ensures small { IfOk result (λ t. (t.bytes ≤ 2199023255552) × (t.boards ≤ 1099511627776)) }
{
    let e = find(input, 0, b'\n');
    let names = scan_line(&input[0..e], columns, columns.len())?;
    let values = scan_values(input, e + 1, columns, boards_at(&input[0..e]))?;
    Ok(Totals {
        bytes: names.bytes + values.bytes,
        boards: values.boards,
    })
}

// ── The sheet, written

// How many of n spaces come before a cell: by its alignment 0 start, 1 end, 2 centre.
// kept: numbers. They are read where the columns are lent, and `bad_column` has told that there is no other; an enum of them would be made anew for each cell.
#[tactic(auto, unfolding(crate::specs::Code::before_of))]
fn before(alignment: u32, n: usize) -> usize
    ensures value { result ≡ before_of alignment n }
    ensures upper_bound { result ≤ n }
{
    match alignment {
        0 => 0,
        1 => n,
        _ => n / 2,
    }
}

// Writes one laid-out cell: what the truncating call keeps of it, between the spaces that are missing to the width.
fn put_cell(out: &mut [u8], at: usize, cell: &[u8], width: u32, alignment: u32) -> usize
    requires { (1 ≤ width) × (well_formed_of cell.now ≡ true) × (at + length (laid_cell_of (column width alignment) cell.now) ≤ length out.old) }
    ensures { (result ≡ at + length (laid_cell_of (column width alignment) cell.now))
        × (out.new ≡ over_at at (laid_cell_of (column width alignment) cell.now) out.old) }
{
    let p = plan_cell(cell, b"~", width);
    let missing = (width as u64 - p.width) as usize;
    let left = before(alignment, missing);
    let a = put_byte_times(out, at, b' ', left);
    let b = put(out, a, cell, 0, p.content);
    let c = put(out, b, b"~", 0, p.ellipsis);
    put_byte_times(out, c, b' ', missing - left)
}

// The byte after the cell i of n: a space, or 0A after the last.
#[tactic(auto, unfolding(crate::specs::Code::gap_after))]
fn gap(i: usize, n: usize) -> u8
    requires { i < n }
    ensures { result ≡ gap_after i n }
{
    if i + 1 < n { b' ' } else { b'\n' }
}

// Writes the row of a line and its 0A: cell by cell, each with the byte after it.
fn put_row(out: &mut [u8], at: usize, line: &[u8], columns: &[u32]) -> usize
    requires { Fit columns.now line.now × (at + length (line_of columns.now line.now) ≤ length out.old) }
    ensures { (result ≡ at + length (line_of columns.now line.now))
        × (out.new ≡ over_at at (line_of columns.now line.now) out.old) }
{
    let pairs = columns.as_chunks::<COLUMN_NUMBERS>().0;
    let mut end = at;
    let mut from = 0;
    for (i, [width, alignment]) in pairs.iter().enumerate() {
        let e = find(line, from, b',');
        let g = put_cell(out, end, &line[from..e], *width, *alignment);
        end = put_byte_times(out, g, gap(i, pairs.len()), 1);
        from = e + 1;
    }
    end
}

// Writes the rows of all lines from the buffer's first place on. An empty input is one empty line, of which the loop sees nothing.
fn put_rows(out: &mut [u8], input: &[u8], columns: &[u32]) -> usize
    requires { AllOf (Fit columns.now) (lines_of input.now) × (length (lines_text columns.now (lines_of input.now)) ≤ length out.old) }
    ensures { (result ≡ length (lines_text columns.now (lines_of input.now)))
        × (out.new ≡ over_at 0 (lines_text columns.now (lines_of input.now)) out.old) }
{
    if input.len() == 0 {
        return put_row(out, 0, input, columns);
    }
    let mut end = 0;
    let mut from = 0;
    // kept: no `for`: each line begins where the one before ended.
    while from < input.len() {
        let e = find(input, from, b'\n');
        end = put_row(out, end, &input[from..e], columns);
        from = e + 1;
    }
    end
}

// Writes the last row and its 0A.
fn put_last(out: &mut [u8], at: usize, n: u32, sum: u32) -> usize
    requires { at + length (ended (last_row n sum ∷ [])) ≤ length out.old }
    ensures { (result ≡ at + length (ended (last_row n sum ∷ []))) × (out.new ≡ over_at at (ended (last_row n sum ∷ [])) out.old) }
{
    let a = put_decimal(out, at, n);
    let b = put_byte_times(out, a, b' ', 1);
    let c = put_decimal(out, b, sum);
    put_byte_times(out, c, b'\n', 1)
}

// How long it is.
#[tactic(auto, using(crate::proofs::LastLaws::last_length))]
fn last_len(n: u32, sum: u32) -> usize
    ensures value { result ≡ length (ended (last_row n sum ∷ [])) }
    ensures upper_bound { result ≤ 22 }
{
    decimal_len(n) + 1 + decimal_len(sum) + 1
}

// Lays out the sheet of an input in `out`, its columns given by two numbers each, a width and an alignment: 0 start, 1 end, 2 centre.
pub fn write_tally(input: &[u8], columns: &[u32], out: &mut [u8]) -> Result<Done, Refusal>
    ensures promised { Promised (tally_outcome columns.now input.now (room_in (lent_sheet out.old)))
        (lent_sheet out.old) (lent_sheet out.new) result }
    ensures sheet_left { SheetLeft columns.now input.now (lent_sheet out.new) result }
{
    let lines = check_shape(input, columns)?;
    let total = scan(input, columns)?;
    let values = (lines - 1) as u32;
    let sum = total.boards as u32;
    settle(
        Lengths {
            bytes: total.bytes + last_len(values, sum),
            numbers: 0,
            texts: 0,
            lines: 0,
        },
        Lengths {
            bytes: out.len(),
            numbers: 0,
            texts: 0,
            lines: 0,
        },
    )?;
    let end = put_rows(out, input, columns);
    Ok(Done {
        data: put_last(out, end, values, sum),
        entries: 0,
        text: 0,
        number: 0,
    })
}
