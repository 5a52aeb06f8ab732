// What `wraplist` prints for a sheet (document 01, module 7), in one lent buffer: `write_output` leaves `output` of `specs/Rows.antt`, whatever the sheet's bytes are.
// Each byte of a sheet gives at most 28 bytes, so a buffer of 1,835,061 bytes always does. Its type says that length, so that nothing is asked of the caller.
// `run` is the program: it reads a sheet, prints that, and tells what went wrong. No contract can say what is read from a file or written to one; the buffer for the sheet and the number of bytes used of it are proved.
// Of a reader and a writer whose bytes are known it is proved too what is read (`read_sheet`) and written (`print_output`).
#![tactic(auto)]

ghost use Rattle.std.specs.Prelude.{◌≡◌, ℕ, ◌+◌, ◌*◌, ◌/◌, ◌≤◌, ◌<◌, ◌↔◌, IsTrue, OnOk, MatchOption, MatchResult, IfOk, true, false, length, take, slice_index};
ghost use Rattle.std.specs.Io.KnownBytes.{Appends, Consumes, IsAtEnd};
ghost use Rattle.buffer.specs.Place.{over, over_at};
ghost use Rattle.layout.specs.Wrap.{line_numbers, wrap_lines_of};
ghost use Rattle.sheet.specs.Sheet.{sheet_line, sheet_lines, data_of, good_line};
ghost use Rattle.sheet.specs.Decimal.{field};
ghost use Rattle.rows.specs.Rows.{row_text, bad_row, number_rows, wrap_rows, rows_of, rows_from, sheet_heading, read_limit, output, Says};

use buffer::put;
use sheet::{after_space, break_in, decimal_in, find, first_field, is_data, put_decimal, unhex};
use std::io::{Read, Write};
use wrap_lines::{numbers_of, wrap_bytes};

// Puts the decimal digits of n, and c after them.
fn put_field(out: &mut [u8], at: usize, n: u32, c: u8) -> usize
    requires { at + 11 ≤ length out.old }
    ensures value { (result ≡ at + length (field n c)) × (out.new ≡ over_at at (field n c) out.old) }
    ensures upper_bound { result ≤ at + 11 }
{
    let e = put_decimal(out, at, n);
    out[e] = c;
    e + 1
}

// Puts a row: the numbers of the value line and of the line in it, and the three of a line list.
fn put_row(out: &mut [u8], at: usize, row: u32, line: u32, numbers: &[u32; 3]) -> usize
    requires { at + 55 ≤ length out.old }
    ensures value { let text = row_text row line (slice_index numbers.now 0) (slice_index numbers.now 1) (slice_index numbers.now 2) in
        (result ≡ at + length text) × (out.new ≡ over_at at text out.old) }
    ensures upper_bound { result ≤ at + 55 }
{
    let b = put_field(out, at, row, b' ');
    let c = put_field(out, b, line, b' ');
    let d = put_field(out, c, numbers[0], b' ');
    let e = put_field(out, d, numbers[1], b' ');
    put_field(out, e, numbers[2], b'\n')
}

// Puts the row of a bad line.
fn put_bad(out: &mut [u8], at: usize, row: u32) -> usize
    requires { at + 17 ≤ length out.old }
    ensures value { (result ≡ at + length (bad_row row)) × (out.new ≡ over_at at (bad_row row) out.old) }
    ensures upper_bound { result ≤ at + 17 }
{
    let e = put_field(out, at, row, b' ');
    put(out, e, b"! 0 0\n", 0, 6)
}

// Puts a row for each three numbers of a line list.
fn put_lines(out: &mut [u8], at: usize, row: u32, lines: &[u32]) -> usize
    requires { (length lines.now ≤ 12003) × (at + 55 * (length lines.now / 3) ≤ length out.old) }
    ensures value { (result ≡ at + length (number_rows row 0 lines.now)) × (out.new ≡ over_at at (number_rows row 0 lines.now) out.old) }
    ensures upper_bound { result ≤ at + 55 * (length lines.now / 3) }
{
    let (rows, _) = lines.as_chunks::<3>();
    let mut end = at;
    for (line, numbers) in rows.iter().enumerate() {
        end = put_row(out, end, row, line as u32, numbers);
    }
    end
}

// What a right value line says: its width, whether long words are broken, and its data in hexadecimal.
#[derive(Clone, Copy)]
struct Task<'a> {
    width: u32,
    breaks: bool,
    hex: &'a [u8],
}

// What a value line says, if it is right.
fn task_in(text: &[u8]) -> Option<Task<'_>>
    ensures { MatchOption result (good_line text.now ≡ false) (λ t. (good_line text.now ≡ true) × Says text.now t) }
{
    let width = decimal_in(first_field(text))?;
    let rest = after_space(text);
    let breaks = break_in(first_field(rest))?;
    let hex = after_space(rest);
    if !is_data(hex) {
        return None;
    }
    Some(Task { width, breaks, hex })
}

// Room for the data bytes of a value line, and for the numbers of its lines.
#[derive(Drop)]
struct Work {
    data: [u8; 4000],
    lines: [u32; 12003],
}

// Puts the numbers of the lines of a task's data into the line list, and returns how many they are. The call is not refused: 12,003 numbers do for 4,000 bytes.
fn list_lines(task: Task<'_>, work: &mut Work) -> usize
    requires { length task.hex.now ≤ 8000 }
    ensures value { let bytes = data_of task.entry.hex.now in
        take result work.new.lines ≡ line_numbers bytes (wrap_lines_of task.entry.width task.entry.breaks bytes) }
    ensures upper_bound { (result ≤ 3 * (length task.entry.hex.now / 2 + 1)) × (result ≤ 12003) }
{
    let n = unhex(task.hex, &mut work.data);
    let count = wrap_bytes(&work.data[..n], task.width, task.breaks, &mut work.lines).map_or(
        0,
        |done| done.number as usize,
    );
    numbers_of(count)
}

// Puts the rows of a right value line.
fn good_rows(out: &mut [u8], at: usize, row: u32, task: Task<'_>, work: &mut Work) -> usize
    requires { (length task.hex.now ≤ 8000) × (at + 55 * (length task.hex.now / 2 + 1) ≤ length out.old) }
    ensures value { let rows = wrap_rows row task.entry.width task.entry.breaks (data_of task.entry.hex.now) in
        (result ≡ at + length rows) × (out.new ≡ over_at at rows out.old) }
    ensures upper_bound { result ≤ at + 55 * (length task.entry.hex.now / 2 + 1) }
{
    let n = list_lines(task, work);
    put_lines(out, at, row, &work.lines[..n])
}

// Puts what a line of the sheet gives.
fn one_row(out: &mut [u8], at: usize, row: u32, text: &[u8], ended: bool, work: &mut Work) -> usize
    requires { at + 28 * (length text.now + 1) ≤ length out.old }
    ensures value { (result ≡ at + length (rows_of row (sheet_line text.now ended))) × (out.new ≡ over_at at (rows_of row (sheet_line text.now ended)) out.old) }
    ensures upper_bound { result ≤ at + 28 * (length text.now + 1) }
{
    match task_in(text) {
        Some(task) if ended => good_rows(out, at, row, task, work),
        _ => put_bad(out, at, row),
    }
}

// Puts what the lines of the sheet give.
fn put_rows(out: &mut [u8], start: usize, sheet: &[u8], work: &mut Work) -> usize
    requires { (length sheet.now ≤ 65536) × (start + 28 * (length sheet.now + 1) ≤ length out.old) }
    ensures { (result ≡ start + length (rows_from 0 (sheet_lines sheet.now)))
        × (out.new ≡ over_at start (rows_from 0 (sheet_lines sheet.now)) out.old) }
{
    let mut p = 0;
    let mut row: u32 = 0;
    let mut at = start;
    // kept: no `for`: each line begins where the one before ended.
    while p < sheet.len() {
        let e = find(sheet, p, b'\n');
        at = one_row(out, at, row, &sheet[p..e], e < sheet.len(), work);
        row += 1;
        p = e + 1;
    }
    at
}

// Whether a line is the heading that a sheet has.
fn is_heading(line: &[u8]) -> bool
    ensures { IsTrue result ↔ line.now ≡ sheet_heading }
{
    line == b"width break bytes".as_slice()
}

// What is printed for a sheet, in out; returns its length.
pub fn write_output(sheet: &[u8], out: &mut [u8; 1835061]) -> usize
    ensures value { (result ≡ length (output sheet.now)) × (out.new ≡ over (output sheet.now) out.old) }
    ensures upper_bound { (result ≤ length out.new) × (result ≡ length (take result out.new)) }
{
    let n = put(out, 0, b"row line start end width\n", 0, 25);
    if 65536 < sheet.len() {
        return put_bad(out, n, 0);
    }
    let e = find(sheet, 0, b'\n');
    if e == sheet.len() || !is_heading(&sheet[..e]) {
        return put_bad(out, n, 0);
    }
    let mut work = Work {
        data: [0; 4000],
        lines: [0; 12003],
    };
    put_rows(out, n, &sheet[e + 1..], &mut work)
}

// As long as the longest output that there can be.
fn output_buffer() -> [u8; 1835061] {
    [0; 1835061]
}

// Prints the output of a sheet.
fn print_output<W: Write>(to: &mut W, sheet: &[u8]) -> std::io::Result<()>
    ensures { OnOk result (Appends (W.contents to.old) (W.contents to.new) (output sheet.now)) }
{
    let mut out = output_buffer();
    let k = write_output(sheet, &mut out);
    to.write_all(&out[..k])
}

// As long as what is read at most: one byte over a sheet's limit, so that a sheet that is too long is seen without reading all of it.
fn sheet_buffer() -> [u8; 65537]
    ensures { read_limit ≡ length result }
{
    [0; 65537]
}

// Reads until the buffer is full, the input ends or a read fails, and returns how many bytes were read. A read may give fewer bytes than there is room for.
// Of a reader whose bytes are known, as one over memory: the buffer's front is what it gave, and short of a full buffer or a failure it gave all.
fn read_sheet<R: Read>(input: &mut R, sheet: &mut [u8]) -> std::io::Result<usize>
    ensures counted { IfOk result (λ n. (n ≤ length sheet.new) × (n ≡ length (take n sheet.new))) }
    ensures bytes { MatchResult result (λ n. Consumes (R.remaining input.old) (R.remaining input.new) (take n sheet.new))
        (λ _. (n : ℕ) × (n ≤ length sheet.new) × Consumes (R.remaining input.old) (R.remaining input.new) (take n sheet.new)) }
    ensures end { IfOk result (λ n. n < length sheet.new → IsAtEnd (R.remaining input.new)) }
{
    let mut n = 0;
    // kept: no `for`: how many bytes a read gives is not known before.
    while n < sheet.len() {
        let more = input.read(&mut sheet[n..])?;
        if more == 0 {
            break;
        }
        n += more;
    }
    Ok(n)
}

// Prints the output of the sheet that is read. A sheet that cannot be read has none.
fn answer<R: Read, W: Write, E: Write>(input: &mut R, output: &mut W, errors: &mut E) {
    let mut sheet = sheet_buffer();
    match read_sheet(input, &mut sheet) {
        Ok(n) => {
            if print_output(output, &sheet[..n]).is_err() {
                let _ = errors.write_all(b"wraplist: cannot write the rows\n");
            }
        }
        Err(_) => {
            let _ = errors.write_all(b"wraplist: cannot read the sheet\n");
        }
    }
}

fn help<W: Write>(output: &mut W) {
    let _ = output.write_all(
        b"wraplist reads a sheet of wrapping tasks from standard input and prints where their lines start and end, and how wide they are.\n",
    );
    let _ = output.write_all(
        b"A sheet: the line 'width break bytes', then on each line a width, 1 to break long words or else 0, and hexadecimal bytes or -.\n",
    );
}

// The program, with what it reads from and writes to: `--help` tells what it does.
// No contract can say what is read from a file or written to one: what is printed is what `write_output` promises of the bytes that `read_sheet` has counted.
// That a message or the help cannot be written is told nowhere.
pub fn run<R: Read, W: Write, E: Write>(
    argument: &[u8],
    input: &mut R,
    output: &mut W,
    errors: &mut E,
) {
    if argument == b"--help".as_slice() {
        help(output);
        return;
    }
    answer(input, output, errors);
}
