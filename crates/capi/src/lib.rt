// The library's calls for Rust and C: each under the name that the archive gives it, with the contract of the call behind it.
// A slice passes as a pointer and its number of elements.
// A call on recordings takes its content, then what else it reads, its numbers, and last the lent buffers; none may overlap another.
// `res` gets five numbers: the refusal or 0, the lengths of data, entry numbers and text that were left, and the call's number.
// A question leaves nothing: its `res` gets three, the refusal or 0 and the two numbers asked for.
#![tactic(auto)]

ghost use Rattle.std.specs.Prelude.{◌≡◌, length};
ghost use Rattle.chars.specs.Chars.{text_width_of, well_formed_of};
ghost use Rattle.chars.specs.Cut.{truncate_end_pos_of, truncate_end_width, truncate_start_pos_of, truncate_start_width, zero_width_len_of};
ghost use Rattle.recording.specs.Recording.{recording};
ghost use Rattle.recording.specs.Outcome.{room_in, lent_lines};
ghost use Rattle.recorder.specs.Recorder.{replayed, written, pushed, popped, raw_added};
ghost use Rattle.layout.specs.Layout.{truncate_start, truncate_end, pad_start, pad_end, pad_centered, indent, unindent, wrap, replace, expand_tabs};
ghost use Rattle.layout.specs.Lent.{lent_of, lent_lined};
ghost use Rattle.wrap_lines.specs.WrapBytes.{wrap_bytes_outcome};
ghost use Rattle.view.specs.View.{office_outcome, floor_outcome};
ghost use Rattle.line_index.specs.Index.{build_outcome, extend_outcome, line_replied, place_replied};
ghost use Rattle.cells.specs.Cells.{cells_outcome, lent_cells};
ghost use Rattle.tally.specs.Tally.{tally_outcome, lent_sheet};
ghost use Rattle.replace.specs.Records.{records_of};
ghost use Rattle.call_lists.specs.Runs.{given, buffers};
ghost use Rattle.elide.specs.Elide.{lent, elide_end_outcome, elide_start_outcome, complete_newline_outcome};
ghost use Rattle.answer_numbers.specs.Five.{three};
ghost use Rattle.capi.specs.Promises.{PromisedNumbers, LeavesNumbers, RunsNumbers};

use answer_numbers::{store, store_reply};
use cells::write_truncated_cells;
use chars::{cut_end, cut_start, display_width, leading_zero_width};
use elide::{complete_newline, elide_end, elide_start};
use indent::write_indented;
use line_index::{build_line_index, extend_line_index, line_at, place_of};
use pad::{write_padded_centered, write_padded_end, write_padded_start};
use readers::{write_for_floor, write_for_office};
use recorder::{pop_label, push_label, raw, replay, write};
use recording::Recording;
use replace::write_replaced_flat;
use runs::run_calls;
use tabs::write_tabs_expanded;
use tally::write_tally;
use truncate::{write_truncated_end, write_truncated_start};
use unindent::write_unindented;
use well_formed::is_well_formed;
use wrap::write_wrapped;
use wrap_lines::wrap_bytes;

// The width of a text.
#[unsafe(no_mangle)]
pub extern "C" fn ruszvedok_text_width(s: &[u8]) -> u64
    ensures { result ≡ text_width_of s.now }
{
    display_width(s)
}

// Whether a text is well-formed UTF-8.
#[unsafe(no_mangle)]
pub extern "C" fn ruszvedok_well_formed(s: &[u8]) -> bool
    ensures { result ≡ well_formed_of s.now }
{
    is_well_formed(s)
}

// A place in a text, and the width of the part that is kept.
#[repr(C)]
#[derive(Clone, Copy)]
pub struct Place {
    pub pos: usize,
    pub width: u64,
}

// Where the longest beginning ends that is at most max wide, and its width.
#[unsafe(no_mangle)]
pub extern "C" fn ruszvedok_truncate_end_pos(s: &[u8], max: u64) -> Place
    ensures { (result.pos ≡ truncate_end_pos_of max s.now) × (result.width ≡ truncate_end_width max s.now) }
{
    let c = cut_end(s, max);
    Place {
        pos: c.pos,
        width: c.width,
    }
}

// Where the longest ending starts that is at most max wide, and its width.
#[unsafe(no_mangle)]
pub extern "C" fn ruszvedok_truncate_start_pos(s: &[u8], max: u64) -> Place
    ensures { (result.pos ≡ truncate_start_pos_of max s.now) × (result.width ≡ truncate_start_width max s.now) }
{
    let c = cut_start(s, max);
    Place {
        pos: c.pos,
        width: c.width,
    }
}

// How many bytes the leading zero-width characters of a text take.
#[unsafe(no_mangle)]
pub extern "C" fn ruszvedok_zero_width_len(s: &[u8]) -> usize
    ensures { result ≡ zero_width_len_of s.now }
{
    leading_zero_width(s)
}

// Copies a recording into three lent buffers; text that no entry uses is left out.
#[unsafe(no_mangle)]
pub extern "C" fn ruszvedok_replay(
    content: &[u8],
    entries: &[u32],
    text: &[u8],
    out_data: &mut [u8],
    out_entries: &mut [u32],
    out_text: &mut [u8],
    res: &mut [u64; 5],
)
    ensures { PromisedNumbers
        (replayed (recording content.now entries.now text.now) (lent_of out_data.old out_entries.old out_text.old))
        (lent_of out_data.old out_entries.old out_text.old)
        (lent_of out_data.new out_entries.new out_text.new) res.new }
{
    let content = Recording {
        bytes: content,
        entries,
        text,
    };
    store(replay(content, out_data, out_entries, out_text), res);
}

// Cuts a content wider than max_width at its start and writes the ellipsis before it. The number is the width kept.
#[unsafe(no_mangle)]
pub extern "C" fn ruszvedok_write_truncated_start(
    content: &[u8],
    entries: &[u32],
    text: &[u8],
    ellipsis: &[u8],
    ellipsis_entries: &[u32],
    ellipsis_text: &[u8],
    max_width: u32,
    bytes: &mut [u8],
    numbers: &mut [u32],
    texts: &mut [u8],
    res: &mut [u64; 5],
)
    ensures { LeavesNumbers (truncate_start max_width (recording ellipsis.now ellipsis_entries.now ellipsis_text.now))
        (recording content.now entries.now text.now)
        (lent_of bytes.old numbers.old texts.old) (lent_of bytes.new numbers.new texts.new) res.new }
{
    let content = Recording {
        bytes: content,
        entries,
        text,
    };
    let ellipsis = Recording {
        bytes: ellipsis,
        entries: ellipsis_entries,
        text: ellipsis_text,
    };
    store(
        write_truncated_start(content, ellipsis, max_width, bytes, numbers, texts),
        res,
    );
}

// Cuts a content wider than max_width at its end and writes the ellipsis after it. The number is the width kept.
#[unsafe(no_mangle)]
pub extern "C" fn ruszvedok_write_truncated_end(
    content: &[u8],
    entries: &[u32],
    text: &[u8],
    ellipsis: &[u8],
    ellipsis_entries: &[u32],
    ellipsis_text: &[u8],
    max_width: u32,
    bytes: &mut [u8],
    numbers: &mut [u32],
    texts: &mut [u8],
    res: &mut [u64; 5],
)
    ensures { LeavesNumbers (truncate_end max_width (recording ellipsis.now ellipsis_entries.now ellipsis_text.now))
        (recording content.now entries.now text.now)
        (lent_of bytes.old numbers.old texts.old) (lent_of bytes.new numbers.new texts.new) res.new }
{
    let content = Recording {
        bytes: content,
        entries,
        text,
    };
    let ellipsis = Recording {
        bytes: ellipsis,
        entries: ellipsis_entries,
        text: ellipsis_text,
    };
    store(
        write_truncated_end(content, ellipsis, max_width, bytes, numbers, texts),
        res,
    );
}

// Writes the fill before a content that is narrower than min_width.
#[unsafe(no_mangle)]
pub extern "C" fn ruszvedok_write_padded_start(
    content: &[u8],
    entries: &[u32],
    text: &[u8],
    fill: &[u8],
    fill_entries: &[u32],
    fill_text: &[u8],
    min_width: u32,
    bytes: &mut [u8],
    numbers: &mut [u32],
    texts: &mut [u8],
    res: &mut [u64; 5],
)
    ensures { LeavesNumbers (pad_start min_width (recording fill.now fill_entries.now fill_text.now))
        (recording content.now entries.now text.now)
        (lent_of bytes.old numbers.old texts.old) (lent_of bytes.new numbers.new texts.new) res.new }
{
    let content = Recording {
        bytes: content,
        entries,
        text,
    };
    let fill = Recording {
        bytes: fill,
        entries: fill_entries,
        text: fill_text,
    };
    store(
        write_padded_start(content, fill, min_width, bytes, numbers, texts),
        res,
    );
}

// Writes the fill behind a content that is narrower than min_width.
#[unsafe(no_mangle)]
pub extern "C" fn ruszvedok_write_padded_end(
    content: &[u8],
    entries: &[u32],
    text: &[u8],
    fill: &[u8],
    fill_entries: &[u32],
    fill_text: &[u8],
    min_width: u32,
    bytes: &mut [u8],
    numbers: &mut [u32],
    texts: &mut [u8],
    res: &mut [u64; 5],
)
    ensures { LeavesNumbers (pad_end min_width (recording fill.now fill_entries.now fill_text.now))
        (recording content.now entries.now text.now)
        (lent_of bytes.old numbers.old texts.old) (lent_of bytes.new numbers.new texts.new) res.new }
{
    let content = Recording {
        bytes: content,
        entries,
        text,
    };
    let fill = Recording {
        bytes: fill,
        entries: fill_entries,
        text: fill_text,
    };
    store(
        write_padded_end(content, fill, min_width, bytes, numbers, texts),
        res,
    );
}

// Writes half of the fill, rounded down, before a content that is narrower than min_width and the rest behind it.
#[unsafe(no_mangle)]
pub extern "C" fn ruszvedok_write_padded_centered(
    content: &[u8],
    entries: &[u32],
    text: &[u8],
    fill: &[u8],
    fill_entries: &[u32],
    fill_text: &[u8],
    min_width: u32,
    bytes: &mut [u8],
    numbers: &mut [u32],
    texts: &mut [u8],
    res: &mut [u64; 5],
)
    ensures { LeavesNumbers (pad_centered min_width (recording fill.now fill_entries.now fill_text.now))
        (recording content.now entries.now text.now)
        (lent_of bytes.old numbers.old texts.old) (lent_of bytes.new numbers.new texts.new) res.new }
{
    let content = Recording {
        bytes: content,
        entries,
        text,
    };
    let fill = Recording {
        bytes: fill,
        entries: fill_entries,
        text: fill_text,
    };
    store(
        write_padded_centered(content, fill, min_width, bytes, numbers, texts),
        res,
    );
}

// Writes the prefix before every line that is not empty.
#[unsafe(no_mangle)]
pub extern "C" fn ruszvedok_write_indented(
    content: &[u8],
    entries: &[u32],
    text: &[u8],
    prefix: &[u8],
    prefix_entries: &[u32],
    prefix_text: &[u8],
    bytes: &mut [u8],
    numbers: &mut [u32],
    texts: &mut [u8],
    res: &mut [u64; 5],
)
    ensures { LeavesNumbers (indent (recording prefix.now prefix_entries.now prefix_text.now))
        (recording content.now entries.now text.now)
        (lent_of bytes.old numbers.old texts.old) (lent_of bytes.new numbers.new texts.new) res.new }
{
    let content = Recording {
        bytes: content,
        entries,
        text,
    };
    let prefix = Recording {
        bytes: prefix,
        entries: prefix_entries,
        text: prefix_text,
    };
    store(write_indented(content, prefix, bytes, numbers, texts), res);
}

// Takes the prefix's bytes out of every line that is not empty.
#[unsafe(no_mangle)]
pub extern "C" fn ruszvedok_write_unindented(
    content: &[u8],
    entries: &[u32],
    text: &[u8],
    prefix: &[u8],
    prefix_entries: &[u32],
    prefix_text: &[u8],
    bytes: &mut [u8],
    numbers: &mut [u32],
    texts: &mut [u8],
    res: &mut [u64; 5],
)
    ensures { LeavesNumbers (unindent (recording prefix.now prefix_entries.now prefix_text.now))
        (recording content.now entries.now text.now)
        (lent_of bytes.old numbers.old texts.old) (lent_of bytes.new numbers.new texts.new) res.new }
{
    let content = Recording {
        bytes: content,
        entries,
        text,
    };
    let prefix = Recording {
        bytes: prefix,
        entries: prefix_entries,
        text: prefix_text,
    };
    store(
        write_unindented(content, prefix, bytes, numbers, texts),
        res,
    );
}

// The lines of a text broken at the width, three numbers each: first byte, end and width. The number is how many.
#[unsafe(no_mangle)]
pub extern "C" fn ruszvedok_wrap_bytes(
    data: &[u8],
    width: u32,
    break_words: bool,
    lines: &mut [u32],
    res: &mut [u64; 5],
)
    ensures { PromisedNumbers (wrap_bytes_outcome width break_words «data».now (length lines.old))
        (lent_lines lines.old) (lent_lines lines.new) res.new }
{
    store(wrap_bytes(data, width, break_words, lines), res);
}

// Writes a recording broken at the width. The number is how many lines.
#[unsafe(no_mangle)]
pub extern "C" fn ruszvedok_write_wrapped(
    content: &[u8],
    entries: &[u32],
    text: &[u8],
    width: u32,
    break_words: bool,
    bytes: &mut [u8],
    numbers: &mut [u32],
    texts: &mut [u8],
    lines: &mut [u32],
    res: &mut [u64; 5],
)
    ensures { LeavesNumbers (wrap width break_words) (recording content.now entries.now text.now)
        (lent_lined bytes.old numbers.old texts.old lines.old)
        (lent_lined bytes.new numbers.new texts.new lines.new) res.new }
{
    let content = Recording {
        bytes: content,
        entries,
        text,
    };
    store(
        write_wrapped(content, width, break_words, bytes, numbers, texts, lines),
        res,
    );
}

// Writes the content with each record's stretch gone and its part of the replacement text in its stead; a record is four numbers.
#[unsafe(no_mangle)]
pub extern "C" fn ruszvedok_write_replaced(
    content: &[u8],
    entries: &[u32],
    text: &[u8],
    records: &[u32],
    new: &[u8],
    bytes: &mut [u8],
    numbers: &mut [u32],
    texts: &mut [u8],
    res: &mut [u64; 5],
)
    ensures { LeavesNumbers (replace (records_of records.now) new.now) (recording content.now entries.now text.now)
        (lent_of bytes.old numbers.old texts.old) (lent_of bytes.new numbers.new texts.new) res.new }
{
    let content = Recording {
        bytes: content,
        entries,
        text,
    };
    store(
        write_replaced_flat(content, records, new, bytes, numbers, texts),
        res,
    );
}

// Writes the content with each byte 09 replaced by spaces up to the next of the stops, which are `stop` columns apart, from 1 to 64; the spaces carry the tab's labels.
#[unsafe(no_mangle)]
pub extern "C" fn ruszvedok_write_tabs_expanded(
    content: &[u8],
    entries: &[u32],
    text: &[u8],
    stop: u32,
    bytes: &mut [u8],
    numbers: &mut [u32],
    texts: &mut [u8],
    res: &mut [u64; 5],
)
    ensures { LeavesNumbers (expand_tabs stop) (recording content.now entries.now text.now)
        (lent_of bytes.old numbers.old texts.old) (lent_of bytes.new numbers.new texts.new) res.new }
{
    let content = Recording {
        bytes: content,
        entries,
        text,
    };
    store(
        write_tabs_expanded(content, stop, bytes, numbers, texts),
        res,
    );
}

// Writes what the office reads of a recording: all of it, as replaying leaves it. `label` is the one that hides from the floor.
#[unsafe(no_mangle)]
pub extern "C" fn ruszvedok_write_for_office(
    content: &[u8],
    entries: &[u32],
    text: &[u8],
    label: &[u8],
    bytes: &mut [u8],
    numbers: &mut [u32],
    texts: &mut [u8],
    res: &mut [u64; 5],
)
    ensures { PromisedNumbers
        (office_outcome label.now (room_in (lent_of bytes.old numbers.old texts.old))
        (recording content.now entries.now text.now))
        (lent_of bytes.old numbers.old texts.old) (lent_of bytes.new numbers.new texts.new) res.new }
{
    let content = Recording {
        bytes: content,
        entries,
        text,
    };
    store(write_for_office(content, label, bytes, numbers, texts), res);
}

// Writes what the floor reads of a recording: instead of each character with any byte under the label as many `*` as it is wide, under the labels of its first byte, and no raw sequence that is
// placed under the label; 0A stays.
#[unsafe(no_mangle)]
pub extern "C" fn ruszvedok_write_for_floor(
    content: &[u8],
    entries: &[u32],
    text: &[u8],
    label: &[u8],
    bytes: &mut [u8],
    numbers: &mut [u32],
    texts: &mut [u8],
    res: &mut [u64; 5],
)
    ensures { PromisedNumbers
        (floor_outcome label.now (room_in (lent_of bytes.old numbers.old texts.old))
        (recording content.now entries.now text.now))
        (lent_of bytes.old numbers.old texts.old) (lent_of bytes.new numbers.new texts.new) res.new }
{
    let content = Recording {
        bytes: content,
        entries,
        text,
    };
    store(write_for_floor(content, label, bytes, numbers, texts), res);
}

// Puts the line index of a recording's data into `index`: 0, and the place after each 0A. The number is how many lines there are.
#[unsafe(no_mangle)]
pub extern "C" fn ruszvedok_build_line_index(
    content: &[u8],
    entries: &[u32],
    text: &[u8],
    index: &mut [u32],
    res: &mut [u64; 5],
)
    ensures { PromisedNumbers (build_outcome (recording content.now entries.now text.now) (length index.old))
        (lent_lines index.old) (lent_lines index.new) res.new }
{
    let content = Recording {
        bytes: content,
        entries,
        text,
    };
    store(build_line_index(content, index), res);
}

// Makes a line index that of the data after an append: the first `used` numbers of `index` are that of the first `earlier` bytes. The number is how many lines there are.
#[unsafe(no_mangle)]
pub extern "C" fn ruszvedok_extend_line_index(
    content: &[u8],
    entries: &[u32],
    text: &[u8],
    earlier: usize,
    index: &mut [u32],
    used: usize,
    res: &mut [u64; 5],
)
    ensures { PromisedNumbers (extend_outcome (recording content.now entries.now text.now) earlier index.old used)
        (lent_lines index.old) (lent_lines index.new) res.new }
{
    let content = Recording {
        bytes: content,
        entries,
        text,
    };
    store(extend_line_index(content, earlier, index, used), res);
}

// Where line n is, counted from 0: its first byte, and its end, which is the place of its 0A or the data's end. `index` is the line index of the data.
#[unsafe(no_mangle)]
pub extern "C" fn ruszvedok_line_at(
    content: &[u8],
    entries: &[u32],
    text: &[u8],
    index: &[u32],
    n: usize,
    res: &mut [u64; 3],
)
    ensures { res.new ≡ three (line_replied (recording content.now entries.now text.now) index.now n) }
{
    let content = Recording {
        bytes: content,
        entries,
        text,
    };
    store_reply(line_at(content, index, n), res);
}

// The line of an offset and its byte column there, both counted from 0. `index` is the line index of the data.
#[unsafe(no_mangle)]
pub extern "C" fn ruszvedok_place_of(
    content: &[u8],
    entries: &[u32],
    text: &[u8],
    index: &[u32],
    offset: usize,
    res: &mut [u64; 3],
)
    ensures { res.new ≡ three (place_replied (recording content.now entries.now text.now) index.now offset) }
{
    let content = Recording {
        bytes: content,
        entries,
        text,
    };
    store_reply(place_of(content, index, offset), res);
}

// Cuts the parts of a content that end at `ends`, each to max_width at its end with the ellipsis, and joins them; `cells` gets two numbers a cell, its end there and its width.
// The number is how many cells there are.
#[unsafe(no_mangle)]
pub extern "C" fn ruszvedok_write_truncated_cells(
    content: &[u8],
    ends: &[u32],
    ellipsis: &[u8],
    max_width: u32,
    bytes: &mut [u8],
    cells: &mut [u32],
    res: &mut [u64; 5],
)
    ensures { PromisedNumbers
        (cells_outcome max_width ends.now ellipsis.now content.now (room_in (lent_cells bytes.old cells.old)))
        (lent_cells bytes.old cells.old) (lent_cells bytes.new cells.new) res.new }
{
    store(
        write_truncated_cells(content, ends, ellipsis, max_width, bytes, cells),
        res,
    );
}

// Lays out a tally sheet: a line of names and lines of values with commas between, in columns of two numbers each, a width and an alignment (0 start, 1 end, 2 centre).
#[unsafe(no_mangle)]
pub extern "C" fn ruszvedok_write_tally(
    input: &[u8],
    columns: &[u32],
    out: &mut [u8],
    res: &mut [u64; 5],
)
    ensures { PromisedNumbers (tally_outcome columns.now input.now (room_in (lent_sheet out.old)))
        (lent_sheet out.old) (lent_sheet out.new) res.new }
{
    store(write_tally(input, columns, out), res);
}

// Runs all layout calls of a list, back and forth between two sets of lent buffers. The number is how many were not refused.
#[unsafe(no_mangle)]
pub extern "C" fn ruszvedok_run_calls(
    calls: &[u32],
    pool: &[u8],
    pool_numbers: &[u32],
    data_len: usize,
    entries_len: usize,
    text_len: usize,
    bytes: &mut [u8],
    numbers: &mut [u32],
    texts: &mut [u8],
    other_bytes: &mut [u8],
    other_numbers: &mut [u32],
    other_texts: &mut [u8],
    lines: &mut [u32],
    answers: &mut [u64],
    res: &mut [u64; 5],
)
    ensures { RunsNumbers (given calls.now pool.now pool_numbers.now data_len entries_len text_len)
        (buffers (lent_of bytes.old numbers.old texts.old) (lent_of other_bytes.old other_numbers.old other_texts.old)
        lines.old answers.old)
        (buffers (lent_of bytes.new numbers.new texts.new) (lent_of other_bytes.new other_numbers.new other_texts.new)
        lines.new answers.new) res.new }
{
    store(
        run_calls(
            calls,
            pool,
            pool_numbers,
            data_len,
            entries_len,
            text_len,
            bytes,
            numbers,
            texts,
            other_bytes,
            other_numbers,
            other_texts,
            lines,
            answers,
        ),
        res,
    );
}

// The text, shortened at its start to max_width with the ellipsis. The number is its width.
#[unsafe(no_mangle)]
pub extern "C" fn ruszvedok_elide_start(
    text: &[u8],
    ellipsis: &[u8],
    max_width: u32,
    out: &mut [u8],
    res: &mut [u64; 5],
)
    ensures { PromisedNumbers (elide_start_outcome (length out.old) text.now ellipsis.now max_width)
        (lent out.old) (lent out.new) res.new }
{
    store(elide_start(text, ellipsis, max_width, out), res);
}

// The text, shortened at its end to max_width with the ellipsis. The number is its width.
#[unsafe(no_mangle)]
pub extern "C" fn ruszvedok_elide_end(
    text: &[u8],
    ellipsis: &[u8],
    max_width: u32,
    out: &mut [u8],
    res: &mut [u64; 5],
)
    ensures { PromisedNumbers (elide_end_outcome (length out.old) text.now ellipsis.now max_width)
        (lent out.old) (lent out.new) res.new }
{
    store(elide_end(text, ellipsis, max_width, out), res);
}

// The text with 0A at its end, which is added unless the text is empty or ends in it.
#[unsafe(no_mangle)]
pub extern "C" fn ruszvedok_complete_newline(text: &[u8], out: &mut [u8], res: &mut [u64; 5])
    ensures { PromisedNumbers (complete_newline_outcome (length out.old) text.now)
        (lent out.old) (lent out.new) res.new }
{
    store(complete_newline(text, out), res);
}

// Appends bytes to the data of a recording, of whose buffers the lengths are used.
#[unsafe(no_mangle)]
pub extern "C" fn ruszvedok_write(
    content: &mut [u8],
    content_len: usize,
    entries: &[u32],
    entries_len: usize,
    text: &[u8],
    text_len: usize,
    added: &[u8],
    res: &mut [u64; 5],
)
    ensures { PromisedNumbers (written added.now (lent_of content.old entries.now text.now) content_len entries_len text_len)
        (lent_of content.old entries.now text.now) (lent_of content.new entries.now text.now) res.new }
{
    store(
        write(
            content,
            content_len,
            entries,
            entries_len,
            text,
            text_len,
            added,
        ),
        res,
    );
}

// Pushes a label, at the current end. Where the label was pushed before, the first such push's part of the text is taken and no text is added.
#[unsafe(no_mangle)]
pub extern "C" fn ruszvedok_push_label(
    content: &[u8],
    content_len: usize,
    entries: &mut [u32],
    entries_len: usize,
    text: &mut [u8],
    text_len: usize,
    label: &[u8],
    res: &mut [u64; 5],
)
    ensures { PromisedNumbers (pushed label.now (lent_of content.now entries.old text.old) content_len entries_len text_len)
        (lent_of content.now entries.old text.old) (lent_of content.now entries.new text.new) res.new }
{
    store(
        push_label(
            content,
            content_len,
            entries,
            entries_len,
            text,
            text_len,
            label,
        ),
        res,
    );
}

// A pop of the last label, at the current end.
#[unsafe(no_mangle)]
pub extern "C" fn ruszvedok_pop_label(
    content: &[u8],
    content_len: usize,
    entries: &mut [u32],
    entries_len: usize,
    text: &[u8],
    text_len: usize,
    res: &mut [u64; 5],
)
    ensures { PromisedNumbers (popped (lent_of content.now entries.old text.now) content_len entries_len text_len)
        (lent_of content.now entries.old text.now) (lent_of content.now entries.new text.now) res.new }
{
    store(
        pop_label(content, content_len, entries, entries_len, text, text_len),
        res,
    );
}

// Appends a raw sequence as one entry at the current end.
#[unsafe(no_mangle)]
pub extern "C" fn ruszvedok_raw(
    content: &[u8],
    content_len: usize,
    entries: &mut [u32],
    entries_len: usize,
    text: &mut [u8],
    text_len: usize,
    sequence: &[u8],
    res: &mut [u64; 5],
)
    ensures { PromisedNumbers (raw_added sequence.now (lent_of content.now entries.old text.old) content_len entries_len text_len)
        (lent_of content.now entries.old text.old) (lent_of content.now entries.new text.new) res.new }
{
    store(
        raw(
            content,
            content_len,
            entries,
            entries_len,
            text,
            text_len,
            sequence,
        ),
        res,
    );
}
