// Replays the lines of the file `stdin`, each a call with what it must answer and leave, and prints for each call how many lines there are and how many agree;
// last, of the lines that expect something wrong, how many there are and how many were found. A line that does not do as it should is told by its number.
// What is proved of a program is that it is safe; what it should print stands in the file `stdout`.
//
// A line: a call's name, then fields `key=value` with one space between them. Which keys there are and how a value is written: the head of the file `stdin`.
// `!` before the name marks a line that is wrong on purpose. A name that is not in `ROWS` or a key that is not in `KEYS` makes a line differ.
// The calls go through the C names, so that the boundary is replayed too; three are the library's own, which C has not: `char_width`, `read_char`, `trim_start_zero_width_chars`.
#![tactic(auto)]

ghost use Rattle.std.specs.Prelude.{◌≡◌, ◌≤◌};

use capi::{
    Place, ruszvedok_build_line_index, ruszvedok_complete_newline, ruszvedok_elide_end,
    ruszvedok_elide_start, ruszvedok_extend_line_index, ruszvedok_line_at, ruszvedok_place_of,
    ruszvedok_pop_label, ruszvedok_push_label, ruszvedok_raw, ruszvedok_replay,
    ruszvedok_text_width, ruszvedok_truncate_end_pos, ruszvedok_truncate_start_pos,
    ruszvedok_well_formed, ruszvedok_wrap_bytes, ruszvedok_write, ruszvedok_write_for_floor,
    ruszvedok_write_for_office, ruszvedok_write_indented, ruszvedok_write_padded_centered,
    ruszvedok_write_padded_end, ruszvedok_write_padded_start, ruszvedok_write_replaced,
    ruszvedok_write_tabs_expanded, ruszvedok_write_truncated_cells, ruszvedok_write_truncated_end,
    ruszvedok_write_truncated_start, ruszvedok_write_unindented, ruszvedok_write_wrapped,
    ruszvedok_zero_width_len,
};
use chars::{char_width, read_char, seen_at, trim_start_zero_width_chars};
use std::alloc::{AllocError, Global};
use std::io::Read;
use std::{array, io};

// ── calls

#[derive(Clone, Copy)]
enum TextCall {
    Width,
    WellFormed,
    TruncateEndPos,
    TruncateStartPos,
    ZeroWidthLen,
}

#[derive(Clone, Copy)]
enum LayoutCall {
    Replay,
    TruncatedStart,
    TruncatedEnd,
    PaddedStart,
    PaddedEnd,
    PaddedCentered,
    Indented,
    Unindented,
    Wrapped,
    Replaced,
    TabsExpanded,
    ForOffice,
    ForFloor,
}

#[derive(Clone, Copy)]
enum PlainCall {
    WrapBytes,
    ElideStart,
    ElideEnd,
    CompleteNewline,
}

#[derive(Clone, Copy)]
enum AddingCall {
    Write,
    PushLabel,
    PopLabel,
    Raw,
}

#[derive(Clone, Copy)]
enum IndexCall {
    Build,
    Extend,
}

#[derive(Clone, Copy)]
enum QuestionCall {
    LineAt,
    PlaceOf,
}

#[derive(Clone, Copy)]
enum Call {
    CharWidth,
    ReadChar,
    TrimStart,
    Text(TextCall),
    Layout(LayoutCall),
    Plain(PlainCall),
    Cells,
    Adding(AddingCall),
    Index(IndexCall),
    Question(QuestionCall),
}

use AddingCall::*;
use Call::*;
use IndexCall::*;
use LayoutCall::*;
use PlainCall::*;
use QuestionCall::*;
use TextCall::*;

// The rows that are printed: each call's name, and last, with no call, the lines that are wrong on purpose.
const ROWS: [(&str, Option<Call>); 35] = [
    ("text_width", Some(Text(Width))),
    ("well_formed", Some(Text(WellFormed))),
    ("truncate_end_pos", Some(Text(TruncateEndPos))),
    ("truncate_start_pos", Some(Text(TruncateStartPos))),
    ("zero_width_len", Some(Text(ZeroWidthLen))),
    ("replay", Some(Layout(Replay))),
    ("write_truncated_start", Some(Layout(TruncatedStart))),
    ("write_truncated_end", Some(Layout(TruncatedEnd))),
    ("write_padded_start", Some(Layout(PaddedStart))),
    ("write_padded_end", Some(Layout(PaddedEnd))),
    ("write_padded_centered", Some(Layout(PaddedCentered))),
    ("write_indented", Some(Layout(Indented))),
    ("wrap_bytes", Some(Plain(WrapBytes))),
    ("write_wrapped", Some(Layout(Wrapped))),
    ("write_replaced", Some(Layout(Replaced))),
    ("elide_start", Some(Plain(ElideStart))),
    ("elide_end", Some(Plain(ElideEnd))),
    ("complete_newline", Some(Plain(CompleteNewline))),
    ("write", Some(Adding(Write))),
    ("push_label", Some(Adding(PushLabel))),
    ("pop_label", Some(Adding(PopLabel))),
    ("raw", Some(Adding(Raw))),
    ("char_width", Some(CharWidth)),
    ("read_char", Some(ReadChar)),
    ("trim_start_zero_width_chars", Some(TrimStart)),
    ("write_tabs_expanded", Some(Layout(TabsExpanded))),
    ("write_unindented", Some(Layout(Unindented))),
    ("write_for_office", Some(Layout(ForOffice))),
    ("write_for_floor", Some(Layout(ForFloor))),
    ("build_line_index", Some(Index(Build))),
    ("extend_line_index", Some(Index(Extend))),
    ("line_at", Some(Question(LineAt))),
    ("place_of", Some(Question(PlaceOf))),
    ("write_truncated_cells", Some(Cells)),
    ("wrong", None),
];

// ── numbers

// A number's value; none where something else stands there, or one above 18446744073709551609.
fn decimal(s: &[u8]) -> Option<u64> {
    s.iter().try_fold(0u64, |n, b| {
        if b.is_ascii_digit() && n < u64::MAX / 10 {
            Some(n * 10 + u64::from(b - b'0'))
        } else {
            None
        }
    })
}

// The value of a hexadecimal digit; of anything else 0.
fn digit(b: u8) -> u8
    ensures { result ≤ 15 }
{
    match b {
        b'0'..=b'9' => b - b'0',
        b'a'..=b'f' => b - b'a' + 10,
        _ => 0,
    }
}

fn hexadecimal(s: &[u8]) -> Option<u64> {
    s.iter().try_fold(0u64, |n, b| {
        if n <= 0xFFFFFFFF {
            Some(n * 16 + u64::from(digit(*b)))
        } else {
            None
        }
    })
}

// The number that a word says.
fn number(word: &[u8]) -> Option<u64> {
    match word {
        b"push" => Some(0),
        b"pop" => Some(1),
        b"raw" => Some(2),
        [_, b'x', _, ..] => hexadecimal(&word[2..]),
        _ => decimal(word),
    }
}

// The number that a word says, but at most `most`, as where it says none.
fn at_most(word: &[u8], most: usize) -> usize
    ensures { result ≤ most }
{
    decimal(word).map_or(most, |n| most.min(n as usize))
}

// ── lists

// What a buffer holds. One that is lent has `UNUSED` in each place that nothing is said of.
trait Element: Copy + PartialEq {
    const UNUSED: Self;

    fn from_number(n: u64) -> Self;
}

// The lowest eight bits.
impl Element for u8 {
    const UNUSED: u8 = 0xA5;

    fn from_number(n: u64) -> u8 {
        (n % 256) as u8
    }
}

// The nearest number.
impl Element for u32 {
    const UNUSED: u32 = 0xA5A5A5A5;

    fn from_number(n: u64) -> u32 {
        u32::try_from(n).unwrap_or(u32::MAX)
    }
}

// The elements of a list from some place on: `rest` begins there, and `part` where the part begins, which was gone through `round` times.
#[derive(Clone, Copy)]
struct Elements<'a> {
    rest: &'a [u8],
    part: &'a [u8],
    round: u64,
    quoted: bool,
}

impl<'a> Elements<'a> {
    fn of(list: &'a [u8]) -> Elements<'a> {
        let (part, quoted) = match list {
            [b'"', part @ ..] => (part, true),
            _ => (list, false),
        };
        Elements {
            rest: part,
            part,
            round: 0,
            quoted,
        }
    }

    // Whether the part ends here.
    fn is_at_end(self) -> bool {
        match self.rest {
            [b'"', ..] => self.quoted,
            [b'*' | b'+', ..] => !self.quoted,
            _ => false,
        }
    }

    // From the part's end to its start again, to the next part or to the list's end.
    fn turned(self) -> Elements<'a> {
        let behind = self.rest.strip_prefix(b"\"").unwrap_or(self.rest);
        let mut parts = behind.splitn(2, |b| *b == b'+');
        let repeated = parts.next().unwrap_or(&[]);
        let round = self.round.wrapping_add(1);
        if round < times(repeated) {
            return Elements {
                rest: self.part,
                round,
                ..self
            };
        }
        Elements::of(parts.next().unwrap_or(&[]))
    }
}

impl<'a> Iterator for Elements<'a> {
    type Item = u64;

    fn next(&mut self) -> Option<u64> {
        if self.is_at_end() {
            *self = self.turned();
        }
        if self.rest.is_empty() {
            return None;
        }
        let (value, rest) = if self.quoted {
            byte_element(self.rest)
        } else {
            number_element(self.rest)
        };
        self.rest = rest;
        Some(value)
    }
}

// How often a part is to be gone through: `*N`, or once.
fn times(repeated: &[u8]) -> u64 {
    match repeated {
        [_, _, ..] => decimal(&repeated[1..]).unwrap_or(u64::MAX),
        _ => 1,
    }
}

// The byte at the front of a text, itself or after a backslash, and what stands behind it.
fn byte_element(s: &[u8]) -> (u64, &[u8]) {
    let at = |k: usize| s.get(k).copied().unwrap_or(0);
    let (value, len) = match (at(0), at(1)) {
        (b'\\', b'x') => (16 * digit(at(2)) + digit(at(3)), 4),
        (b'\\', b'n') => (b'\n', 2),
        (b'\\', b't') => (b'\t', 2),
        (b'\\', letter) => (letter, 2),
        (b, _) => (b, 1),
    };
    (u64::from(value), s.get(len..).unwrap_or(&[]))
}

// The number at the front of numbers, the largest for a word that is none, and what stands behind its separator.
fn number_element(s: &[u8]) -> (u64, &[u8]) {
    let end = s
        .iter()
        .position(|b| matches!(*b, b',' | b';' | b'*' | b'+'));
    let (word, rest) = s.split_at(end.unwrap_or(s.len()));
    let behind = match rest {
        [b',' | b';', behind @ ..] => behind,
        _ => rest,
    };
    (number(word).unwrap_or(u64::MAX), behind)
}

// Whether a buffer holds the elements of a list, and `UNUSED` beyond them.
fn holds<T: Element>(list: &[u8], got: &[T]) -> bool {
    let mut elements = Elements::of(list);
    got.iter().all(|place| {
        let wanted = elements.next().map_or(T::UNUSED, |n| T::from_number(n));
        *place == wanted
    }) && elements.next().is_none()
}

// The list of a field, and what stands before it: the length of a lent buffer and a colon, if there is one.
fn room_and_list(value: &[u8]) -> (Option<&[u8]>, &[u8]) {
    match value.iter().position(|b| *b == b':') {
        Some(k) if !value.starts_with(b"\"") => (Some(&value[..k]), &value[k + 1..]),
        _ => (None, value),
    }
}

// ── buffers

// How long what is read may be: what the limits ask for, one element past them too, and eight places more.
const BYTES: usize = 1048600;

const NUMBERS: usize = 16400;

const RECORDS: usize = 40008;

const TEXTS: usize = 65600;

const LINES: usize = 264;

const LENT_BYTES: usize = 10016;

// What the numbers of an answer hold before a call, where one that is not stored is to be seen.
const UNSTORED: u64 = 0xA5;

#[derive(Drop)]
struct Recording {
    bytes: Vec<u8>,
    entries: Vec<u32>,
    text: Vec<u8>,
}

impl Recording {
    fn parts(&self) -> (&[u8], &[u32], &[u8]) {
        (&self.bytes, &self.entries, &self.text)
    }
}

// A buffer of which the first `room` places are lent.
#[derive(Drop)]
struct Lent<T> {
    places: Vec<T>,
    room: usize,
}

impl<T> Lent<T> {
    fn lend(&mut self) -> &mut [T] {
        let n = self.room.min(self.places.len());
        &mut self.places[..n]
    }
}

#[derive(Drop)]
struct Buffers {
    bytes: Lent<u8>,
    numbers: Lent<u32>,
    texts: Lent<u8>,
    lines: Lent<u32>,
}

// What a call left in the lent buffers and beyond them.
#[derive(Clone, Copy)]
struct Left<'a> {
    bytes: &'a [u8],
    numbers: &'a [u32],
    texts: &'a [u8],
    lines: &'a [u32],
}

impl Buffers {
    fn left(&self) -> Left<'_> {
        Left {
            bytes: &self.bytes.places,
            numbers: &self.numbers.places,
            texts: &self.texts.places,
            lines: &self.lines.places,
        }
    }
}

// ── lines

#[derive(Clone, Copy, PartialEq, Eq)]
enum Key {
    Data,
    Entries,
    Text,
    Second,
    SecondEntries,
    SecondText,
    Records,
    New,
    Added,
    Used,
    Width,
    Break,
    Code,
    Answer,
    Out,
    OutEntries,
    OutText,
    Lines,
    Characters,
    Label,
    Index,
    At,
}

const KEYS: [(&str, Key); 22] = [
    ("data", Key::Data),
    ("entries", Key::Entries),
    ("text", Key::Text),
    ("second", Key::Second),
    ("second_entries", Key::SecondEntries),
    ("second_text", Key::SecondText),
    ("records", Key::Records),
    ("new", Key::New),
    ("added", Key::Added),
    ("used", Key::Used),
    ("width", Key::Width),
    ("break", Key::Break),
    ("code", Key::Code),
    ("answer", Key::Answer),
    ("out", Key::Out),
    ("out_entries", Key::OutEntries),
    ("out_text", Key::OutText),
    ("lines", Key::Lines),
    ("characters", Key::Characters),
    ("label", Key::Label),
    ("index", Key::Index),
    ("at", Key::At),
];

// A field's key and value; none where the key is not in the table.
fn key_and_value(field: &[u8]) -> Option<(Key, &[u8])> {
    let k = field.iter().position(|b| *b == b'=')?;
    let name = &field[..k];
    let (_, key) = KEYS.iter().find(|(known, _)| known.as_bytes() == name)?;
    Some((*key, &field[k + 1..]))
}

// A line's fields.
#[derive(Drop)]
struct Line<'a> {
    alloc: Global,
    fields: Vec<(Key, &'a [u8])>,
}

impl<'a> Line<'a> {
    // The fields behind the name, between spaces that are not within quotes; none where one of them has no key of the table.
    fn parse(alloc: Global, text: &'a [u8]) -> Result<Option<Line<'a>>, AllocError> {
        let mut fields = Vec::new(alloc);
        let mut quoted = false;
        let pieces = text.split(|b| {
            quoted ^= *b == b'"';
            *b == b' ' && !quoted
        });
        for piece in pieces.skip(1) {
            let Some(field) = key_and_value(piece) else {
                return Ok(None);
            };
            fields.push(field)?;
        }
        Ok(Some(Line { alloc, fields }))
    }

    // The value of the first field with a key; nothing if there is none.
    fn value(&self, key: Key) -> &'a [u8] {
        match self.fields.iter().find(|field| field.0 == key) {
            Some((_, value)) => *value,
            None => &[],
        }
    }

    fn number(&self, key: Key) -> u64 {
        number(self.value(key)).unwrap_or(u64::MAX)
    }

    fn width(&self) -> u32 {
        u32::from_number(self.number(Key::Width))
    }

    // How much of a recording's data, entries and text is used.
    fn used(&self) -> [usize; 3] {
        let mut words = self.value(Key::Used).split(|b| *b == b',');
        array::from_fn(|_| words.next().map_or(0, |word| at_most(word, usize::MAX)))
    }

    // The elements of a field's list, at most `most`.
    fn elements<T: Element>(&self, key: Key, most: usize) -> Result<Vec<T>, AllocError> {
        let (_, list) = room_and_list(self.value(key));
        Elements::of(list)
            .map(|n| T::from_number(n))
            .take(most)
            .collect(self.alloc)
    }

    // The same, cut or filled up to the length of the lent buffer where the field has one.
    fn list<T: Element>(&self, key: Key, most: usize, fill: T) -> Result<Vec<T>, AllocError> {
        let mut items = self.elements(key, most)?;
        if let (Some(word), _) = room_and_list(self.value(key)) {
            items.resize(at_most(word, most), fill)?;
        }
        Ok(items)
    }

    fn data(&self, key: Key) -> Result<Vec<u8>, AllocError> {
        self.list(key, BYTES, u8::UNUSED)
    }

    fn recording(
        &self,
        bytes: Key,
        entries: Key,
        text: Key,
        most: usize,
    ) -> Result<Recording, AllocError> {
        Ok(Recording {
            bytes: self.data(bytes)?,
            entries: self.list(entries, most, 0)?,
            text: self.list(text, TEXTS, 0)?,
        })
    }

    fn content(&self) -> Result<Recording, AllocError> {
        self.recording(Key::Data, Key::Entries, Key::Text, NUMBERS)
    }

    // A buffer that the call is lent as far as the field says, with eight places more, that holds `items` and `UNUSED` behind them.
    fn lent<T: Element>(
        &self,
        key: Key,
        most: usize,
        items: Vec<T>,
    ) -> Result<Lent<T>, AllocError> {
        let (room, _) = room_and_list(self.value(key));
        let mut places = items;
        places.resize(most, T::UNUSED)?;
        Ok(Lent {
            places,
            room: room.map_or(0, |word| at_most(word, most.saturating_sub(8))),
        })
    }

    fn buffers(&self) -> Result<Buffers, AllocError> {
        Ok(Buffers {
            bytes: self.lent(Key::Out, LENT_BYTES, Vec::new(self.alloc))?,
            numbers: self.lent(Key::OutEntries, NUMBERS, Vec::new(self.alloc))?,
            texts: self.lent(Key::OutText, TEXTS, Vec::new(self.alloc))?,
            lines: self.lent(Key::Lines, LINES, Vec::new(self.alloc))?,
        })
    }

    // Whether a buffer holds the list of a field and `UNUSED` beyond it, in the places that were lent and eight more.
    fn holds<T: Element>(&self, key: Key, got: &[T]) -> bool {
        let value = self.value(key);
        let (room, list) = room_and_list(value);
        let lent = at_most(room.unwrap_or(value), got.len());
        let seen = got.len().min(lent.saturating_add(8));
        holds(list, &got[..seen])
    }

    // Whether these are the numbers of the answer; those that are left out are 0.
    fn answered(&self, res: [u64; 5]) -> bool {
        let mut words = self.value(Key::Answer).split(|b| *b == b',');
        res.iter()
            .all(|n| number(words.next().unwrap_or(&[])) == Some(*n))
    }

    // Whether the answer and the lent buffers are as expected.
    fn agrees(&self, res: [u64; 5], left: Left<'_>) -> bool {
        self.answered(res)
            && self.holds(Key::Out, left.bytes)
            && self.holds(Key::OutEntries, left.numbers)
            && self.holds(Key::OutText, left.texts)
            && self.holds(Key::Lines, left.lines)
    }

    // ── the calls

    // Whether what a call does is as expected.
    fn agrees_at(&self, call: Call) -> Result<bool, AllocError> {
        match call {
            CharWidth => Ok(self.char_width_agrees()),
            ReadChar => self.read_char_agrees(),
            TrimStart => self.trimmed_agrees(),
            Text(call) => self.text_agrees(call),
            Layout(call) => self.layout_agrees(call),
            Plain(call) => self.plain_agrees(call),
            Cells => self.cells_agree(),
            Adding(call) => self.adding_agrees(call),
            Index(call) => self.index_agrees(call),
            Question(call) => self.question_agrees(call),
        }
    }

    fn char_width_agrees(&self) -> bool {
        let code = u32::from_number(self.number(Key::Code));
        self.answered([char_width(code) as u64, 0, 0, 0, 0])
    }

    // No more characters, and no fewer.
    fn read_char_agrees(&self) -> Result<bool, AllocError> {
        let numbers = characters(self.alloc, &self.data(Key::Data)?)?;
        Ok(holds(self.value(Key::Characters), &numbers))
    }

    // The part that is handed back, and its length.
    fn trimmed_agrees(&self) -> Result<bool, AllocError> {
        let data = self.data(Key::Data)?;
        let rest = trim_start_zero_width_chars(&data);
        Ok(self.answered([rest.len() as u64, 0, 0, 0, 0]) && holds(self.value(Key::Out), rest))
    }

    fn text_agrees(&self, call: TextCall) -> Result<bool, AllocError> {
        let s = &self.data(Key::Data)?;
        let max = self.number(Key::Width);
        let (first, second) = match call {
            Width => (ruszvedok_text_width(s), 0),
            WellFormed => (u64::from(ruszvedok_well_formed(s)), 0),
            TruncateEndPos => {
                let Place { pos, width } = ruszvedok_truncate_end_pos(s, max);
                (pos as u64, width)
            }
            TruncateStartPos => {
                let Place { pos, width } = ruszvedok_truncate_start_pos(s, max);
                (pos as u64, width)
            }
            ZeroWidthLen => (ruszvedok_zero_width_len(s) as u64, 0),
        };
        Ok(self.answered([first, second, 0, 0, 0]))
    }

    // What a layout call takes besides the content: a second recording, the replacements and their text, or a label.
    fn second(&self, call: LayoutCall) -> Result<Recording, AllocError> {
        let (bytes, entries) = match call {
            Replaced => (Key::New, Key::Records),
            ForOffice | ForFloor => (Key::Label, Key::SecondEntries),
            _ => (Key::Second, Key::SecondEntries),
        };
        self.recording(bytes, entries, Key::SecondText, RECORDS)
    }

    fn layout_agrees(&self, call: LayoutCall) -> Result<bool, AllocError> {
        let content = self.content()?;
        let second = self.second(call)?;
        let mut out = self.buffers()?;
        let res = self.layout_answer(call, &content, &second, &mut out);
        Ok(self.agrees(res, out.left()))
    }

    fn layout_answer(
        &self,
        call: LayoutCall,
        content: &Recording,
        second: &Recording,
        out: &mut Buffers,
    ) -> [u64; 5] {
        let mut res = [0; 5];
        let width = self.width();
        let breaks = self.number(Key::Break) == 1;
        let (bytes, entries, text) = second.parts();
        // A call with what it takes between the content and the lent buffers, and behind them.
        macro_rules! call {
            ($name:ident, [$($asked:expr),*] $(, $lines:expr)?) => {
                $name(
                    &content.bytes,
                    &content.entries,
                    &content.text,
                    $($asked,)*
                    out.bytes.lend(),
                    out.numbers.lend(),
                    out.texts.lend(),
                    $($lines,)?
                    &mut res,
                )
            };
        }
        match call {
            Replay => call!(ruszvedok_replay, []),
            TruncatedStart => call!(
                ruszvedok_write_truncated_start,
                [bytes, entries, text, width]
            ),
            TruncatedEnd => call!(ruszvedok_write_truncated_end, [bytes, entries, text, width]),
            PaddedStart => call!(ruszvedok_write_padded_start, [bytes, entries, text, width]),
            PaddedEnd => call!(ruszvedok_write_padded_end, [bytes, entries, text, width]),
            PaddedCentered => call!(
                ruszvedok_write_padded_centered,
                [bytes, entries, text, width]
            ),
            Indented => call!(ruszvedok_write_indented, [bytes, entries, text]),
            Unindented => call!(ruszvedok_write_unindented, [bytes, entries, text]),
            Wrapped => call!(ruszvedok_write_wrapped, [width, breaks], out.lines.lend()),
            Replaced => call!(ruszvedok_write_replaced, [entries, bytes]),
            TabsExpanded => call!(ruszvedok_write_tabs_expanded, [width]),
            ForOffice => call!(ruszvedok_write_for_office, [bytes]),
            ForFloor => call!(ruszvedok_write_for_floor, [bytes]),
        }
        res
    }

    // The calls on plain texts.
    fn plain_agrees(&self, call: PlainCall) -> Result<bool, AllocError> {
        let content = &self.data(Key::Data)?;
        let second = &self.data(Key::Second)?;
        let mut out = self.buffers()?;
        let mut res = [0; 5];
        let width = self.width();
        let bytes = out.bytes.lend();
        match call {
            WrapBytes => {
                let breaks = self.number(Key::Break) == 1;
                ruszvedok_wrap_bytes(content, width, breaks, out.lines.lend(), &mut res);
            }
            ElideStart => ruszvedok_elide_start(content, second, width, bytes, &mut res),
            ElideEnd => ruszvedok_elide_end(content, second, width, bytes, &mut res),
            CompleteNewline => ruszvedok_complete_newline(content, bytes, &mut res),
        }
        Ok(self.plain_buffers_agree(res, &out))
    }

    // The same of a call that is lent bytes and lines alone.
    fn plain_buffers_agree(&self, res: [u64; 5], out: &Buffers) -> bool {
        let left = Left {
            numbers: &[],
            texts: &[],
            ..out.left()
        };
        self.agrees(res, left)
    }

    // A page of cells: `index` has the part ends.
    fn cells_agree(&self) -> Result<bool, AllocError> {
        let content = self.data(Key::Data)?;
        let ellipsis = self.data(Key::Second)?;
        let ends = self.list(Key::Index, LINES, 0)?;
        let mut out = self.buffers()?;
        let mut res = [UNSTORED; 5];
        ruszvedok_write_truncated_cells(
            &content,
            &ends,
            &ellipsis,
            self.width(),
            out.bytes.lend(),
            out.lines.lend(),
            &mut res,
        );
        Ok(self.plain_buffers_agree(res, &out))
    }

    // The calls that add to a recording: its buffers are lent, as far as `used` says in use.
    fn adding_agrees(&self, call: AddingCall) -> Result<bool, AllocError> {
        let mut content = self.data(Key::Data)?;
        let mut numbers = self.list(Key::Entries, NUMBERS, u32::UNUSED)?;
        let mut texts = self.list(Key::Text, TEXTS, u8::UNUSED)?;
        let added = &self.list(Key::Added, TEXTS, 0)?;
        let [a, b, c] = self.used();
        let bytes = content.as_mut_slice();
        let entries = numbers.as_mut_slice();
        let text = texts.as_mut_slice();
        let mut res = [0; 5];
        match call {
            Write => ruszvedok_write(bytes, a, entries, b, text, c, added, &mut res),
            PushLabel => ruszvedok_push_label(bytes, a, entries, b, text, c, added, &mut res),
            PopLabel => ruszvedok_pop_label(bytes, a, entries, b, text, c, &mut res),
            Raw => ruszvedok_raw(bytes, a, entries, b, text, c, added, &mut res),
        }
        let left = Left {
            bytes: &content,
            numbers: &numbers,
            texts: &texts,
            lines: &[],
        };
        Ok(self.agrees(res, left))
    }

    // The calls that write a line index, in a list that holds `index`. `at` is the length of the earlier data.
    fn index_agrees(&self, call: IndexCall) -> Result<bool, AllocError> {
        let content = self.content()?;
        let (bytes, entries, text) = content.parts();
        let mut list = self.lent(Key::Lines, LINES, self.elements(Key::Index, LINES)?)?;
        let at = self.number(Key::At) as usize;
        let used = self.number(Key::Used) as usize;
        let index = list.lend();
        let mut res = [UNSTORED; 5];
        match call {
            Build => ruszvedok_build_line_index(bytes, entries, text, index, &mut res),
            Extend => ruszvedok_extend_line_index(bytes, entries, text, at, index, used, &mut res),
        }
        let left = Left {
            bytes: &[],
            numbers: &[],
            texts: &[],
            lines: &list.places,
        };
        Ok(self.agrees(res, left))
    }

    // The questions to a line index. `at` is a line or an offset.
    fn question_agrees(&self, call: QuestionCall) -> Result<bool, AllocError> {
        let content = self.content()?;
        let (bytes, entries, text) = content.parts();
        let index = &self.list(Key::Index, LINES, 0)?;
        let at = self.number(Key::At) as usize;
        let mut res = [UNSTORED; 3];
        match call {
            LineAt => ruszvedok_line_at(bytes, entries, text, index, at, &mut res),
            PlaceOf => ruszvedok_place_of(bytes, entries, text, index, at, &mut res),
        }
        let [refusal, first, second] = res;
        Ok(self.answered([refusal, first, second, 0, 0]))
    }
}

// The characters of a text, as far as they fit in 256 numbers, four each: code point, bytes, whether it is well-formed, width.
fn characters(alloc: Global, s: &[u8]) -> Result<Vec<u32>, AllocError> {
    let mut numbers = Vec::new(alloc);
    let mut at = 0;
    // kept: a `for` is no plainer, since a step is as long as the character that it reads.
    while at < s.len() && numbers.len() < 256 {
        let c = read_char(s, at);
        let w = seen_at(s, at);
        numbers.extend_from_slice(&[c.code, c.len as u32, c.ok as u32, w.width])?;
        at += c.len;
    }
    Ok(numbers)
}

// ── counting

// How many lines of a row there are, and how many of them do as they should.
#[derive(Clone, Copy, Default)]
struct Count {
    total: u64,
    agreed: u64,
}

// Counts a line at its call's row, or at the last where it is wrong on purpose, and answers whether it does as it should: agrees, or not if it is wrong.
fn replay(
    alloc: Global,
    counts: &mut [Count],
    text: &[u8],
    wrong: bool,
) -> Result<bool, AllocError> {
    let name = text.split(|b| *b == b' ').next().unwrap_or(&[]);
    let row = ROWS
        .iter()
        .position(|(known, _)| known.as_bytes() == name)
        .unwrap_or(ROWS.len());
    let call = ROWS.get(row).and_then(|(_, call)| *call);
    let right = match (call, Line::parse(alloc, text)?) {
        (Some(call), Some(line)) => line.agrees_at(call)? != wrong,
        _ => false,
    };
    let counted = if wrong { ROWS.len() - 1 } else { row };
    if let Some(count) = counts.get_mut(counted) {
        count.total = count.total.wrapping_add(1);
        count.agreed = count.agreed.wrapping_add(u64::from(right));
    }
    Ok(right)
}

fn run(rt: &impl Print, alloc: Global, list: &[u8]) -> io::Result<()> {
    let mut counts = [Count::default(); ROWS.len()];
    for (number, line) in (1u64..).zip(list.split(|b| *b == b'\n')) {
        let (text, wrong) = match line {
            [] | [b'#', ..] => continue,
            [b'!', text @ ..] => (text, true),
            _ => (line, false),
        };
        if !replay(alloc, &mut counts, text, wrong)? {
            println!(rt; "line {number} differs")?;
        }
    }
    for ((name, _), Count { total, agreed }) in ROWS.iter().zip(counts.iter()) {
        println!(rt; "{name} {total} {agreed}")?;
    }
    Ok(())
}

// Reads at most 1 MiB.
fn main(rt: HostRuntime) -> io::Result<()> {
    let mut list = Vec::new(rt.alloc());
    rt.stdin().take(1048576).read_to_end(&mut list)?;
    run(&rt, rt.alloc(), &list)
}
