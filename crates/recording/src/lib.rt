// A recording: data bytes, entries and the entries' texts; the refusals, and what calls and checks answer.
#![tactic(auto)]

ghost use Rattle.std.specs.Prelude.{◌≡◌, ◌+◌, ◌≤◌, ◌∷◌, length, drop};
ghost use Rattle.recording.specs.Recording.{entries_of};
ghost use Rattle.recording.specs.Refusals.{number_of_refusal};

// The refusals, by document 01's causes and then document 02's, and those of a list of calls; `specs/Refusals.antt` gives each its number.
#[derive(Clone, Copy)]
pub enum Refusal {
    // Data over its limit.
    DataTooLong,
    // Entry numbers that are not four an entry, or over their limit.
    EntryNumbers,
    // An unknown kind, a pop with a text, a raw sequence without one.
    EntryShape,
    // A position that falls, or beyond the data.
    EntryPosition,
    // Text over its limit, or a part that passes its end.
    TextPart,
    // A label that is not well-formed UTF-8.
    LabelIllFormed,
    // A plain text or ellipsis that is not well-formed UTF-8.
    TextIllFormed,
    // A replacement record out of order or out of range.
    ReplacementRange,
    // A result over a limit of the recording.
    ResultOverLimit,
    // A length above its buffer.
    LengthOverBuffer,
    // A buffer too short for the result.
    DataBufferTooShort,
    EntryBufferTooShort,
    TextBufferTooShort,
    LineListTooShort,
    // A tab stop that is 0 or over 64.
    TabStop,
    // A prefix to be taken off that has a 0A.
    PrefixNewline,
    // A line that is not empty and does not begin with the prefix to be taken off.
    PrefixMissing,
    // A reader's label that is empty or not well-formed UTF-8.
    ViewLabel,
    // A content whose labels are not balanced.
    ContentUnbalanced,
    // A line index that is too short for its numbers, or not that of the data.
    LineIndex,
    // A line or an offset that is not there.
    NoSuchPlace,
    // Part ends of over 64 cells, that fall, or of which the last is not the data's length.
    CellEnds,
    // Columns of a tally sheet outside their limits, or too many lines.
    TallyShape,
    // A cell of a tally sheet that is not well-formed UTF-8, or has a control character.
    TallyCell,
    // A line of a tally sheet with another number of cells than columns, or whose cell of boards is no number of them.
    TallyLine,
    // Of a list of calls: two sets of buffers that differ in a length, numbers that are no calls, a list of answers that is too short.
    SetsDiffer,
    CallNumbers,
    AnswerListTooShort,
}

// The documents' number of a refusal, from 31 on document 02's; 61 and above are those of a list of calls, which neither numbers.
impl From<Refusal> for u64 {
    ghost from_gives = { λ f n. n ≡ number_of_refusal f };

    #[tactic(auto, unfolding(crate::specs::Refusals::number_of_refusal))]
    fn from(f: Refusal) -> u64 {
        match f {
            Refusal::DataTooLong => 1,
            Refusal::EntryNumbers => 2,
            Refusal::EntryShape => 3,
            Refusal::EntryPosition => 4,
            Refusal::TextPart => 5,
            Refusal::LabelIllFormed => 6,
            Refusal::TextIllFormed => 7,
            Refusal::ReplacementRange => 8,
            Refusal::ResultOverLimit => 9,
            Refusal::LengthOverBuffer => 10,
            Refusal::DataBufferTooShort => 21,
            Refusal::EntryBufferTooShort => 22,
            Refusal::TextBufferTooShort => 23,
            Refusal::LineListTooShort => 24,
            Refusal::TabStop => 31,
            Refusal::PrefixNewline => 32,
            Refusal::PrefixMissing => 33,
            Refusal::ViewLabel => 34,
            Refusal::ContentUnbalanced => 35,
            Refusal::LineIndex => 36,
            Refusal::NoSuchPlace => 37,
            Refusal::CellEnds => 38,
            Refusal::TallyShape => 39,
            Refusal::TallyCell => 40,
            Refusal::TallyLine => 41,
            Refusal::SetsDiffer => 61,
            Refusal::CallNumbers => 62,
            Refusal::AnswerListTooShort => 63,
        }
    }
}

// One entry of a recording: four numbers.
// kept: a kind is a number, since the check's definition (`entry_fault`) reads any four numbers.
#[derive(Clone, Copy)]
pub struct Entry {
    pub position: u32,
    pub kind: u32,
    pub start: u32,
    pub len: u32,
}

// A recording that is read: its data bytes, four numbers for each entry, and the text that the entries' parts lie in.
#[derive(Clone, Copy)]
pub struct Recording<'a> {
    pub bytes: &'a [u8],
    pub entries: &'a [u32],
    pub text: &'a [u8],
}

// How long the entries' texts are, one after another: of a content and of a second recording.
#[derive(Clone, Copy)]
pub struct TextSizes {
    pub content: usize,
    pub second: usize,
}

// What a call leaves that is not refused: the lengths, and its number (a width or a count).
#[derive(Clone, Copy)]
pub struct Done {
    pub data: usize,
    pub entries: usize,
    pub text: usize,
    pub number: u64,
}

// What a question that is not refused answers, which leaves nothing: two numbers.
#[derive(Clone, Copy)]
pub struct Found {
    pub first: usize,
    pub second: usize,
}

// The entry whose numbers start at k: the entries from k on are this one and those from k + 4 on.
#[tactic(auto, using(crate::proofs::EntryLaws::entries_next))]
pub fn entry_at(entries: &[u32], k: usize) -> Entry
    requires { k + 4 ≤ length entries.now }
    ensures { entries_of (drop k entries.now) ≡ result ∷ entries_of (drop (k + 4) entries.now) }
{
    Entry {
        position: entries[k],
        kind: entries[k + 1],
        start: entries[k + 2],
        len: entries[k + 3],
    }
}

// The entries behind numbers, one after another; a rest of fewer than four numbers is none.
#[derive(Clone, Copy)]
pub struct Entries<'a> {
    numbers: &'a [u32],
}

impl<'a> Entries<'a> {
    ghost use Rattle.recording.specs.Read.{entries_left};

    pub fn of(numbers: &'a [u32]) -> Entries<'a>
        ensures { entries_left result ≡ entries_of numbers.now }
    {
        Entries { numbers }
    }
}

impl<'a> Iterator for Entries<'a> {
    ghost use Rattle.std.specs.Iterator.{YieldsFirst, item_count};
    ghost use Rattle.recording.specs.Read.{entries_left};

    type Item = Entry;

    ghost next_gives = { YieldsFirst entries_left };

    ghost remaining = { item_count entries_left };

    fn next(&mut self) -> Option<Entry> {
        if self.numbers.len() < 4 {
            return None;
        }
        let e = entry_at(self.numbers, 0);
        self.numbers = &self.numbers[4..];
        Some(e)
    }
}
