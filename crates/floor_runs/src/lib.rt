// The floor's data run by run (document 02, Q-6). A run has no entry inside: its bytes are copied, or stars come in their stead.
// Only characters under the label are read one by one: what stands outside it is copied whole, up to the character that the next entry may divide.
#![tactic(auto)]

ghost use Rattle.std.specs.Prelude.{◌≡◌, true, ◌≤◌, ◌<◌, length};
ghost use Rattle.recording.specs.Read.{recording_of};
ghost use Rattle.writer.specs.Write.{left_in};
ghost use Rattle.char_runs.specs.Runs.{Passes};
ghost use Rattle.open_label.specs.Walk.{next_place, StandingIn};
ghost use Rattle.floor_runs.specs.Runs.{copied_run_to, RunOf};

use char_runs::{covered, whole_end};
use chars::seen_at;
use open_label::{Walk, any_under};
use recording::Recording;
use writer::place_at;

// What is written of the data up to `to`: the bytes themselves, or so many stars. The bytes behind it up to `until` belong to the same character, and go as it goes: copied, or without a trace.
#[derive(Clone, Copy)]
pub struct Run {
    pub to: usize,
    pub until: usize,
    // kept: no enum of two runs: both have the same end, and the definitions speak of this test.
    pub copy: bool,
    pub stars: usize,
}

// A run that is copied, up to a place at which a character ends.
pub fn copied_to(to: usize) -> Run
    ensures { result ≡ copied_run_to to }
{
    Run {
        to,
        until: to,
        copy: true,
        stars: 0,
    }
}

// The run up to `end` of a character that goes on past it, so that entries stand inside: one byte under the label is enough, also behind `end`.
fn divided_run(content: Recording<'_>, label: &[u8], w: Walk, end: usize) -> Run
    requires standing { StandingIn (recording_of content) w }
    requires at_lt_end { (w.c.at < end) × (end ≤ length content.bytes.now) × (end ≤ next_place content.entries.now w.c) × Passes content.bytes.now w.c.at end }
    ensures { RunOf label.now content.entry.bytes.now (left_in (recording_of content.entry) w.c) w.o
        w.c.at w.c.at true end result }
{
    let ch = seen_at(content.bytes, w.c.at);
    let until = w.c.at + ch.len;
    if any_under(content, label, w, until) {
        return Run {
            to: end,
            until,
            copy: false,
            stars: ch.width as usize,
        };
    }
    Run {
        to: end,
        until,
        copy: true,
        stars: 0,
    }
}

// The run from a place at which a character starts, up to `end`, before which no entry stands.
fn fresh_run(content: Recording<'_>, label: &[u8], w: Walk, end: usize) -> Run
    requires standing { StandingIn (recording_of content) w }
    requires at_lt_end { (w.c.at < end) × (end ≤ length content.bytes.now) × (end ≤ next_place content.entries.now w.c) }
    ensures { RunOf label.now content.entry.bytes.now (left_in (recording_of content.entry) w.c) w.o
        w.c.at w.c.at true end result }
{
    let at = w.c.at;
    if w.o.since == 0 {
        let m = whole_end(content.bytes, at, end);
        if at < m {
            return copied_to(m);
        }
    } else if content.bytes[at] == 0x0A {
        return copied_to(at + 1);
    } else {
        let s = covered(content.bytes, at, end);
        if at < s.end {
            return Run {
                to: s.end,
                until: s.end,
                copy: false,
                stars: s.width,
            };
        }
    }
    divided_run(content, label, w, end)
}

// The next run, where the last one is `last`.
pub fn next_run(content: Recording<'_>, label: &[u8], w: Walk, last: Run) -> Run
    requires standing { StandingIn (recording_of content) w }
    requires at_in_bounds { (w.c.at < length content.bytes.now) × (last.until ≤ length content.bytes.now) }
    ensures { RunOf label.now content.entry.bytes.now (left_in (recording_of content.entry) w.c) w.o
        w.c.at last.until last.copy (length content.entry.bytes.now) result × (result.to ≤ next_place content.entry.entries.now w.c) }
{
    let end = place_at(content.entries, w.c.k).min(content.bytes.len());
    if w.c.at < last.until {
        return Run {
            to: end.min(last.until),
            stars: 0,
            ..last
        };
    }
    fresh_run(content, label, w, end)
}
