// What a truncating call keeps of a content and of an ellipsis: it measures them, and writes nothing.
#![tactic(auto)]

ghost use Rattle.std.specs.Prelude.{◌≡◌, ◌+◌, ◌≤◌, length, drop};
ghost use Rattle.chars.specs.Cut.{zero_width_len_of};
ghost use Rattle.truncate_plan.specs.Plan.{plan_end, plan_start};

use chars::{cut_end, display_width, trim_start_zero_width_chars, truncate_start_pos};

// What a call is about to keep: whether it cuts, the places in the content and the ellipsis where it does, and the width kept.
#[derive(Clone, Copy)]
pub struct Plan {
    // kept: no Option: the other fields say what stays whether or not something is cut.
    pub cut: bool,
    pub content: usize,
    pub ellipsis: usize,
    pub width: u64,
}

// Where the text from `start` on begins once its leading zero-width characters are removed.
// kept: by the part that is handed back, and not by `leading_zero_width`, since document 01 names that form for the start call.
fn trimmed_from(s: &[u8], start: usize) -> usize
    requires { start ≤ length s.now }
    ensures value { result ≡ start + zero_width_len_of (drop start s.now) }
    ensures upper_bound { result ≤ length s.now }
{
    s.len() - trim_start_zero_width_chars(&s[start..]).len()
}

// What the end call keeps: the content up to a place and the ellipsis up to one, or all of the content and nothing of the ellipsis.
#[tactic(auto, unfolding(crate::specs::Plan::plan_end))]
pub fn measure_end(content: &[u8], ellipsis: &[u8], max_width: u32) -> Plan
    ensures value { result ≡ plan_end max_width content.now ellipsis.now }
    ensures content_in_bounds { (result.content ≤ length content.now) × (result.ellipsis ≤ length ellipsis.now) }
{
    let max = max_width as u64;
    let w = display_width(content);
    if w <= max {
        return Plan {
            cut: false,
            content: content.len(),
            ellipsis: 0,
            width: w,
        };
    }
    let room = max.saturating_sub(display_width(ellipsis));
    let a = cut_end(content, room);
    let b = cut_end(ellipsis, max);
    Plan {
        cut: true,
        content: a.pos,
        ellipsis: b.pos,
        width: a.width + b.width,
    }
}

// What the start call keeps: the ellipsis from a place on and the content from one; nothing of the ellipsis if nothing is cut.
// Each written text loses its leading zero-width characters, also when nothing is cut.
// kept: beside `measure_end` and not one with it by the end that is cut, since they share the first test alone: each step behind it would be a `match` on the end.
#[tactic(auto, unfolding(crate::specs::Plan::plan_start, layout::specs::Layout::trimmed_start_pos))]
pub fn measure_start(content: &[u8], ellipsis: &[u8], max_width: u32) -> Plan
    ensures value { result ≡ plan_start max_width content.now ellipsis.now }
    ensures content_in_bounds { (result.content ≤ length content.now) × (result.ellipsis ≤ length ellipsis.now) }
{
    let max = max_width as u64;
    let whole = display_width(content);
    if whole <= max {
        return Plan {
            cut: false,
            content: trimmed_from(content, 0),
            ellipsis: ellipsis.len(),
            width: whole,
        };
    }
    let e = display_width(ellipsis);
    let a = truncate_start_pos(content, whole, max.saturating_sub(e));
    let b = truncate_start_pos(ellipsis, e, max);
    Plan {
        cut: true,
        content: trimmed_from(content, a.pos),
        ellipsis: trimmed_from(ellipsis, b.pos),
        width: b.width + a.width,
    }
}
