// The numbers in which answers cross to C. An answer is five: the refusal or 0, the lengths of data, entry numbers and text that were left, and the call's number.
// A reply is three: the refusal or 0, and the two numbers that were asked for.
#![tactic(auto)]

ghost use Rattle.std.specs.Prelude.{◌≡◌};
ghost use Rattle.recording.specs.Outcome.{answer_of, reply_of};
ghost use Rattle.answer_numbers.specs.Five.{five, three};

use recording::{Done, Found, Refusal};

// Stores an answer as its five numbers.
#[tactic(auto, unfolding(crate::specs::Five::five))]
pub fn store(a: Result<Done, Refusal>, res: &mut [u64; 5])
    ensures { res.new ≡ five (answer_of a) }
{
    *res = match a {
        Err(f) => [u64::from(f), 0, 0, 0, 0],
        Ok(d) => [0, d.data as u64, d.entries as u64, d.text as u64, d.number],
    };
}

// Stores a reply as its three numbers.
#[tactic(auto, unfolding(crate::specs::Five::three))]
pub fn store_reply(a: Result<Found, Refusal>, res: &mut [u64; 3])
    ensures { res.new ≡ three (reply_of a) }
{
    *res = match a {
        Err(f) => [u64::from(f), 0, 0],
        Ok(r) => [0, r.first as u64, r.second as u64],
    };
}
