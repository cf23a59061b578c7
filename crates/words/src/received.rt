// A sign that received (J3), with the body that was released (J10) and its refusal (J12).
ghost use Rattle.std.specs.Prelude.{◌≡◌, [], ◌∷◌, ◌++◌, Ok};
ghost use Rattle.hear.specs.Hear.{values_of, told_of, body_length};
ghost use Rattle.words.specs.Told.{answer_row, first_or, told_in};
ghost use Rattle.words.specs.Says.{received_bytes};

use crate::laying::lay;
use hear::Outcome;
use refusal::Refusal;
use room::Room;

// An outcome as a number, the number for no of a released body's program with its place, and the body's length; 0 for the number and the place
// where it is accepted, and for all three where none was released.
fn outcome_words(outcome: Outcome) -> [u64; 4]
    ensures { result ≡ values_of outcome ++ (body_length (Ok outcome) ∷ []) }
{
    match outcome {
        Outcome::Query => [1, 0, 0, 0],
        Outcome::Reset => [2, 0, 0, 0],
        Outcome::Repeat => [3, 0, 0, 0],
        Outcome::Stored => [4, 0, 0, 0],
        Outcome::Released {
            verdict: Ok(_),
            len,
        } => [5, 0, 0, len as u64],
        Outcome::Released {
            verdict: Err(fault),
            len,
        } => [
            5,
            fault.refusal.number() as u64,
            fault.place as u64,
            len as u64,
        ],
    }
}

// The number for no of an outcome, 0 for yes. Readings, replies and steps end with `e.number() as u32` too: a call in its place would be no shorter.
pub fn tell_outcome(outcome: Result<Outcome, Refusal>) -> u32
    ensures { result ≡ (told_of outcome).number }
{
    match outcome {
        Ok(_) => 0,
        Err(e) => e.number() as u32,
    }
}

// What a sign made of the bytes that came: four words, and the body after them.
pub fn tell_received(outcome: Result<Outcome, Refusal>, body: &Room, answer: &mut [u8]) -> u32
    ensures result { result ≡ first_or (answer_row 100 answer.old ∷ []) (told_of outcome).number }
    ensures told { answer.new ≡ told_in 100 (received_bytes outcome body.now) answer.old }
{
    if answer.len() < 100 {
        return 252;
    }
    let Ok(heard) = outcome else {
        return tell_outcome(outcome);
    };
    lay(&outcome_words(heard), answer);
    let end = 16 + body.len();
    answer[16..end].copy_from_slice(body);
    0
}
