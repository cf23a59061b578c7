// One step of the running program, with the record around it: S1, S11 and S12, and N16. The step of the run tests its
// own part of soundness.
ghost use Rattle.std.specs.Prelude.{◌≡◌};
ghost use Rattle.sign.specs.Step.{room_after, step_of};

use crate::{Sign, Stepped};
use hear::framed;
use refusal::Refusal;
use room::Room;

// Empties the room where a body of one length has run to its end, which is a length of 0 after the step.
fn empty(room: &mut Room, before: usize, after: usize)
    ensures { room.new ≡ room_after room.old before after }
{
    if before != 0 && after == 0 {
        *room = [0; room::SIZE];
    }
}

impl Sign {
    // One step: the next record with the answer; 16 for an unsound record.
    pub fn step(self) -> Stepped
        ensures { result ≡ step_of self }
    {
        let mut room = self.room;
        if !framed(self.completed, self.slots, &room, self.run.len) {
            return Stepped {
                sign: self,
                answer: Err(Refusal::Unsound),
            };
        }
        let went = self.run.step(&room);
        empty(&mut room, self.run.len, went.run.len);
        Stepped {
            sign: Sign {
                room,
                run: went.run,
                ..self
            },
            answer: went.answer,
        }
    }
}
