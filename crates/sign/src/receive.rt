// Bytes off the line: the record after what was heard (J3), or 16. A released body (J10) that is a program starts
// (J11), and with any other the sign stays Ready (J12).
ghost use Rattle.std.specs.Prelude.{◌≡◌};
ghost use Rattle.sign.specs.Join.{stays_of, running_of, emptied_of, starts_of};
ghost use Rattle.sign.specs.Receive.{behind_of, receive_of};

use crate::reset::rested;
use crate::{Received, Sign};
use hear::{Outcome, hear};
use judge::Verdict;
use machine::Run;
use refusal::Refusal;

impl Sign {
    // The record stays, and no body comes with the answer.
    fn stays(self, outcome: Result<Outcome, Refusal>) -> Received
        ensures { result ≡ stays_of self outcome }
    {
        Received {
            sign: self,
            outcome,
            body: [0; room::SIZE],
        }
    }

    // The body in the room runs from its first command.
    fn running(self, len: usize) -> Sign
        ensures { result ≡ running_of self len }
    {
        Sign {
            run: Run::started(len, self.run.settings),
            ..self
        }
    }

    // The room is emptied.
    fn emptied(self) -> Sign
        ensures { result ≡ emptied_of self }
    {
        Sign {
            room: [0; room::SIZE],
            ..self
        }
    }

    // A body of this verdict runs if it was accepted, and leaves the room otherwise.
    fn starts(self, verdict: Verdict, len: usize) -> Sign
        ensures { result ≡ starts_of verdict (running_of self len) (emptied_of self) }
    {
        match verdict {
            Ok(_) => self.running(len),
            Err(_) => self.emptied(),
        }
    }

    // The record after an outcome, where hearing left all but the run as it stands here.
    fn after(self, outcome: Result<Outcome, Refusal>) -> Received
        ensures { result ≡ behind_of outcome self }
    {
        match outcome {
            Ok(Outcome::Reset) => {
                let settings = self.run.settings;
                let run = rested(settings.dim, settings.bright);
                Sign { run, ..self }.stays(outcome)
            }
            Ok(Outcome::Released { verdict, len }) => {
                let body = self.room;
                Received {
                    sign: self.starts(verdict, len),
                    outcome,
                    body,
                }
            }
            _ => self.stays(outcome),
        }
    }

    // What the bytes make of the record: the next one, the outcome, and the body if one is released.
    pub fn receive(self, mid: u8, bytes: &[u8]) -> Received
        ensures { result ≡ receive_of self mid bytes.now }
    {
        let mut room = self.room;
        if !self.run.sound(&room) {
            return self.stays(Err(Refusal::Unsound));
        }
        let heard = hear(
            self.completed,
            self.slots,
            self.run.len,
            &mut room,
            mid,
            bytes,
        );
        let next = Sign {
            completed: heard.completed,
            slots: heard.slots,
            room,
            ..self
        };
        next.after(heard.outcome)
    }
}
