// One step of a run: rules S1 and S6 to S13, and N16.
ghost use Rattle.std.specs.Prelude.{◌≡◌, ◌≤◌, true, Ok};
ghost use Rattle.program.specs.Command.{read_of};
ghost use Rattle.loops.specs.Token.{role_of};
ghost use Rattle.judge.specs.Standing.{stand_of};
ghost use Rattle.machine.specs.Sound.{held_of};
ghost use Rattle.machine.specs.Step.{frames_of, loop_of, unsound_of, step_of};
ghost use Rattle.machine.specs.Moves.{settled_of, back_of, moved_of, ran_of};

use crate::sound::{filled, held, rests};
use crate::{Loop, Run, Stepped};
use judge::find;
use loops::{Role, role_of};
use perform::{Settings, perform_at};
use program::Command;
use refusal::Refusal;

// The loop that a record holds, if a count is left.
fn kept(inner: Loop) -> Loop
    ensures { result ≡ loop_of (frames_of inner) }
{
    if inner.left == 0 {
        return Loop::none();
    }
    inner
}

impl Run {
    // Busy at a place within the body, Ready behind its end.
    fn settled(self, place: usize, inner: Loop, settings: Settings) -> Run
        ensures { result ≡ settled_of self place inner settings }
    {
        if self.len <= place {
            return Run::ready(settings);
        }
        Run {
            place,
            inner,
            settings,
            ..self
        }
    }

    // Back behind the `L` with this count left, or on where none is left.
    fn back(self, left: u8, next: usize) -> Run
        ensures { result ≡ back_of self left next }
    {
        if left == 0 {
            return self.settled(next, Loop::none(), self.settings);
        }
        self.settled(self.inner.place, Loop { left, ..self.inner }, self.settings)
    }

    // The run behind a command.
    fn moved(self, command: Command) -> Run
        requires { command.number ≤ 255 }
        ensures { result ≡ moved_of (role_of command.kind) command.kind command.number self command.next }
    {
        let Command {
            kind,
            number,
            next,
            ..
        } = command;
        let number = number as u8;
        match role_of(kind) {
            Role::Plain => {
                self.settled(next, kept(self.inner), self.settings.behind(kind, number))
            }
            Role::Repeat => {
                let opened = Loop {
                    place: next,
                    left: number,
                };
                self.settled(next, opened, self.settings)
            }
            Role::Close => self.back(self.inner.left.saturating_sub(1), next),
            Role::Forever => self.back(self.inner.left, next),
            Role::Again => self.settled(0, kept(self.inner), self.settings),
        }
    }

    // A Busy run goes on by the command at its place in the running body.
    fn run(self, body: &[u8], command: Command) -> Stepped
        requires { (held_of (stand_of body.now self.place) self.inner ≡ true) × (read_of body.now self.place ≡ Ok command) }
        ensures { result ≡ ran_of body.now self }
    {
        Stepped {
            run: self.moved(command),
            answer: Ok(Some(perform_at(body, command, self.settings))),
        }
    }

    // An unsound run stays as it is.
    fn unsound(self) -> Stepped
        ensures { result ≡ unsound_of self }
    {
        Stepped {
            run: self,
            answer: Err(Refusal::Unsound),
        }
    }

    // One step, with the body at the front of this room: the next run with the answer; 16 for an unsound run. The command is read as
    // soundness is tested, and not again. `sound` makes the same tests: with one function for both a step costs up to 5 % more.
    pub fn step(self, room: &[u8]) -> Stepped
        ensures { result ≡ step_of room.now self }
    {
        if !self.settings.sound() {
            return self.unsound();
        }
        if self.len == 0 {
            if !rests(self.place, self.inner) {
                return self.unsound();
            }
            return Stepped {
                run: self,
                answer: Ok(None),
            };
        }
        if !filled(room, self.len) {
            return self.unsound();
        }
        let body = &room[..self.len];
        let Some(found) = find(body, self.place) else {
            return self.unsound();
        };
        if !held(found.standing, self.inner) {
            return self.unsound();
        }
        self.run(body, found.command)
    }
}
