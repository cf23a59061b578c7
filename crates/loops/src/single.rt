// One command judged among those before it, in the order of N0: 27, what reading refuses (22 to 25), then 26.
ghost use Rattle.std.specs.Prelude.{◌≡◌};
ghost use Rattle.loops.specs.Token.{role_of};
ghost use Rattle.loops.specs.Structure.{moved, structure_of};
ghost use Rattle.loops.specs.Flow.{room_of, opens_of, turn_of, here_of, turned_of};

use crate::structure::{role, rule};
use crate::{Flow, Open, Turn};
use program::Command;
use refusal::{Fault, Refusal};

// A good command at a place, held to the rule of loops.
fn structured(command: Command, place: usize, flow: Flow) -> Result<Turn, Fault>
    ensures { result ≡ turn_of (moved place command.next (structure_of (role_of command.kind) (room_of flow) (here_of place command) (opens_of flow))) }
{
    let next = command.next;
    let here = Open {
        caret: place,
        behind: next,
        number: command.number,
    };
    let Some(flow) = rule(flow, role(command.kind), here) else {
        return Err(Refusal::WrongLoop.at(place));
    };
    Ok(Turn { next, flow })
}

// What was read at a place, where judging stands so.
pub fn turned(read: Result<Command, Fault>, place: usize, flow: Flow) -> Result<Turn, Fault>
    ensures { result ≡ turned_of read place flow }
{
    if matches!(flow, Flow::Ended) {
        return Err(Refusal::BehindEnd.at(place));
    }
    let command = read?;
    structured(command, place, flow)
}
