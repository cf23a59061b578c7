// A body's commands walked from the left, once for all that is asked of them: the verdict (L28, L29, in the order of
// N0), and where a place stands and what is read there (R7, R8).
ghost use Rattle.std.specs.Prelude.{◌≡◌, Some, false, []};
ghost use Rattle.program.specs.Command.{read_of};
ghost use Rattle.loops.specs.Token.{tokens_of};
ghost use Rattle.loops.specs.Flow.{ended_of, opens_of};
ghost use Rattle.judge.specs.Verdict.{end_of, commands_of};
ghost use Rattle.judge.specs.Standing.{inside_of, stand_at, placed_of, walked_of};

use crate::{Ending, Found, Standing, Walked};
use loops::{Flow, turned};
use program::{Command, read_command};
use refusal::{Fault, Refusal};

// A place where judging stands so.
fn inside(flow: Flow) -> Standing
    ensures { result ≡ inside_of (opens_of flow) }
{
    match flow {
        Flow::Free | Flow::Ended => Standing::Outside,
        Flow::Within(open) => Standing::Inside(open.behind, open.number),
    }
}

// What was read at the place, where judging stands so, if it is a command.
fn placed(flow: Flow, read: Result<Command, Fault>) -> Option<Found>
    ensures { result ≡ placed_of (Some (inside_of (opens_of flow))) read }
{
    let standing = inside(flow);
    let command = read.ok()?;
    Some(Found { standing, command })
}

// Where no command is left: an unclosed `L` is 26 at that `L`.
fn over(flow: Flow, found: Option<Found>) -> Result<Walked, Fault>
    ensures { result ≡ walked_of (end_of (ended_of flow) (opens_of flow)) found }
{
    match flow {
        Flow::Free => Ok(Walked {
            ending: Ending::Finite,
            found,
        }),
        Flow::Ended => Ok(Walked {
            ending: Ending::Endless,
            found,
        }),
        Flow::Within(open) => Err(Refusal::WrongLoop.at(open.caret)),
    }
}

// The commands of a body, from its first byte to its end, and the place among them with what is read at it. The loop steps by what
// was read, so there is no list to go over. The walk of reckon has a loop of its own: the two have in common that a command is read,
// judged and passed, which is three lines. One walk with a closure was tried in reckon, where "it is not
// proved that what `summed` requires holds at this call", whatever the closure has kept.
pub(crate) fn walk(body: &[u8], place: usize) -> Result<Walked, Fault>
    ensures { result ≡ walked_of (commands_of body.now) (placed_of (stand_at place (tokens_of body.now 0) 1 0 false []) (read_of body.now place)) }
{
    let mut at: usize = 0;
    let mut flow = Flow::Free;
    let mut found = None;
    while at < body.len() {
        let read = read_command(body, at);
        if at == place {
            found = placed(flow, read);
        }
        let turn = turned(read, at, flow)?;
        at = turn.next;
        flow = turn.flow;
    }
    over(flow, found)
}
