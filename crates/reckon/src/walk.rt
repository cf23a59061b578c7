// A body judged and reckoned in one walk (S22 to S24): a loop is reckoned as it is judged, and read once more where it
// changes pace or scans (S27).
ghost use Rattle.std.specs.Prelude.{◌≡◌};
ghost use Rattle.program.specs.Command.{read_of};
ghost use Rattle.loops.specs.Token.{role_of, get};
ghost use Rattle.judge.specs.Verdict.{begun, front_of};
ghost use Rattle.loops.specs.declared.Flow.TheVariants.{Within};
ghost use Rattle.loops.specs.declared.Role.TheVariants.{Close};
ghost use Rattle.reckon.specs.Forecast.{foretold_of, walked_of};
ghost use Rattle.reckon.specs.Reckon.{closed_of, closes_of, taken_of, summed_of, Passed, Passing};

use crate::body::Body;
use crate::reckon::{Reckoned, added, later};
use crate::{Foretold, Totals};
use loops::{Flow, Open, Role, role_of, turned};
use perform::Settings;
use program::{Command, Kind, read_command};
use refusal::{Fault, Refusal};

// How far a walk has come: what is reckoned since the last `L` or the start, the settings behind that `L`, and the totals up to it.
#[derive(Clone, Copy)]
pub struct Sums {
    pub at: Reckoned,
    pub entry: Settings,
    pub before: Totals,
}

// `closed`, `closes` and `taken` share a premise. A struct with it as its invariant could be made at an `E` alone, so `taken` would keep
// the premise, and the other two would take the struct apart.

// A loop closed behind its first pass: the totals before it, that pass, and what each later one costs.
fn closed(body: &Body<'_>, outer: Open, sums: Sums) -> Totals
    requires { Passed body.now (Within outer) sums.at sums.entry }
    ensures { result ≡ closed_of body.now outer sums.at sums.entry sums.before }
{
    let start = Reckoned {
        place: outer.behind,
        settings: sums.entry,
        totals: Totals::none(),
    };
    let again = later(body, start, sums.at);
    let read = sums.before.plus(sums.at.totals);
    read.plus(again.times((outer.number - 1) as u8))
}

// An `E`, which closes the open loop.
fn closes(body: &Body<'_>, flow: Flow, sums: Sums) -> Sums
    requires { Passed body.now flow sums.at sums.entry }
    ensures { result ≡ closes_of body.now flow sums.at sums.entry sums.before }
{
    match flow {
        Flow::Free | Flow::Ended => sums,
        Flow::Within(open) => Sums {
            at: Reckoned {
                totals: closed(body, open, sums),
                ..sums.at
            },
            ..sums
        },
    }
}

// What a command of this kind leaves, the sums being reckoned behind it.
fn taken(body: &Body<'_>, kind: Kind, flow: Flow, sums: Sums) -> Sums
    requires { role_of kind ≡ Close → Passed body.now flow sums.at sums.entry }
    ensures { result ≡ taken_of body.now (role_of kind) flow sums.at sums.entry sums.before }
{
    match role_of(kind) {
        Role::Plain | Role::Forever | Role::Again => sums,
        Role::Repeat => Sums {
            at: Reckoned {
                totals: Totals::none(),
                ..sums.at
            },
            entry: sums.at.settings,
            before: sums.at.totals,
        },
        Role::Close => closes(body, flow, sums),
    }
}

// One command reckoned, where judging stands so.
fn summed(body: &Body<'_>, read: Result<Command, Fault>, flow: Flow, sums: Sums) -> Sums
    requires { (read ≡ read_of body.now sums.at.place) × Passing body.now flow sums }
    ensures { result ≡ summed_of body.now (get body.now sums.at.place) flow sums }
{
    let Ok(command) = read else {
        return sums;
    };
    let here = Sums {
        at: added(body, command, sums.at),
        ..sums
    };
    taken(body, command.kind, flow, here)
}

// What is told where no command is left.
fn told(flow: Flow, sums: Sums) -> Result<Foretold, Fault>
    ensures { result ≡ foretold_of flow sums.at.totals sums.at.settings }
{
    match flow {
        Flow::Free => Ok(Foretold::Ends {
            totals: sums.at.totals,
            pace: sums.at.settings.pace,
            scans: sums.at.settings.scans,
        }),
        Flow::Ended => Ok(Foretold::Endless),
        Flow::Within(open) => Err(Refusal::WrongLoop.at(open.caret)),
    }
}

// What is told of a body's commands, started at these settings. The walk of judge has the same three lines. One walk that lends each
// command to a closure was tried: of any state of the closure "it is not proved that what `summed` requires holds at this call".
pub(crate) fn walk(body: &Body<'_>, settings: Settings) -> Result<Foretold, Fault>
    requires { front_of body.now ≡ begun }
    ensures { result ≡ walked_of body.now settings }
{
    let mut flow = Flow::Free;
    let mut sums = Sums {
        at: Reckoned {
            place: 0,
            settings,
            totals: Totals::none(),
        },
        entry: settings,
        before: Totals::none(),
    };
    // Each round steps by what was read, so there is no list to go over.
    while sums.at.place < body.bytes.len() {
        let read = read_command(body.bytes, sums.at.place);
        let turn = turned(read, sums.at.place, flow)?;
        sums = summed(body, read, flow, sums);
        flow = turn.flow;
    }
    told(flow, sums)
}
