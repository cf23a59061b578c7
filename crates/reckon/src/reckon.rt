// The forecast: rules S22 to S26 and S32, with each loop read twice at most (S27), and N17.
ghost use Rattle.std.specs.Prelude.{◌≡◌, Ok};
ghost use Rattle.program.specs.Command.{read_of};
ghost use Rattle.loops.specs.Token.{get};
ghost use Rattle.loops.specs.Token.{role_of};
ghost use Rattle.reckon.specs.Forecast.{forecast_of};
ghost use Rattle.reckon.specs.Reckon.{added_of, plain_of, pass_of, alike_of, later_of};

use crate::Totals;
use crate::body::Body;
use crate::walk::walk;
use judge::front;
use loops::{Role, role_of};
use perform::Settings;
use program::{Command, Kind, read_command};
use refusal::{Fault, Refusal};

// How far a program is reckoned: the place, the settings there, and the totals so far.
#[derive(Clone, Copy)]
pub struct Reckoned {
    pub place: usize,
    pub settings: Settings,
    pub totals: Totals,
}

// The command at the place, added. Two walks call this, and without the hint it is a call in both, which costs more with each command.
#[inline(always)]
pub(crate) fn added(body: &Body<'_>, command: Command, at: Reckoned) -> Reckoned
    requires { read_of body.now at.place ≡ Ok command }
    ensures { result ≡ added_of (get body.now at.place) at }
{
    let performed = body.perform(command, at.settings);
    Reckoned {
        place: command.next,
        settings: at.settings.behind(command.kind, command.number as u8),
        totals: at.totals.plus(Totals::cost(performed)),
    }
}

// Whether a command of this kind leaves the course of a program as it is.
fn plain(kind: Kind) -> bool
    ensures { result ≡ plain_of (role_of kind) }
{
    matches!(role_of(kind), Role::Plain)
}

// One pass of a loop: its plain commands from a place on, and the command behind them. It judges nothing, so it is no part of a walk.
fn pass(body: &Body<'_>, from: Reckoned) -> Reckoned
    ensures { result ≡ pass_of body.now from }
{
    let mut at = from;
    while let Ok(command) = read_command(body.bytes, at.place) {
        at = added(body, command, at);
        if !plain(command.kind) {
            return at;
        }
    }
    at
}

// Whether two settings agree in pace and scans per shift, which is all that a price goes by: no `==`, as the other three may differ.
fn alike(one: Settings, other: Settings) -> bool
    ensures { result ≡ alike_of one other }
{
    one.pace == other.pace && one.scans == other.scans
}

// What each later pass of a loop costs: as much as the first where that left pace and scans as they were, else it is read again.
pub(crate) fn later(body: &Body<'_>, start: Reckoned, first: Reckoned) -> Totals
    requires { first ≡ pass_of body.now start }
    ensures { result ≡ later_of body.now start }
{
    if alike(start.settings, first.settings) {
        return first.totals;
    }
    let second = Reckoned {
        settings: first.settings,
        ..start
    };
    pass(body, second).totals
}

// What is told of a program beforehand: the totals until it is Ready, and the pace and the scans that it leaves; or that it never is.
// No `Option`: a `None` would not say that the program never ends.
#[derive(Clone, Copy)]
pub enum Foretold {
    Ends { totals: Totals, pace: u8, scans: u8 },
    Endless,
}

// How long a body will run when it is started at this pace and this many scans a shift, and what it leaves of both; or why it is refused,
// and where. The two are numbers, and no `Settings`, because the rules (S22) and `yd_forecast` give two numbers.
pub fn forecast(body: &[u8], pace: u8, scans: u8) -> Result<Foretold, Fault>
    ensures { result ≡ forecast_of body.now pace scans }
{
    let settings = Settings {
        pace,
        scans,
        sink: 0,
        dim: 16,
        bright: 0,
    };
    if !settings.sound() {
        return Err(Refusal::WrongStart.at(0));
    }
    front(body)?;
    walk(&Body::new(body), settings)
}
