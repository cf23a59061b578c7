// The rule of loops: L25 to L27, and N26 but for an `L` that is never closed.
ghost use Rattle.std.specs.Prelude.{◌≡◌, [], ◌∷◌};
ghost use Rattle.loops.specs.Token.{role_of};
ghost use Rattle.loops.specs.Structure.{structure_of};
ghost use Rattle.loops.specs.Flow.{room_of, opens_of, rule_of};

use crate::{Flow, Open, Role};
use program::Kind;

// What a command does to the structure of a program.
pub fn role(kind: Kind) -> Role
    ensures { result ≡ role_of kind }
{
    match kind {
        Kind::L => Role::Repeat,
        Kind::E => Role::Close,
        Kind::F => Role::Forever,
        Kind::R => Role::Again,
        _ => Role::Plain,
    }
}

// A command outside loops; `here` is the loop that it would open.
fn outside(role: Role, here: Open) -> Option<Flow>
    ensures { result ≡ rule_of (structure_of role 1 here []) }
{
    match role {
        Role::Plain => Some(Flow::Free),
        Role::Repeat => Some(Flow::Within(here)),
        Role::Close | Role::Forever => None,
        Role::Again => Some(Flow::Ended),
    }
}

// A command within the loop `outer`.
fn within(role: Role, here: Open, outer: Open) -> Option<Flow>
    ensures { result ≡ rule_of (structure_of role 0 here (outer ∷ [])) }
{
    match role {
        Role::Plain => Some(Flow::Within(outer)),
        Role::Close => Some(Flow::Free),
        Role::Forever => Some(Flow::Ended),
        Role::Repeat | Role::Again => None,
    }
}

// What the rule says of a command where judging stands: how judging goes on, or that it may not stand there.
pub(crate) fn rule(flow: Flow, role: Role, here: Open) -> Option<Flow>
    ensures { result ≡ rule_of (structure_of role (room_of flow) here (opens_of flow)) }
{
    match flow {
        Flow::Free | Flow::Ended => outside(role, here),
        Flow::Within(open) => within(role, here, open),
    }
}
