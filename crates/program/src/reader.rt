// One command at a place of a body: its kind, number as written, text place and length and the place after it (L2, L3),
// or the refusal 22 to 25 and its place (N22 to N25).
ghost use Rattle.std.specs.Prelude.{◌≡◌, ◌≤◌, drop};
ghost use Rattle.params.specs.Bytes.{param_of};
ghost use Rattle.program.specs.Command.{parameter_of, command_of, read_of};

use crate::table::row;
use crate::{Command, Form, Kind};
use params::{CARET, Parameter, byte_at, read_number, read_text};
use refusal::{Fault, Refusal};

// What follows the letters of a command, read by its form.
fn parameter(body: &[u8], place: usize, from: usize, form: Form) -> Result<Parameter, Fault>
    ensures { result ≡ parameter_of form place from (param_of (drop from body.now)) }
{
    match form {
        Form::Text => read_text(body, from),
        Form::Bare if byte_at(body, from) == CARET => Ok(Parameter {
            next: from,
            number: 0,
        }),
        Form::Bare => Err(Refusal::WrongByte.at(from)),
        Form::Number(range) => read_number(body, place, from, range),
    }
}

// The command that a kind and its parameter make.
fn command(kind: Kind, form: Form, from: usize, read: Parameter) -> Command
    requires { from ≤ read.next }
    ensures { result ≡ command_of kind form from read }
{
    let Parameter { next, number } = read;
    let (text, len) = match form {
        Form::Text => (from, next - from),
        Form::Bare | Form::Number(_) => (0, 0),
    };
    Command {
        next,
        number,
        text,
        len,
        kind,
    }
}

// The command whose caret stands at a place, or why none does.
pub fn read_command(body: &[u8], place: usize) -> Result<Command, Fault>
    ensures { result ≡ read_of body.now place }
{
    let wrong = Refusal::NoCommand.at(place);
    if body.get(place) != Some(&CARET) {
        return Err(wrong);
    }
    let x = byte_at(body, place + 1);
    let y = byte_at(body, place + 2);
    let Some(found) = row(x, y) else {
        return Err(wrong);
    };
    let from = place + found.letters;
    let read = parameter(body, place, from, found.form)?;
    Ok(command(found.kind, found.form, from, read))
}
