// A sign that stepped: the seven values of S1, or Idle (S12).
ghost use Rattle.std.specs.Prelude.{◌≡◌, [], ◌∷◌};
ghost use Rattle.program.specs.Answers.{kind_of};
ghost use Rattle.machine.specs.Step.{values_of, told_of};
ghost use Rattle.words.specs.Words.{words_of};
ghost use Rattle.words.specs.Told.{answer_row, first_or, told_in};

use crate::laying::lay;
use perform::Performed;
use program::Kind;
use refusal::Refusal;

// A command's kind as a number, in the order of the table in program/specs/Table.
fn kind_code(kind: Kind) -> u64
    ensures { result ≡ kind_of kind }
{
    kind as u64
}

// Writes what a command answered: seven words.
fn lay_performed(performed: Performed, answer: &mut [u8])
    ensures { answer.new ≡ told_in 28 (words_of (values_of performed)) answer.old }
{
    lay(
        &[
            kind_code(performed.kind),
            performed.number as u64,
            performed.text as u64,
            performed.len as u64,
            performed.column as u64,
            performed.scans.0,
            performed.millis.0,
        ],
        answer,
    );
}

// What a step answered: seven words, zeros where it is idle.
pub fn tell_stepped(said: Result<Option<Performed>, Refusal>, answer: &mut [u8]) -> u32
    ensures result { result ≡ first_or (answer_row 28 answer.old ∷ []) (told_of said).number }
    ensures told { answer.new ≡ told_in 28 (words_of (told_of said).values) answer.old }
{
    if answer.len() < 28 {
        return 252;
    }
    match said {
        Ok(Some(performed)) => {
            lay_performed(performed, answer);
            0
        }
        Ok(None) => {
            lay(&[0, 0, 0, 0, 0, 0, 0], answer);
            0
        }
        Err(e) => e.number() as u32,
    }
}
