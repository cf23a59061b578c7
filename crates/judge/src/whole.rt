// A body judged: rule L29, in the order of N0.
ghost use Rattle.std.specs.Prelude.{◌≡◌};
ghost use Rattle.judge.specs.Verdict.{judge_of};

use crate::Verdict;
use crate::begin::front;
use crate::walk::walk;

// Whether a body is a program, and endless; or the first refusal in N0's order. It looks for no place: the one that
// the walk gets is after the last command, where none stands. As an `Option` the place would be asked at each command.
pub fn judge(body: &[u8]) -> Verdict
    ensures { result ≡ judge_of body.now }
{
    front(body)?;
    Ok(walk(body, body.len())?.ending)
}
