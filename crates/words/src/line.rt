// A body that was judged (L29) or forecast (S22 to S25, S32).
ghost use Rattle.std.specs.Prelude.{◌≡◌, [], ◌∷◌};
ghost use Rattle.reckon.specs.Forecast.{told_of};
ghost use Rattle.refusal.specs.Refusal.{number_of};
ghost use Rattle.words.specs.Words.{result_of, words_of};
ghost use Rattle.words.specs.Told.{answer_row, first_or, told_in, judged_of, foretold_result};

use crate::laying::lay;
use crate::results::result;
use judge::{Ending, Verdict};
use reckon::Foretold;
use refusal::Fault;

// The result of a call that a body's fault refuses: the number for no, and the place.
fn faulted(fault: Fault) -> u32
    ensures { result ≡ result_of (number_of fault.refusal) fault.place }
{
    result(fault.refusal.number(), fault.place)
}

// Whether a body is an accepted program, and whether it is endless.
pub fn tell_verdict(verdict: Verdict) -> u32
    ensures { result ≡ judged_of verdict }
{
    match verdict {
        Ok(Ending::Finite) => result(0, 0),
        Ok(Ending::Endless) => result(0, 1),
        Err(fault) => faulted(fault),
    }
}

// How long a body runs, and the pace and the scans that it leaves: six words.
pub fn tell_forecast(foretold: Result<Foretold, Fault>, answer: &mut [u8]) -> u32
    ensures result { result ≡ first_or (answer_row 24 answer.old ∷ []) (foretold_result foretold) }
    ensures told { answer.new ≡ told_in 24 (words_of (told_of foretold).values) answer.old }
{
    if answer.len() < 24 {
        return 252;
    }
    match foretold {
        Ok(
            Foretold::Ends {
                totals,
                pace,
                scans,
            },
        ) => {
            lay(
                &[
                    0,
                    totals.steps.0,
                    totals.scans.0,
                    totals.millis.0,
                    pace as u64,
                    scans as u64,
                ],
                answer,
            );
            result(0, 0)
        }
        Ok(Foretold::Endless) => {
            lay(&[1, 0, 0, 0, 0, 0], answer);
            result(0, 0)
        }
        Err(fault) => faulted(fault),
    }
}
