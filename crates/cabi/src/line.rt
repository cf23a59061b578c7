// A body judged (L29) and forecast (S22 to S25, S32), for C.
ghost use Rattle.std.specs.Prelude.{◌≡◌};
ghost use Rattle.judge.specs.Verdict.{judge_of};
ghost use Rattle.words.specs.Told.{judged_of};
ghost use Rattle.cabi.specs.Calls.{forecast_result, forecast_answer};

use judge::judge;
use reckon::forecast;
use words::{tell_forecast, tell_verdict};

// Whether a body is an accepted program, and whether it is endless.
#[unsafe(no_mangle)]
pub extern "C" fn yd_judge(body: &[u8]) -> u32
    ensures { result ≡ judged_of (judge_of body.now) }
{
    tell_verdict(judge(body))
}

// How long a body runs from this pace and scan setting, and what it leaves of both.
#[unsafe(no_mangle)]
pub extern "C" fn yd_forecast(body: &[u8], pace: u8, scans: u8, answer: &mut [u8]) -> u32
    ensures result { result ≡ forecast_result body.now pace scans answer.old }
    ensures told { answer.new ≡ forecast_answer body.now pace scans answer.old }
{
    if answer.len() < 24 {
        return 252;
    }
    tell_forecast(forecast(body, pace, scans), answer)
}
