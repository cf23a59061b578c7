#![tactic(auto)]

// The forecast of a program (S22), and the pace and the scans that it leaves, which the next forecast needs (S32).
// No call has a `requires`; each answers for any bytes, pace and scans.
//   body     a body, each of whose texts is measured to the end     S15
//   reckon   one command added, a loop's passes, and the forecast   S22, S23, S25, S27, N17
//   walk     a body judged and reckoned in one walk                 S22 to S24, S27, S32
// specs/Forecast says what a forecast is by the steps of `machine`, and specs/Reckon how the code comes to it.
mod body;
mod reckon;
mod walk;

pub use reckon::{Foretold, forecast};
pub use totals::Totals;
