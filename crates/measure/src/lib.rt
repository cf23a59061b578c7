#![tactic(auto)]

// A text measured in columns. No call has a `requires`; each answers for any bytes and any widths.
//   fonts      the font in force, and which bytes of a text are shown                              S15
//   width      the two widths of a text, alone or in a body; whether it fits; where it starts      S15 to S17
// The definitions that the contracts cite stand in specs/Width, that of a private contract in specs/Capped.
mod fonts;
mod width;

pub use width::{COLUMNS, Widths, fits, measure, measure_at, start_column};
