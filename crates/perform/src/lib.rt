#![tactic(auto)]

// One command performed: the settings after it, and what the step answers.
//   settings   what a sign is set to, and how a command changes it     S13, R3
//   price      what a command answers at given settings                S1 to S5, S17 to S21
mod price;
mod settings;

pub use price::{Performed, perform, perform_at};
pub use settings::Settings;
