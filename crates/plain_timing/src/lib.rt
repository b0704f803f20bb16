// Timing states as plain records, in which a number stands for the detector: what comes in as a record is
// turned into the state, and what goes out into a record again. `crates/train_receiver` exports it.
#![tactic(auto)]

pub mod complex;
mod params;
pub mod real;
mod zeros;

pub use params::{TimingParams, TimingReadings, TimingValues, readings};
