// The order tape: the receiver driven by commands of one byte with their operands (O1 to O9). `step` carries out the
// command at the front of some bytes, or says how many bytes its next field still wants. Nothing here requires anything
// but `Given` of a desk. What a whole tape comes to is in `whole_tapes`.
#![tactic(auto)]

mod answer;
mod command;
mod desk;
mod fields;
mod steps;

pub use answer::{Carried, Step, Stop};
pub use desk::Desk;
pub use steps::step;
