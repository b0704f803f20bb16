// The clock's steps, from fallback/symbol_sync.rs: where the midpoint sample (middle) lies, the clock after a
// strobe, what a run has consumed. Nothing here requires anything but a clock that a state has given.
#![tactic(auto)]

mod steps;

pub use steps::{Place, advance, can_strobe, consumed, fresh_clock, lacks, mid_left, mid_position};
