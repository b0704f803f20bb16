// The oscillator, from fallback/mix.rs.
#![tactic(auto)]

mod oscillator;

pub use oscillator::{Pair, interp_f32_pair};
