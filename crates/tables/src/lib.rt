// The tables of the original's module `tables` that the oscillator reads.
#![tactic(auto)]

mod cosines;

pub use cosines::cos_f32_table;
