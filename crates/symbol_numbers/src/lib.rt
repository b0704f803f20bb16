// Symbol numbers, which the receiver adds to the original.
#![tactic(auto)]

mod symbol;

pub use symbol::{is_none, is_silent, symbol_number};
