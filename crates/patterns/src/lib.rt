// Floats of both formats, generic code's bound for them, and their bit patterns.
#![tactic(auto)]

mod binary;
mod bits;

pub use binary::{Binary, Pattern};
pub use bits::{bits_of, of_bits};
