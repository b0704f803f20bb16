// The lines of recorded answers: reading one, its words as floats, and comparing them with what was computed; and
// comparing two slices.
#![tactic(auto)]

mod compare;
mod hex;
mod line;
mod slices;
mod words;

pub use compare::{alike, same};
pub use line::{Operation, damaged, read_line, read_operation};
pub use patterns::{bits_of, of_bits};
pub use slices::{same_bytes, same_floats};
pub use words::{HIGH, floats_agree, high, low, word, words_agree};
