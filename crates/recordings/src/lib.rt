// Recordings as bytes and symbols as text: complex f32 samples from little-endian bytes and back, the digits
// of symbols, laid out in lines, and a number in thousandths; how many symbols read none; whether there is
// something to receive in a recording; and what a receiver is set up with for the sample recording. Nothing
// here requires anything.
#![tactic(auto)]

mod content;
mod decimals;
mod defaults;
mod digits;
mod lines;
mod none;
mod text;

pub use content::{Content, content_with};
pub use decimals::thousandths;
pub use defaults::{carrier_defaults, timing_defaults};
pub use digits::write_digits;
pub use lines::{WIDTH, write_lines};
pub use little_endian::{read_samples, write_samples};
pub use none::none_with;
