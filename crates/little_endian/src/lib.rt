// Little-endian bytes: the number that bytes spell, an f64 and complex f32 samples read from them, and samples
// written to them. Nothing here requires anything.
#![tactic(auto)]

mod bytes;
mod samples;

pub use bytes::{f64_at, little_endian};
pub use samples::{read_samples, write_samples};
