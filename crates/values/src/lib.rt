// A complex sample, the counts of a call and the refusals, from types.rs and timing.rs; and the symbol count, which is
// added to the original.
#![tactic(auto)]

mod counter;
mod counts;
mod error;
mod progress;
mod sample;

pub use counter::counted;
pub use counts::Counts;
pub use error::Refusal;
pub use progress::Progress;
pub use sample::{C32, sample_at, store_sample};
