// The record of a receiver, whose symbol count has 64 bits or 32, and the converter between them. Nothing here speaks
// of another record, or requires anything. Which record the receiver takes is said in `receiver`.
#![tactic(auto)]

mod convert;
mod record;

pub use convert::{LARGEST_32, TooLarge, narrow, widen};
pub use record::{Receiver32, Receiver64, Record};
