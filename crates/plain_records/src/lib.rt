// Two records of a receiver as plain records, whose symbol count has 64 bits or 32: which receiver the first one stands
// for, and the converter between the two, which `crates/train_receiver` exports.
#![tactic(auto)]

mod convert;
mod record;

pub use convert::{ReceiverNarrowed, narrow, widen};
pub use record::{Receiver32, Receiver64};
