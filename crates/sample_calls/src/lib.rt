// The sample calls of the train report receiver: symbol timing makes strobes of the input, and the carrier
// loop makes symbols of the strobes. `run` takes and returns the receiver by value, `receive` takes one that
// is lent. Nothing here requires anything but `Given` of a receiver.
#![tactic(auto)]

mod call;

pub use call::{Ran, receive, run};
