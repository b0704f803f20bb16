// The train report receiver, added to the original: both loops, with a symbol count. Its sample calls stand in
// `sample_calls`. Nothing here requires anything but `Given` of a receiver.
#![tactic(auto)]

mod loops;
mod record;

pub use carrier::CarrierValues;
pub use loops::{join, put_carrier, put_timing, set_up_carrier, set_up_timing};
pub use receiver_records::Receiver64 as Receiver;
pub use record::{
    constellation, count, frequency, lock_level, locked, next_strobe, phase, reset, set_phase,
    set_up, set_up_unnamed, sps_estimate,
};
pub use symbol_numbers::symbol_number;
pub use timing::TimingValues;
