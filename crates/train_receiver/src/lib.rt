// The receiver, timing alone and the carrier alone for programs in C and Rust: what `train_receiver_c` puts
// into the archive under C names. An exported type holds no enum, so a state is a plain record in which numbers stand for the
// enums (L1); each call turns the record into the state, and the state into a record again. bindings/
// declares all of this for C and for Rust.
//
// The functions of real and of complex samples are twins, since each has a name in C.
//
// Set-up, reset, setters and readings take and give records by value; a sample call replaces a record that
// the caller lends. Nothing here requires anything but `Given` of a record: that a set-up, a reset, a setter
// or a call of this library has given it, or that it is converted from such a one (A9).
#![tactic(auto)]

mod carrier_loop;
mod complex_timing;
mod convert;
mod real_timing;
mod whole;

pub use carrier_loop::{
    CarrierReadings, trr_carrier_readings, trr_carrier_reset, trr_carrier_run,
    trr_carrier_set_frequency, trr_carrier_set_phase, trr_carrier_set_up,
};
pub use complex_timing::{
    trr_complex_readings, trr_complex_reset, trr_complex_run, trr_complex_set_up,
};
pub use convert::{trr_receiver_narrow, trr_receiver_widen};
pub use real_timing::{trr_real_readings, trr_real_reset, trr_real_run, trr_real_set_up};
pub use whole::{
    ReceiverReadings, trr_receiver_readings, trr_receiver_receive, trr_receiver_reset,
    trr_receiver_set_phase, trr_receiver_set_up, trr_receiver_set_up_unnamed, trr_symbol_number,
};
