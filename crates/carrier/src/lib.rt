// The carrier loop but for its run over slices, from kernels/costas.rs and fallback/costas.rs: state, set-up,
// reset, setters and readings, the loop filter, and one step. Nothing here requires anything but `Given` of a
// state.
#![tactic(auto)]

mod filter;
mod params;
mod state;
mod symbol;

pub use constellations::CostasConstellation;
pub use detectors::{Lock, derotate};
pub use filter::Nco;
pub use params::{CarrierValues, Params};
pub use state::{CostasState, number_of, reset, set_frequency, set_phase, set_up};
pub use symbol::{Track, step};
