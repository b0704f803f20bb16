// What the carrier loop makes of one symbol, from kernels/costas.rs and fallback/costas.rs: derotation, the
// phase detectors, the lock measure and the lock detector. Nothing here requires anything.
#![tactic(auto)]

mod detection;
mod lock;

pub use detection::{derotate, detector};
pub use lock::{Lock, lock_metric, watch};
