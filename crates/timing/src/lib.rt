// What the timing loop is made of, from kernels/symbol_sync.rs: the set-up's values and gains, the clock, the state,
// and what the loop asks of a sample type, with its two instances.
#![tactic(auto)]

mod clock;
pub mod complex;
mod params;
mod part;
pub mod real;
mod sample;
mod setup;
mod state;

pub use clock::{Clock, HIST, next_strobe, settle};
pub use params::{Params, Ted, TimingValues};
pub use sample::{Sample, Window};
pub use setup::tune;
pub use state::{Hist, SymbolSyncState, Track};
