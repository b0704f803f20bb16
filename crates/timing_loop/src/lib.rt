// Symbol timing recovery over any sample type: one interpolated sample per symbol (T).
// From kernels/symbol_sync.rs and fallback/symbol_sync.rs. States go by value.
#![tactic(auto)]

mod line;
mod loops;
mod state;

pub use loops::{Recovered, recover};
pub use state::{reset, set_up};
