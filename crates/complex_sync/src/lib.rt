// Symbol timing recovery of complex samples, which lie in slices of f32, real part first: `timing_loop` at that sample
// type, and a run that refuses an odd buffer. States go by value, and `symbol_sync` takes one that is lent.
#![tactic(auto)]

mod loops;

pub use loops::{Ran, SymbolSyncState, run, symbol_sync};
pub use timing_loop::{recover, reset, set_up};
