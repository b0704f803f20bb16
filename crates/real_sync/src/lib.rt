// Symbol timing recovery of real samples: `timing_loop` at f32, whose runs refuse nothing. States go by value, and
// `symbol_sync` takes one that is lent.
#![tactic(auto)]

mod loops;

pub use loops::{Ran, SymbolSyncState, run, symbol_sync};
pub use timing_loop::{reset, set_up};
