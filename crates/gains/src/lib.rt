// What the gains of both loops share, from kernels/symbol_sync.rs and kernels/costas.rs: the quotients of
// a proportional-integral loop filter for a bandwidth and a damping, before a detector's gain divides them.
#![tactic(auto)]

mod quotients;

pub use quotients::{Gains, inner_gains};
