// The carrier loop's run, from fallback/costas.rs.
#![tactic(auto)]

mod symbols;

pub use symbols::{Ran, carry, run};
