// The constellations, from kernels/costas.rs and reference/costas.rs: their names, the octant of a sample,
// and the 8-PSK point that it is compared with. Nothing here requires anything.
#![tactic(auto)]

mod kinds;
mod octants;

pub use kinds::CostasConstellation;
pub use octants::{decide, octant, size};
