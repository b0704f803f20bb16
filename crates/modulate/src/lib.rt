// The phase step of the oscillator, from fallback/modulate.rs and fallback/costas.rs.
#![tactic(auto)]

mod modulate;
mod single;

pub use modulate::phase_step;
pub use single::{TURN, phase_step_f32};
