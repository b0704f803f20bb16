// Operations on one number (N): flushing, from num.rs; and floor, narrowing, widening, limits,
// finiteness and the sign, which are added.
#![tactic(auto)]

mod denormal;
mod fields;
mod narrowing;
mod range;
mod signs;
mod whole;
mod widening;

pub use denormal::{Flushed, TINY_F32, flush_denormal};
pub use narrowing::narrow;
pub use range::{is_finite, limit};
pub use signs::sign;
pub use whole::floor;
pub use widening::widen;
