// The checks that a set-up makes of its values: the range tests, and the table of rows whose first one
// that is not passed decides. Nothing here requires anything.
#![tactic(auto)]

mod range;

pub use range::{above_zero, within};
