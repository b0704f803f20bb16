// What the programs that replay recorded answers share beside the lines themselves: reading into a buffer, playing
// line after line, the tally and writing it; and for recorded calls, which are played in order on one state, the
// buffers.
#![tactic(auto)]

pub mod buffers;
mod input;
mod kinds;
mod lines;
mod report;
pub mod tally;

// A proved loop has to end, and nothing says that the input does. So many lines are read at most.
pub const LINES: u64 = 0x400_0000;

pub use input::read_full;
pub use kinds::{Kind, Kinds};
pub use lines::{Player, play_lines, replay};
pub use report::{differs, malformed};
