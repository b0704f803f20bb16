// What the programs that replay recorded calls of the loops share: the states of both loops as words, and
// these and the answer of a timing run compared with recorded lines. Nothing here requires anything.
#![tactic(auto)]

mod answer;
mod rows;
mod words;

pub use answer::{answer_agrees, progress_agrees};
pub use rows::{carrier_agrees, timing_agrees};
pub use words::{carrier_words, timing_words};
