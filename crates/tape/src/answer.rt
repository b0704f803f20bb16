// What comes of a command.
use crate::desk::Desk;
use values::Refusal;

// A command that is carried out: the desk after it, how many bytes it has, and how many bytes of symbols were written.
#[derive(Clone, Copy)]
pub struct Carried {
    pub desk: Desk,
    pub used: usize,
    pub written: usize,
}

// A command that is refused: why, and how many of its bytes were read.
#[derive(Clone, Copy)]
pub struct Stop {
    pub reason: Refusal,
    pub read: usize,
}

// What comes of the bytes of a command that were read so far. Kept as three outcomes: a Result would hold an enum of two,
// and whoever reads a step decides between all three, so it says it no plainer.
#[derive(Clone, Copy)]
pub enum Step {
    // Its next field wants so many bytes more.
    Wants(usize),
    Done(Carried),
    Refused(Stop),
}
