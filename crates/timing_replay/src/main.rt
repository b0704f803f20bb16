// P6: replays recorded answers of the original's timing loop, which stand on standard input: set-ups, runs on
// real and complex samples, resets, and each field of the state after them. Says how many lines were played
// of each kind, and how many differ from what the crates `real_sync` and `complex_sync` compute.
//
// A line has 53 bytes: a letter, then three words of 16 hexadecimal digits, each after a space, and
// a line end. Two f32 stand in one word, the first in its high half; a real sample has zeros in the low
// half, as a sample of the state has.
//
//   v  sps, loop bandwidth, damping        of the next set-up
//   n  maximum deviation, detector gain, kind + 2 detector + 16 number: sets up; kind 1 is complex,
//      detector 1 Mueller-Müller, the number the one it is refused with, or 0
//   z  resets
//   i  six f32, which go behind the input so far
//   r  f32 of input + 2^32 f32 of output, consumed + 2^32 produced, number: runs
//   o  the next six f32 of the output, with the filling behind what was lent
//   a  sps, loop bandwidth, damping        of the state: the readings
//   b  maximum deviation, detector gain, detector
//   k  kp, ki, lim
//   s  position, fraction, spacing
//   h  the history's three samples
//   y  previous strobe, previous decision, middle
//   f  integrator, middle held + 2 started, next strobe
#![tactic(auto)]

mod calls;
mod complex;
mod counts;
mod real;
mod timed;

use calls::Calls;

fn main(rt: HostRuntime) {
    replay::replay(&rt, Calls::new(), &counts::KINDS);
}
