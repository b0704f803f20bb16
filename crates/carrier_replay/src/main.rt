// P6: replays recorded answers of the original's carrier loop, which stand on standard input: set-ups,
// setters, resets and runs, and each field of the state after them. Says how many lines were played of each
// kind, and how many differ from what the crates `carrier` and `costas` compute.
//
// A line has 53 bytes: a letter, then three words of 16 hexadecimal digits, each after a space, and
// a line end. Two f32 of the input and the output stand in one word, the first in its high half; any
// other f32 stands in the low half of its word, after zeros. A word that is not named is zero.
//
//   v  loop bandwidth, damping, maximum offset   of the next set-up
//   n  constellation, (none), number: sets up; constellation 0 is BPSK, 1 QPSK and 2 8-PSK, the number
//      the one it is refused with, or 0
//   z  resets
//   p  phase: sets it
//   q  frequency: sets it
//   i  six f32, which go behind the input so far
//   r  f32 of input + 2^32 f32 of output, (none), number: runs
//   o  the next six f32 of the output, with the filling behind what was lent
//   a  loop bandwidth, damping, maximum offset   of the state: the readings
//   k  kp, ki, the limit
//   s  phase, frequency as the f32 that it is, the reading of it
//   l  lock level, locked, constellation
#![tactic(auto)]

mod calls;
mod counts;

use calls::Calls;
use carrier::{CarrierValues, CostasConstellation};
use replay::tally::Tally;

// Some state is there before the first line sets up its own. Were it refused, the counts would say that no line was
// played.
fn main(rt: HostRuntime) {
    let v = CarrierValues {
        loop_bw: 0.01,
        damping: 0.7,
        max_offset: 0.1,
    };
    match carrier::set_up(CostasConstellation::Bpsk, v) {
        Ok(s) => {
            replay::replay(&rt, Calls::on(s), &counts::KINDS);
        }
        Err(_) => Tally::new().show(&rt, &counts::KINDS, &Tally::of_damaged()),
    }
}
