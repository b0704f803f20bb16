// P6: replays recorded answers of the receiver through the functions that `train_receiver` exports, by the
// codes of bindings/c/train_receiver.h. Says how many lines were played of each kind, and how many differ
// from what the library answers.
//
// The lines are those of the program `receiver_replay`, which describes them. A call has three samples and
// two places at most, so that its input, its strobe buffer and its output are a line each. A set-up is
// compared with those of the loops alone too. Played are the letters v, c, n, u, z, p, j, x, i, r, t, o, m, a,
// b, d, q and e.
#![tactic(auto)]

mod asked;
mod call;
mod calls;
mod convert;
mod counts;
mod held;
mod loops;
mod readings;
mod run;

use calls::Calls;

fn main(rt: HostRuntime) {
    replay::replay(&rt, Calls::new(), &counts::KINDS);
}
