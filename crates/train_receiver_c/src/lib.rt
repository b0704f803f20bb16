// The static library: the C names of the functions of `train_receiver`, each with the same contract. The archive is
// written as libtrain_receiver.a; bindings/ declares it for C and for Rust. There is no other code here.
#![tactic(auto)]

mod carrier_loop;
mod complex_timing;
mod convert;
mod real_timing;
mod whole;
