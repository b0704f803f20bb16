// How a recording is cut into blocks does not show (B): what that means is in specs/,
// that it holds in proofs/. There is no code.
#![tactic(auto)]
