// How many strobes a timing run can take: what that means is in specs/, that it holds in proofs/.
// There is no code.
#![tactic(auto)]
