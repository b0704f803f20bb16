// How the symbols of a turned recording read (Q13): what that means is in specs/, that it holds in proofs/.
// There is no code.
#![tactic(auto)]
