// Laws of IEEE 754 arithmetic that every crate above cites, over the kit's model `lib.Ieee`:
// see specs/ and proofs/. There is no code.
#![tactic(auto)]
