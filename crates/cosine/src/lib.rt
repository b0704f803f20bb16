// The cosine table as a definition, its rules, and that each entry is the f32 nearest to the true cosine: see
// specs/ and proofs/. There is no code.
#![tactic(auto)]
