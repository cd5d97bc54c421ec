// Sequences of calls: specs/ says what they accept and apply, and proofs/ what holds of all of them. There is no code.
#![tactic(auto)]
