// What a line's answer rests on: specs/ lists it as the paper does, and proofs/ has that nothing else counts. There is no code.
#![tactic(auto)]
