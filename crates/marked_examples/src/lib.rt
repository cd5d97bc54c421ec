// The paper's marked examples: specs/ has them as one table, over the definitions that the contracts cite, and proofs/ that every row holds. There is no code.
#![tactic(auto)]
