// Rules that ask for cells are a language of definitions: specs/ has them and proofs/ their laws. There is no code.
#![tactic(auto)]
