// A session's file lent in pieces: specs/ says how steps follow one another and what a record is refused for, and proofs/ that they list one text, however the file is cut. There is no code.
#![tactic(auto)]
