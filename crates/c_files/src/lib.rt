// C's step called over a session's file that is lent in pieces: specs/ says how the calls follow one another, and proofs/ that their texts are the file's listing, however it is cut. There is no code.
#![tactic(auto)]
