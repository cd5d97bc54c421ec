// The seven slips that are easily made: proofs/EasySlips.antt has a law for each, which a program that makes the slip breaks. There is no code.
#![tactic(auto)]
