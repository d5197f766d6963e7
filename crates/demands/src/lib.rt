// The three demands as theorems: proofs/Demands.antt. There is no code here.

#![tactic(auto)]
