// Calls that the kernel runs, and the demands applied to them: proofs/Applied.antt. There is no code here.

#![tactic(auto)]
