// The twelve marked cases of document 01: the table is specs/Cases.antt, the claim proofs/Marked.antt. There is no code here.

#![tactic(auto)]
