// Integers, sums of them, and the doubles that are whole: definitions in specs/, laws in proofs/; there is no code here.
#![tactic(auto)]
