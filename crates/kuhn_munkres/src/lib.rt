// The definition of the assignment and its laws stand in specs/ and proofs/; there is no code here.
#![tactic(auto)]
