// The least total of the assignment: the statement stands in specs/, its proof in proofs/; there is no code here.
#![tactic(auto)]
