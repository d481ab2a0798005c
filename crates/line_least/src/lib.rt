// The least total in the meaning of a line: the statement stands in specs/, its proof in proofs/; there is no code here.
#![tactic(auto)]
