// The least total of a square: the run of `hungarian_square` on whole numbers keeps potentials; the laws stand in proofs/; there is no code here.
#![tactic(auto)]
