// Groups compose: what a group's own answer says of the whole table. Definitions in specs/, laws in proofs/; there is no code here.
#![tactic(auto)]
