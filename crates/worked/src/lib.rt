// The cases that 01 marks as proved, as one table. No code: the table is in specs/Table.antt, its proof in proofs/Proved.antt.
#![tactic(auto)]
