// The root and the assignment as C programs call them: 0 or 01's number of the refusal is answered, and what is lent is written or left untouched.
#![tactic(auto)]

pub mod mates;
pub mod root;
