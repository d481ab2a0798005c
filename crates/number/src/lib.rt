// Numbers and times: what the tracker does with one or two of them, each function equal to a definition of specs/.
#![tactic(auto)]

pub mod float;
pub mod time;
