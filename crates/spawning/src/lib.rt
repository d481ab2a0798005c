// What a detection that no track takes begins: what is ruled of it, and a new track.
#![tactic(auto)]

pub mod ruling;
pub mod spawn;
