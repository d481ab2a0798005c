// The library for C and Rust programs: what include/pikowhanu.h declares. Each call answers 0, or 01's number of the refusal and leaves what it was lent untouched.
#![tactic(auto)]

mod solvers;
mod tracking;
