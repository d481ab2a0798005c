// The settings, a track and the whole tracker as C programs hold them: numbers alone, a flag beside each value that may be missing. Every number that a C program can write there
// means something.
#![tactic(auto)]

pub mod config;
pub mod tracker;
pub mod tracks;
