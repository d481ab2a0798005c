// The records of the tracker: tracks, batches, reports, the whole state by value, and the refusals of its calls.
#![tactic(auto)]

pub mod batch;
pub mod refusal;
pub mod track;
pub mod tracker;

// 01: "Limits: 64 tracks, 64 detections, 64 candidates, 32 sensors with a sequence".
pub const MAX_TRACKS: usize = 64;

pub const MAX_OBSERVATIONS: usize = 64;

pub const MAX_CANDIDATES: usize = 64;

pub const MAX_SEQUENCES: usize = 32;

// 01: "16 contributing sensors"; the track's own list has as many places.
pub const MAX_CONTRIBUTING_SENSORS: usize = 16;
