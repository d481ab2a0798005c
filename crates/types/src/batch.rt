// What a sensor hands in at one time, and the report of what became of it.
use detections::Detection;
use settings::frame::FrameName;

// The count may be anything: one over 64 is refused before all else.
#[derive(Clone, Copy)]
pub struct ObservationBatch3D {
    pub sensor_id: u32,
    pub sequence: u64,
    pub timestamp: i64,
    pub frame_id: FrameName,
    pub observations: [Detection; super::MAX_OBSERVATIONS],
    pub count: usize,
}

// What became of a detection; the numbers are those of the C record.
#[derive(Clone, Copy)]
pub enum ObservationOutcome {
    Updated = 1,
    Spawned = 2,
    Unmatched = 0,
}

// What the report says of one detection. The outcome says which of `track_id` and `cost` is there; they are fields of their own, no parts of the outcome, as in the Rust's types.rs, from which 01 takes the record, and in the C record.
#[derive(Clone, Copy)]
pub struct ObservationAssociation {
    pub observation_index: usize,
    pub track_id: Option<u64>,
    pub outcome: ObservationOutcome,
    // The cost of the pair, with the prior's penalty, where it was paired.
    pub cost: Option<f64>,
}

// One association for each detection, in the batch's order, and the tracks that none was paired with, in the table's.
#[derive(Clone, Copy)]
pub struct BatchReport3D {
    pub timestamp: i64,
    pub sensor_id: u32,
    pub associations: [ObservationAssociation; super::MAX_OBSERVATIONS],
    pub association_count: usize,
    pub unmatched_track_ids: [u64; super::MAX_TRACKS],
    pub unmatched_track_count: usize,
}
