// A batch and its report as a C program holds them. Conversions are functions by name, not `From`: each bears the name of the definition that it equals, which the contracts above cite, and a `from` would say the same and be no plainer;
// a report's takes a number beside it. Arrays are named by `let` before they are parts of a record: the check takes none straight.
#![tactic(auto)]

ghost use Rattle.std.specs.Prelude.{◌≡◌, map};
ghost use Rattle.batch_records.specs.Batches.{detection_of, batch_of, association_to, report_to};

use detections::Detection;
use settings::frame::FrameName;
use types::batch::{BatchReport3D, ObservationAssociation, ObservationBatch3D};

#[repr(C)]
#[derive(Clone, Copy)]
pub struct PkDetection {
    pub position: [f64; 3],
    pub covariance: [f64; 9],
    pub velocity: [f64; 2],
    pub score: f64,
    pub has_velocity: u32,
    pub has_score: u32,
    pub has_class: u32,
    pub class_label: u32,
}

#[repr(C)]
#[derive(Clone, Copy)]
pub struct PkBatch {
    pub sequence: u64,
    pub timestamp: i64,
    pub frame: FrameName,
    pub sensor_id: u32,
    pub reserved: u32,
    pub count: usize,
    pub detections: [PkDetection; 64],
}

#[repr(C)]
#[derive(Clone, Copy)]
pub struct PkAssociation {
    pub observation_index: usize,
    pub track_id: u64,
    pub cost: f64,
    pub outcome: u32,
    pub has_track: u32,
    pub has_cost: u32,
    pub reserved: u32,
}

#[repr(C)]
#[derive(Clone, Copy)]
pub struct PkReport {
    pub code: u32,
    pub sensor_id: u32,
    pub timestamp: i64,
    pub association_count: usize,
    pub unmatched_track_count: usize,
    pub associations: [PkAssociation; 64],
    pub unmatched_track_ids: [u64; 64],
}

#[tactic(auto, unfolding(crate::specs::Batches::detection_of))]
pub fn detection_of(d: PkDetection) -> Detection
    ensures { result ≡ detection_of d }
{
    let position = d.position;
    let covariance = d.covariance;
    Detection {
        position,
        covariance,
        velocity: flags::velocity_of(d.has_velocity, d.velocity[0], d.velocity[1]),
        class_label: flags::flagged(d.has_class, d.class_label),
        score: flags::flagged(d.has_score, d.score),
    }
}

// By index, here and for the associations: with `from_fn` a batch takes 24 KB of stack more, and no longer fits what the header says is enough (tried).
fn detections_of(b: PkBatch) -> [Detection; 64]
    ensures { result ≡ map detection_of b.detections }
{
    let first = b.detections[0];
    let mut out = [detection_of(first); 64];
    for i in 0..64 {
        let x = b.detections[i];
        out[i] = detection_of(x);
    }
    out
}

#[tactic(auto, unfolding(crate::specs::Batches::batch_of))]
pub fn batch_of(b: PkBatch) -> ObservationBatch3D
    ensures { result ≡ batch_of b }
{
    let observations = detections_of(b);
    ObservationBatch3D {
        sensor_id: b.sensor_id,
        sequence: b.sequence,
        timestamp: b.timestamp,
        frame_id: b.frame,
        observations,
        count: b.count,
    }
}

#[tactic(auto, unfolding(crate::specs::Batches::association_to))]
pub fn association_to(a: ObservationAssociation) -> PkAssociation
    ensures { result ≡ association_to a }
{
    let track = a.track_id;
    let cost = a.cost;
    PkAssociation {
        observation_index: a.observation_index,
        track_id: track.unwrap_or(0),
        cost: cost.unwrap_or(0.0),
        outcome: flags::outcome_to(a.outcome),
        has_track: flags::flag(track),
        has_cost: flags::flag(cost),
        reserved: 0,
    }
}

fn associations_to(r: BatchReport3D) -> [PkAssociation; 64]
    ensures { result ≡ map association_to r.associations }
{
    let first = r.associations[0];
    let mut out = [association_to(first); 64];
    for i in 0..64 {
        let x = r.associations[i];
        out[i] = association_to(x);
    }
    out
}

#[tactic(auto, unfolding(crate::specs::Batches::report_to))]
pub fn report_to(code: u32, r: BatchReport3D) -> PkReport
    ensures { result ≡ report_to code r }
{
    let associations = associations_to(r);
    let unmatched_track_ids = r.unmatched_track_ids;
    PkReport {
        code,
        sensor_id: r.sensor_id,
        timestamp: r.timestamp,
        association_count: r.association_count,
        unmatched_track_count: r.unmatched_track_count,
        associations,
        unmatched_track_ids,
    }
}
