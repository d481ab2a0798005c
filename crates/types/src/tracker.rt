// The whole state of a tracker, by value: tables are arrays with a count, which may be anything.
ghost use Rattle.std.specs.Prelude.{◌≡◌};
ghost use Rattle.types.specs.Fresh.{blank_track, fresh_of};

use super::track::Track3D;
use detections::pairs::ClassPrior;
use filter::KalmanFilter;
use lifecycle::TrackLifecycle;
use lifecycle::sensors::Sensors;
use settings::Cartesian3DTrackerConfig;

// A detection too near a confirmed track, which may turn out to be a neighbour.
#[repr(C)]
#[derive(Clone, Copy)]
pub struct BirthCandidate {
    pub position: [f64; 3],
    pub last_seen: i64,
    pub sightings: u32,
}

// The sequence number of a sensor's latest batch.
#[repr(C)]
#[derive(Clone, Copy)]
pub struct SensorSequence {
    pub sensor: u32,
    pub sequence: u64,
}

#[derive(Clone, Copy)]
pub struct Cartesian3DTracker {
    pub tracks: [Track3D; super::MAX_TRACKS],
    pub track_count: usize,
    pub next_track_id: u64,
    pub last_time: Option<i64>,
    pub sequences: [SensorSequence; super::MAX_SEQUENCES],
    pub sequence_count: usize,
    pub candidates: [BirthCandidate; super::MAX_CANDIDATES],
    pub candidate_count: usize,
    pub config: Cartesian3DTrackerConfig,
}

// What stands in the places that nothing has taken.
pub fn blank_track() -> Track3D
    ensures { result ≡ blank_track }
{
    let filter = KalmanFilter {
        state: [0.0; 6],
        covariance: [0.0; 36],
    };
    let contributing_sensors = Sensors {
        ids: [0; 16],
        count: 0,
    };
    Track3D {
        id: 0,
        filter,
        lifecycle: TrackLifecycle::new(0),
        class_label: None,
        class_prior: None,
        state_timestamp: 0,
        last_update_sensor: None,
        contributing_sensors,
        updated_this_batch: false,
    }
}

// A tracker that has seen nothing, under settings that it takes as they are.
pub fn fresh(config: Cartesian3DTrackerConfig) -> Cartesian3DTracker
    ensures { result ≡ fresh_of config }
{
    let track = blank_track();
    let entry = SensorSequence {
        sensor: 0,
        sequence: 0,
    };
    let candidate = BirthCandidate {
        position: [0.0; 3],
        last_seen: 0,
        sightings: 0,
    };
    let tracks = [track; super::MAX_TRACKS];
    let sequences = [entry; super::MAX_SEQUENCES];
    let candidates = [candidate; super::MAX_CANDIDATES];
    Cartesian3DTracker {
        tracks,
        track_count: 0,
        next_track_id: 1,
        last_time: None,
        sequences,
        sequence_count: 0,
        candidates,
        candidate_count: 0,
        config,
    }
}
