// A track, a setter for each part of it that calls change, and what is shown of it.
ghost use Rattle.std.specs.Prelude.{◌≡◌};
ghost use Rattle.types.specs.Track.{with_filter, with_label, with_prior, with_timestamp, with_sensors, with_mark, snapshot_of};

use detections::pairs::ClassPrior;
use filter::KalmanFilter;
use lifecycle::sensors::Sensors;
use lifecycle::{TrackLifecycle, TrackLifecycleState};

#[derive(Clone, Copy)]
pub struct Track3D {
    pub id: u64,
    pub filter: KalmanFilter,
    pub lifecycle: TrackLifecycle,
    pub class_label: Option<u32>,
    pub class_prior: Option<ClassPrior>,
    // The time that the filter's state refers to.
    pub state_timestamp: i64,
    pub last_update_sensor: Option<u32>,
    pub contributing_sensors: Sensors,
    pub updated_this_batch: bool,
}

// What is shown of a track.
#[derive(Clone, Copy)]
pub struct Track3DSnapshot {
    pub track_id: u64,
    pub lifecycle: TrackLifecycleState,
    pub state_timestamp: i64,
    pub last_observation_timestamp: Option<i64>,
    pub last_update_sensor: Option<u32>,
    pub contributing_sensors: Sensors,
    pub class_label: Option<u32>,
    pub class_prior: Option<ClassPrior>,
    pub updated_in_last_batch: bool,
    pub observation_times_count: u32,
    pub position: [f64; 3],
    pub velocity: [f64; 3],
    pub state: [f64; 6],
    pub covariance: [f64; 36],
}

// What is shown of all tracks, in the table's order: the first `count` places. An array and a count, since there is no heap (01: "fixed arrays with a length").
#[derive(Clone, Copy)]
pub struct Snapshots {
    pub items: [Track3DSnapshot; super::MAX_TRACKS],
    pub count: usize,
}

pub fn with_filter(t: Track3D, filter: KalmanFilter) -> Track3D
    ensures { result ≡ with_filter filter t }
{
    Track3D { filter, ..t }
}

pub fn with_state_timestamp(t: Track3D, timestamp: i64) -> Track3D
    ensures { result ≡ with_timestamp timestamp t }
{
    Track3D {
        state_timestamp: timestamp,
        ..t
    }
}

pub fn with_mark(t: Track3D, updated: bool) -> Track3D
    ensures { result ≡ with_mark updated t }
{
    Track3D {
        updated_this_batch: updated,
        ..t
    }
}

pub fn with_class_label(t: Track3D, label: Option<u32>) -> Track3D
    ensures { result ≡ with_label label t }
{
    Track3D {
        class_label: label,
        ..t
    }
}

pub fn with_class_prior(t: Track3D, prior: Option<ClassPrior>) -> Track3D
    ensures { result ≡ with_prior prior t }
{
    Track3D {
        class_prior: prior,
        ..t
    }
}

// The sensor of the latest update, and all that contributed.
pub fn with_sensors(t: Track3D, last: Option<u32>, sensors: Sensors) -> Track3D
    ensures { result ≡ with_sensors last sensors t }
{
    Track3D {
        last_update_sensor: last,
        contributing_sensors: sensors,
        ..t
    }
}

// What is shown of a track.
pub fn snapshot_of(t: Track3D) -> Track3DSnapshot
    ensures { result ≡ snapshot_of t }
{
    let life = t.lifecycle;
    // Arrays by `let`: the check takes no field of an array straight from another's.
    let state = t.filter.state;
    let covariance = t.filter.covariance;
    Track3DSnapshot {
        track_id: t.id,
        lifecycle: life.state,
        state_timestamp: t.state_timestamp,
        last_observation_timestamp: life.last_observation,
        last_update_sensor: t.last_update_sensor,
        contributing_sensors: t.contributing_sensors,
        class_label: t.class_label,
        class_prior: t.class_prior,
        updated_in_last_batch: t.updated_this_batch,
        observation_times_count: life.observation_times,
        position: [state[0], state[1], state[2]],
        velocity: [state[3], state[4], state[5]],
        state,
        covariance,
    }
}
