// A track as a C program holds it. Conversions are functions by name, not `From`: each bears the name of the definition that it equals, which the contracts above cite, and a `from` would say the same and be no plainer.
ghost use Rattle.std.specs.Prelude.{◌≡◌};
ghost use Rattle.records.specs.Tracks.{lifecycle_of, track_of, track_to};

use filter::KalmanFilter;
use lifecycle::TrackLifecycle;
use lifecycle::sensors::Sensors;
use types::track::Track3D;

#[repr(C)]
#[derive(Clone, Copy)]
pub struct PkTrack {
    pub id: u64,
    pub filter: KalmanFilter,
    pub created_at: i64,
    pub last_observation: i64,
    pub last_counted: i64,
    pub state_timestamp: i64,
    pub prior_confidence: f64,
    pub sensors: Sensors,
    pub lifecycle: u32,
    pub has_last_observation: u32,
    pub has_last_counted: u32,
    pub observation_times: u32,
    pub has_class: u32,
    pub class_label: u32,
    pub has_prior: u32,
    pub prior_label: u32,
    pub has_last_sensor: u32,
    pub last_sensor: u32,
    pub updated: u32,
    pub reserved: u32,
}

fn lifecycle_of(t: PkTrack) -> TrackLifecycle
    ensures { result ≡ lifecycle_of t }
{
    TrackLifecycle {
        state: flags::life_of(t.lifecycle),
        created_at: t.created_at,
        last_observation: flags::flagged(t.has_last_observation, t.last_observation),
        last_counted: flags::flagged(t.has_last_counted, t.last_counted),
        observation_times: t.observation_times,
    }
}

#[tactic(auto, unfolding(crate::specs::Tracks::track_of))]
pub fn track_of(t: PkTrack) -> Track3D
    ensures { result ≡ track_of t }
{
    Track3D {
        id: t.id,
        filter: t.filter,
        lifecycle: lifecycle_of(t),
        class_label: flags::flagged(t.has_class, t.class_label),
        class_prior: flags::prior_of(t.has_prior, t.prior_label, t.prior_confidence),
        state_timestamp: t.state_timestamp,
        last_update_sensor: flags::flagged(t.has_last_sensor, t.last_sensor),
        contributing_sensors: t.sensors,
        updated_this_batch: flags::mark_of(t.updated),
    }
}

#[tactic(auto, unfolding(crate::specs::Tracks::track_to))]
pub fn track_to(t: Track3D) -> PkTrack
    ensures { result ≡ track_to t }
{
    let life = t.lifecycle;
    let last_observation = life.last_observation;
    let last_counted = life.last_counted;
    let class = t.class_label;
    let prior = t.class_prior;
    let last_sensor = t.last_update_sensor;
    PkTrack {
        id: t.id,
        filter: t.filter,
        created_at: life.created_at,
        last_observation: last_observation.unwrap_or(0),
        last_counted: last_counted.unwrap_or(0),
        state_timestamp: t.state_timestamp,
        prior_confidence: flags::the_confidence(prior),
        sensors: t.contributing_sensors,
        lifecycle: flags::life_to(life.state),
        has_last_observation: flags::flag(last_observation),
        has_last_counted: flags::flag(last_counted),
        observation_times: life.observation_times,
        has_class: flags::flag(class),
        class_label: class.unwrap_or(0),
        has_prior: flags::flag(prior),
        prior_label: flags::the_prior(prior),
        has_last_sensor: flags::flag(last_sensor),
        last_sensor: last_sensor.unwrap_or(0),
        updated: flags::mark_to(t.updated_this_batch),
        reserved: 0,
    }
}
