// What a detection does to the track that it is paired with.
#![tactic(auto)]

ghost use Rattle.std.specs.Prelude.{◌≡◌, cond, None, Some};
ghost use Rattle.number.specs.Reply.{reply_by};
ghost use Rattle.lifecycle.specs.Lifecycle.{registered_of};
ghost use Rattle.filter.specs.Filter.{reply_of_filter};
ghost use Rattle.types.specs.Refusals.{number_of};
ghost use Rattle.types.specs.Track.{with_lifecycle};
ghost use Rattle.calls.specs.Update.{moving_of, velocity_updated};
ghost use Rattle.updating.specs.Updates.{update_of, corrected, observed_as, updated_as, updated_or_not, updated_tracks};
ghost use Rattle.association.specs.Told.{mate_of};

use detections::{Detection, PlanarVelocity};
use filter::KalmanFilter;
use lifecycle::LifecycleConfig;
use settings::Cartesian3DTrackerConfig;
use types::refusal::Refusal;
use types::track::Track3D;
use types::tracker::Cartesian3DTracker;
use types::{MAX_OBSERVATIONS, MAX_TRACKS};

// What of the batch and the settings an update depends on.
#[derive(Clone, Copy)]
pub struct Update {
    pub time: i64,
    pub sensor: u32,
    pub limit: usize,
    pub deviation: Option<f64>,
    pub lifecycle: LifecycleConfig,
}

// The filter after a velocity, where one is measured and the setting is on.
fn correct_velocity(
    f: KalmanFilter,
    velocity: Option<PlanarVelocity>,
    deviation: Option<f64>,
) -> Result<KalmanFilter, math::linalg::Refusal>
    ensures { reply_of_filter result ≡ velocity_updated (moving_of deviation velocity) f }
{
    let (Some(std), Some(v)) = (deviation, velocity) else {
        return Ok(f);
    };
    filter::update_velocity(f, [v.x, v.y], std)
}

// The filter after a detection that has passed its checks.
fn correct(
    f: KalmanFilter,
    d: Detection,
    deviation: Option<f64>,
) -> Result<KalmanFilter, math::linalg::Refusal>
    ensures { reply_of_filter result ≡ corrected (moving_of deviation d.velocity) d f }
{
    let expected = filter::expected_position(f);
    let next = filter::update_from(expected, f, d.position, d.covariance)?;
    correct_velocity(next, d.velocity, deviation)
}

// The track with an observation at `time` registered where it keeps its life.
pub fn register_track(mut t: Track3D, time: i64, life: LifecycleConfig) -> Track3D
    ensures { result ≡ with_lifecycle (registered_of t.lifecycle time life) t }
{
    lifecycle::register_observation(&mut t.lifecycle, time, life);
    t
}

// The track with all but its filter as the update leaves it. The class of a track that has none is the detection's.
fn observe(x: Track3D, seen: Option<u32>, u: Update) -> Track3D
    ensures { result ≡ observed_as u seen x }
{
    let sensors = x.contributing_sensors.record_sensor(u.sensor, u.limit);
    let registered = register_track(x, u.time, u.lifecycle);
    let timed = types::track::with_state_timestamp(registered, u.time);
    let contributed = types::track::with_sensors(timed, Some(u.sensor), sensors);
    let labelled = types::track::with_class_label(contributed, x.class_label.or(seen));
    types::track::with_mark(labelled, true)
}

// The track after a detection that has passed its checks.
pub fn update_track(x: Track3D, d: Detection, u: Update) -> Result<Track3D, Refusal>
    ensures { reply_by number_of result ≡ updated_as u x d }
{
    let filter = correct(x.filter, d, u.deviation)?;
    Ok(observe(types::track::with_filter(x, filter), d.class_label, u))
}

// What of the batch and the settings an update depends on.
pub fn update_of(config: Cartesian3DTrackerConfig, sensor: u32, time: i64) -> Update
    ensures { result ≡ update_of config sensor time }
{
    Update {
        time,
        sensor,
        limit: config.max_contributing_sensors,
        deviation: config.velocity_measurement_std,
        lifecycle: config.lifecycle,
    }
}

// The track after the detection that it took, where it took one.
// No `Option<Detection>`: it would be built of a copy of the detection for each track. Of `Option<&Detection>` the contract has to say first what the reference points at, which is no plainer than the two values.
pub fn update_where(x: Track3D, taken: bool, d: Detection, u: Update) -> Result<Track3D, Refusal>
    ensures { reply_by number_of result ≡ updated_or_not u x (cond taken (Some d) None) }
{
    if taken { update_track(x, d, u) } else { Ok(x) }
}

// All tracks in order, each with the detection that it took: `mates` has its place, or 64 and more where the track took none.
pub fn update_tracks(
    s: Cartesian3DTracker,
    observations: [Detection; MAX_OBSERVATIONS],
    mates: [usize; MAX_TRACKS],
    u: Update,
) -> Result<Cartesian3DTracker, Refusal>
    ensures { reply_by number_of result ≡ updated_tracks s (mate_of mates observations) u }
{
    let n = tables::taken(s.track_count, MAX_TRACKS);
    let mut tracks = s.tracks;
    for (i, x) in s.tracks[..n].iter().enumerate() {
        let j = mates[i];
        if j < MAX_OBSERVATIONS {
            let track = update_track(*x, observations[j], u)?;
            tracks[i] = track;
        }
    }
    let mut updated = s;
    updated.tracks = tracks;
    updated.track_count = n;
    Ok(updated)
}
