// What the score and the confirmed tracks say of a detection that no track took.
ghost use Rattle.std.specs.Prelude.{◌≡◌, replicate};
ghost use Rattle.matrix.specs.Matrix.{nought};
ghost use Rattle.settings.specs.Optional.{set_and};
ghost use Rattle.lists.specs.First.{any};
ghost use Rattle.detections.specs.Births.{score_below, nearer};
ghost use Rattle.types.specs.States.{tracks_of};
ghost use Rattle.calls.specs.Births.{is_confirmed, confirmed_places, low_score, near_confirmed};
ghost use Rattle.spawning.specs.Ruling.{spot_at, spot_of, laid_out, places_of, suppressed_by, ruling_of};

use detections::Detection;
use lifecycle::TrackLifecycleState;
use settings::Cartesian3DTrackerConfig;
use types::MAX_TRACKS;
use types::track::Track3D;
use types::tracker::Cartesian3DTracker;

// The place of a confirmed track.
#[derive(Clone, Copy)]
pub struct Spot {
    pub position: [f64; 3],
}

// The places of the confirmed tracks, in fixed memory as the tracks are: an array with a count.
#[derive(Clone, Copy)]
pub struct Places {
    pub items: [Spot; MAX_TRACKS],
    pub count: usize,
}

#[derive(Clone, Copy)]
pub enum Ruling {
    // It begins nothing.
    Passed,
    // It begins a track.
    Begins,
    // It is near a confirmed track, and counted for so many sightings.
    Counted(u32),
}

fn is_confirmed(state: TrackLifecycleState) -> bool
    ensures { result ≡ is_confirmed state }
{
    matches!(state, TrackLifecycleState::Confirmed)
}

pub fn spot_of(x: Track3D) -> Spot
    ensures { result ≡ spot_of x }
{
    let s = x.filter.state;
    Spot {
        position: [s[0], s[1], s[2]],
    }
}

// Whether a track is confirmed.
pub fn is_confirmed_track(x: Track3D) -> bool
    ensures { result ≡ is_confirmed x.lifecycle.state }
{
    is_confirmed(x.lifecycle.state)
}

// What stands where no place is.
pub fn no_spot() -> Spot
    ensures { result ≡ spot_at (replicate 3 nought) }
{
    Spot { position: [0.0; 3] }
}

// The places of the confirmed tracks, in the table's order.
pub fn confirmed_places(t: Cartesian3DTracker) -> Places
    ensures { result ≡ laid_out (confirmed_places (tracks_of t)) }
{
    let n = tables::taken(t.track_count, MAX_TRACKS);
    let mut items = [no_spot(); MAX_TRACKS];
    let mut count: usize = 0;
    for x in &t.tracks[..n] {
        if is_confirmed(x.lifecycle.state) {
            items[count] = spot_of(*x);
            count += 1;
        }
    }
    Places { items, count }
}

impl Places {
    // Whether one is strictly nearer than the radius.
    fn is_near(&self, position: [f64; 3], radius: f64) -> bool
        ensures { result ≡ any (λ q. nearer q position radius) (places_of self.now) }
    {
        let n = tables::taken(self.count, MAX_TRACKS);
        self.items[..n].iter().any(|x| detections::births::is_nearer(x.position, position, radius))
    }

    // Whether one is nearer than a birth distance that is set.
    fn is_suppressing(&self, position: [f64; 3], least: Option<f64>) -> bool
        ensures { result ≡ set_and (λ x. any (λ q. nearer q position x) (places_of self.now)) least }
    {
        least.is_some_and(|radius| self.is_near(position, radius))
    }
}

// Whether a score is below a threshold that is set.
fn is_low(score: Option<f64>, threshold: Option<f64>) -> bool
    ensures { result ≡ set_and (score_below score) threshold }
{
    threshold.is_some_and(|t| detections::births::is_score_below(score, t))
}

// A detection near a confirmed track is counted where the settings ask for persistence.
fn suppress(persistence: Option<u32>) -> Ruling
    ensures { result ≡ suppressed_by persistence }
{
    persistence.map_or(Ruling::Passed, Ruling::Counted)
}

// What becomes of a detection by its score and the confirmed tracks.
pub fn rule(d: Detection, places: &Places, config: Cartesian3DTrackerConfig) -> Ruling
    ensures { result ≡ ruling_of (low_score config d) (near_confirmed config (places_of places.now) d) config.birth_persistence }
{
    if is_low(d.score, config.new_track_score_threshold) {
        return Ruling::Passed;
    }
    if places.is_suppressing(d.position, config.min_birth_distance_m) {
        return suppress(config.birth_persistence);
    }
    Ruling::Begins
}
