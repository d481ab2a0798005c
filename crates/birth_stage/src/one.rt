// One detection that no track took: the candidate that it continues or leaves, the track that it begins.
ghost use Rattle.std.specs.Prelude.{◌≡◌};
ghost use Rattle.number.specs.Reply.{reply_by};
ghost use Rattle.types.specs.Refusals.{number_of};
ghost use Rattle.calls.specs.Births.{low_score, near_confirmed};
ghost use Rattle.birth_candidates.specs.Candidates.{list_of, after_sighting};
ghost use Rattle.spawning.specs.Ruling.{places_of};
ghost use Rattle.birth_stage.specs.One.{decided_of, begin_with, tried_of, one_of, after_one};

use birth_candidates::{Candidates, Sighted};
use detections::Detection;
use settings::Cartesian3DTrackerConfig;
use spawning::ruling::{Places, Ruling};
use spawning::spawn::Begin;
use types::MAX_TRACKS;
use types::refusal::Refusal;
use types::track::Track3D;

// What becomes of a detection that no track took: the candidates after it, and the track that it begins, where it does.
#[derive(Clone, Copy)]
pub struct Considered {
    pub candidates: Candidates,
    pub begun: Option<Track3D>,
}

// What of the batch and the settings a birth depends on.
fn begin_with(config: Cartesian3DTrackerConfig, time: i64, sensor: u32) -> Begin
    ensures { result ≡ begin_with config time sensor }
{
    let deviation = config.velocity_measurement_std;
    let lifecycle = config.lifecycle;
    Begin {
        time,
        sensor,
        limit: config.max_contributing_sensors,
        variance: config.initial_velocity_variance,
        deviation,
        lifecycle,
    }
}

// The detection by its score, the confirmed tracks and the candidates.
pub fn decide(
    c: &Candidates,
    d: Detection,
    places: &Places,
    time: i64,
    config: Cartesian3DTrackerConfig,
) -> Result<Sighted, Refusal>
    ensures { reply_by number_of result ≡ after_sighting c.now (decided_of config time (low_score config d) (near_confirmed config (places_of places.now) d) d (list_of c.now)) }
{
    let begins = match spawning::ruling::rule(d, places, config) {
        Ruling::Passed => None,
        Ruling::Begins => Some(1),
        Ruling::Counted(required) => {
            return c.sight(d, time, config.birth_candidate_radius_m, required);
        }
    };
    let candidates = c.settled();
    Ok(Sighted { begins, candidates })
}

// The track that the detection begins behind k others, where there is room for it.
#[tactic(auto, unfolding(crate::specs::One::tried_of))]
fn try_spawn(d: Detection, k: usize, id: u64, sightings: u32, b: Begin) -> Result<Track3D, Refusal>
    ensures { reply_by number_of result ≡ tried_of d k id sightings b }
{
    if k < MAX_TRACKS && id < u64::MAX {
        spawning::spawn::spawn(d, id, sightings, b)
    } else {
        Err(Refusal::TooMany)
    }
}

// A detection that no track took.
pub fn consider(
    c: &Candidates,
    d: Detection,
    places: &Places,
    k: usize,
    id: u64,
    time: i64,
    sensor: u32,
    config: Cartesian3DTrackerConfig,
) -> Result<Considered, Refusal>
    ensures { reply_by number_of result ≡ after_one c.now (one_of config sensor time (low_score config d) (near_confirmed config (places_of places.now) d) d k id (list_of c.now)) }
{
    let seen = decide(c, d, places, time, config)?;
    let candidates = seen.candidates;
    let Some(sightings) = seen.begins else {
        return Ok(Considered {
            candidates,
            begun: None,
        });
    };
    let track = try_spawn(d, k, id, sightings, begin_with(config, time, sensor))?;
    Ok(Considered {
        candidates,
        begun: Some(track),
    })
}
