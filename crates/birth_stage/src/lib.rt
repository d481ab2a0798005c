// The births of a batch: one walk over its detections in order, which are taken, and what becomes of the others.
#![tactic(auto)]

ghost use Rattle.std.specs.Prelude.{◌≡◌};
ghost use Rattle.number.specs.Reply.{reply_by};
ghost use Rattle.types.specs.Refusals.{number_of};
ghost use Rattle.types.specs.States.{state_of, over_state};
ghost use Rattle.calls.specs.Births.{updated, spawned, unmatched, births_of, with_candidates};
ghost use Rattle.calls.specs.Process.{association_of};
ghost use Rattle.birth_candidates.specs.Candidates.{list_of};
ghost use Rattle.spawning.specs.Ruling.{places_of};
ghost use Rattle.association.specs.Told.{columns_from};
ghost use Rattle.birth_stage.specs.Walk.{candidates_in, births_after, after_walk};

use association::Pair;
use birth_candidates::Candidates;
use detections::Detection;
use spawning::ruling::Places;
use types::batch::{ObservationAssociation, ObservationOutcome};
use types::refusal::Refusal;
use types::tracker::Cartesian3DTracker;
use types::{MAX_OBSERVATIONS, MAX_SEQUENCES, MAX_TRACKS};

pub mod one;

// The tracker after the births of a batch, and what is told of each detection.
#[derive(Clone, Copy)]
pub struct Walked {
    pub tracker: Cartesian3DTracker,
    pub associations: [ObservationAssociation; MAX_OBSERVATIONS],
}

pub fn alone(j: usize) -> ObservationAssociation
    ensures { result ≡ association_of j unmatched }
{
    ObservationAssociation {
        observation_index: j,
        track_id: None,
        outcome: ObservationOutcome::Unmatched,
        cost: None,
    }
}

pub fn paired(j: usize, id: u64, cost: f64) -> ObservationAssociation
    ensures { result ≡ association_of j (updated (record { track = id; cost = cost })) }
{
    ObservationAssociation {
        observation_index: j,
        track_id: Some(id),
        outcome: ObservationOutcome::Updated,
        cost: Some(cost),
    }
}

pub fn begun(j: usize, id: u64) -> ObservationAssociation
    ensures { result ≡ association_of j (spawned id) }
{
    ObservationAssociation {
        observation_index: j,
        track_id: Some(id),
        outcome: ObservationOutcome::Spawned,
        cost: None,
    }
}

// The tracker's candidates by themselves.
fn candidates_of(t: &Cartesian3DTracker) -> Candidates
    ensures { result ≡ candidates_in t.now }
{
    let items = t.candidates;
    Candidates {
        items,
        count: t.candidate_count,
    }
}

// The tracker with these candidates in the first places of its own, and counts that are no more than there are places.
fn settled(mut s: Cartesian3DTracker, kept: &Candidates) -> Cartesian3DTracker
    ensures { result ≡ over_state s (with_candidates (list_of kept.now) (state_of s)) }
{
    let held = candidates_of(&s);
    let laid = held.laid(kept);
    let items = laid.items;
    s.candidates = items;
    s.candidate_count = laid.count;
    s.track_count = tables::taken(s.track_count, MAX_TRACKS);
    s.sequence_count = tables::taken(s.sequence_count, MAX_SEQUENCES);
    s
}

// The births among m detections, on a tracker whose candidates are c. They are laid back at the end, so that one that was added and left again leaves nothing behind the count.
// Arrays and their count stand side by side, here and below, as the batch and its pairing have them, where the count may be anything.
pub fn walk(
    t: Cartesian3DTracker,
    c: Candidates,
    places: &Places,
    observations: [Detection; MAX_OBSERVATIONS],
    pairs: [Option<Pair>; MAX_OBSERVATIONS],
    m: usize,
    time: i64,
    sensor: u32,
) -> Result<Walked, Refusal>
    ensures { reply_by number_of result ≡ after_walk t (births_of t.config sensor time (places_of places.now) (columns_from m pairs observations) (with_candidates (list_of c) (state_of t))) }
{
    let config = t.config;
    let n = tables::taken(m, MAX_OBSERVATIONS);
    let blank = alone(0);
    let mut associations = [blank; MAX_OBSERVATIONS];
    let mut s = t;
    let mut kept = c;
    // By index: each turn tells its place, so that a `zip` of the two arrays' first places would be counted as well, and is no plainer.
    for j in 0..n {
        if let Some(p) = pairs[j] {
            associations[j] = paired(j, p.track, p.cost);
            continue;
        }
        let d = observations[j];
        let k = tables::taken(s.track_count, MAX_TRACKS);
        let id = s.next_track_id;
        let x = one::consider(&kept, d, places, k, id, time, sensor, config)?;
        kept = x.candidates;
        let Some(track) = x.begun else {
            associations[j] = alone(j);
            continue;
        };
        s.tracks[k] = track;
        s.track_count = k + 1;
        s.next_track_id = id + 1;
        associations[j] = begun(j, id);
    }
    let tracker = settled(s, &kept);
    Ok(Walked {
        tracker,
        associations,
    })
}

// The births of a batch on a tracker whose tracks are predicted and updated: old candidates go first.
pub fn births(
    t: Cartesian3DTracker,
    observations: [Detection; MAX_OBSERVATIONS],
    pairs: [Option<Pair>; MAX_OBSERVATIONS],
    m: usize,
    time: i64,
    sensor: u32,
) -> Result<Walked, Refusal>
    ensures { reply_by number_of result ≡ after_walk t (births_after t.config sensor time (columns_from m pairs observations) (state_of t)) }
{
    let candidates = candidates_of(&t).age_by(time, t.config)?;
    let places = spawning::ruling::confirmed_places(t);
    walk(t, candidates, &places, observations, pairs, m, time, sensor)
}
