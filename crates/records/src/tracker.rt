// The whole tracker as a C program holds it: read as a tracker, and one after a call laid over it. Functions by name, not `From`: each bears the name of the definition that it equals, which the contracts above cite, and a `from` would say the
// same and be no plainer; laid over is no conversion. Arrays are named by `let` before they are parts of a record: the check takes none straight.
ghost use Rattle.std.specs.Prelude.{◌≡◌, ◌<◌, map};
ghost use Rattle.lists.specs.Lay.{lay};
ghost use Rattle.types.specs.States.{tracks_of};
ghost use Rattle.records.specs.Tracks.{track_of, track_to};
ghost use Rattle.records.specs.Trackers.{tracker_of, pk_fresh, laid_over};

use super::config::PkSettings;
use super::tracks::PkTrack;
use std::array::from_fn;
use types::MAX_TRACKS;
use types::track::Track3D;
use types::tracker::{BirthCandidate, Cartesian3DTracker, SensorSequence};

#[repr(C)]
#[derive(Clone, Copy)]
pub struct PkTracker {
    pub tracks: [PkTrack; 64],
    pub track_count: usize,
    pub next_track_id: u64,
    pub last_time: i64,
    pub sequences: [SensorSequence; 32],
    pub sequence_count: usize,
    pub candidates: [BirthCandidate; 64],
    pub candidate_count: usize,
    pub settings: PkSettings,
    pub has_last_time: u32,
    pub reserved: u32,
}

// Every place of the table, those behind the count too.
fn tracks_of(t: PkTracker) -> [Track3D; 64]
    ensures { result ≡ map track_of t.tracks }
{
    from_fn(
        |i| -> Track3D
            requires { i < 64 }
        { super::tracks::track_of(t.tracks[i]) },
    )
}

// The tracker that a C program holds.
#[tactic(auto, unfolding(crate::specs::Trackers::tracker_of))]
pub fn tracker_of(t: PkTracker) -> Cartesian3DTracker
    ensures { result ≡ tracker_of t }
{
    let tracks = tracks_of(t);
    let sequences = t.sequences;
    let candidates = t.candidates;
    Cartesian3DTracker {
        tracks,
        track_count: t.track_count,
        next_track_id: t.next_track_id,
        last_time: flags::flagged(t.has_last_time, t.last_time),
        sequences,
        sequence_count: t.sequence_count,
        candidates,
        candidate_count: t.candidate_count,
        config: super::config::settings_of(t.settings),
    }
}

// The tracks of u in the first places of t's table; those behind them are as they were.
fn tracks_over(t: PkTracker, u: Cartesian3DTracker) -> [PkTrack; 64]
    ensures { result ≡ lay (map track_to (tracks_of u)) t.tracks }
{
    let n = tables::taken(u.track_count, MAX_TRACKS);
    let mut out = t.tracks;
    for (i, x) in u.tracks[..n].iter().enumerate() {
        out[i] = super::tracks::track_to(*x);
    }
    out
}

// The tracker u, which came from t by a call, laid over t.
pub fn lay_over(t: PkTracker, u: Cartesian3DTracker) -> PkTracker
    ensures { result ≡ laid_over t u }
{
    let tracks = tracks_over(t, u);
    let sequences = u.sequences;
    let candidates = u.candidates;
    let last = u.last_time;
    PkTracker {
        tracks,
        track_count: u.track_count,
        next_track_id: u.next_track_id,
        last_time: last.unwrap_or(0),
        sequences,
        sequence_count: u.sequence_count,
        candidates,
        candidate_count: u.candidate_count,
        settings: t.settings,
        has_last_time: flags::flag(last),
        reserved: t.reserved,
    }
}

// A tracker that has seen nothing, under settings that it takes as they are.
#[tactic(auto, unfolding(crate::specs::Trackers::pk_fresh))]
pub fn fresh(settings: PkSettings) -> PkTracker
    ensures { result ≡ pk_fresh settings }
{
    let track = super::tracks::track_to(types::tracker::blank_track());
    let entry = SensorSequence {
        sensor: 0,
        sequence: 0,
    };
    let candidate = BirthCandidate {
        position: [0.0; 3],
        last_seen: 0,
        sightings: 0,
    };
    let tracks = [track; 64];
    let sequences = [entry; 32];
    let candidates = [candidate; 64];
    PkTracker {
        tracks,
        track_count: 0,
        next_track_id: 1,
        last_time: 0,
        sequences,
        sequence_count: 0,
        candidates,
        candidate_count: 0,
        settings,
        has_last_time: 0,
        reserved: 0,
    }
}
