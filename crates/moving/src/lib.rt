// The tracks at a later time: each is kept or dropped by its life, and moved by its filter.
#![tactic(auto)]

ghost use Rattle.std.specs.Prelude.{◌≡◌};
ghost use Rattle.number.specs.Reply.{reply_by};
ghost use Rattle.types.specs.Refusals.{number_of};
ghost use Rattle.calls.specs.Predict.{moved_by, moved};
ghost use Rattle.moving.specs.Steps.{aged_with, aged_track, carried, moved_tracks, with_time};

use lifecycle::{LifecycleConfig, Verdict};
use types::MAX_TRACKS;
use types::refusal::Refusal;
use types::track::Track3D;
use types::tracker::Cartesian3DTracker;

// A track with the life that a time leaves it, and whether it goes on. No Option: the life as it is left is told of a track that goes too, so both fields always count. Nor is the life's state asked instead: the verdict says the same, and no caller has to know which states end a life.
#[derive(Clone, Copy)]
pub struct AgedTrack {
    pub track: Track3D,
    pub verdict: Verdict,
}

fn aged_with(track: Track3D, verdict: Verdict) -> AgedTrack
    ensures { result ≡ aged_with track verdict }
{
    AgedTrack { track, verdict }
}

// The track at the time `at`: its life is advanced where the track keeps it.
pub fn advance_track(mut t: Track3D, at: i64, life: LifecycleConfig) -> AgedTrack
    ensures { result ≡ aged_track t at life }
{
    let verdict = lifecycle::advance(&mut t.lifecycle, at, life);
    aged_with(t, verdict)
}

// The track moved by dt nanoseconds, to the time.
fn move_by(x: Track3D, dt: i64, time: i64, density: f64) -> Result<Track3D, Refusal>
    ensures { reply_by number_of result ≡ moved_by density time x dt }
{
    let before = x.filter;
    let filter = filter::predict(before, number::time::seconds(dt), density)?;
    let moved = types::track::with_filter(x, filter);
    Ok(types::track::with_state_timestamp(moved, time))
}

// The track moved to the time by its filter, where it isn't there already.
pub fn move_track(x: Track3D, time: i64, density: f64) -> Result<Track3D, Refusal>
    ensures { reply_by number_of result ≡ moved density time x }
{
    if x.state_timestamp == time {
        return Ok(x);
    }
    let since = number::time::checked_duration_since(time, x.state_timestamp);
    let dt = since.ok_or(Refusal::TimestampOverflow)?;
    move_by(x, dt, time, density)
}

// The track at the time, or none where its life ends there.
pub fn carry(
    x: Track3D,
    time: i64,
    life: LifecycleConfig,
    density: f64,
) -> Result<Option<Track3D>, Refusal>
    ensures { reply_by number_of result ≡ carried life density time x }
{
    let aged = advance_track(x, time, life);
    let verdict = aged.verdict;
    let track = aged.track;
    match verdict {
        Verdict::Dropped => Ok(None),
        Verdict::Kept => Ok(Some(move_track(track, time, density)?)),
    }
}

// The tracks at the time: those that their lives drop are gone, and the others are moved to it.
pub fn move_tracks(s: Cartesian3DTracker, time: i64) -> Result<Cartesian3DTracker, Refusal>
    ensures { reply_by number_of result ≡ moved_tracks s time }
{
    let config = s.config;
    let life = config.lifecycle;
    let density = config.accel_spectral_density;
    let n = tables::taken(s.track_count, MAX_TRACKS);
    let mut tracks = s.tracks;
    let mut kept: usize = 0;
    for x in &s.tracks[..n] {
        if let Some(track) = carry(*x, time, life, density)? {
            tracks[kept] = track;
            kept += 1;
        }
    }
    let mut moved = s;
    moved.tracks = tracks;
    moved.track_count = kept;
    Ok(moved)
}

// The tracker with the last time that it has seen.
pub fn with_time(s: Cartesian3DTracker, time: i64) -> Cartesian3DTracker
    ensures { result ≡ with_time time s }
{
    Cartesian3DTracker {
        last_time: Some(time),
        ..s
    }
}
