// The table of tracks.
ghost use Rattle.std.specs.Prelude.{◌≡◌, false, map};
ghost use Rattle.lists.specs.First.{first_at, change_first};
ghost use Rattle.lists.specs.Table.{pushed};
ghost use Rattle.types.specs.Track.{with_prior, with_mark};
ghost use Rattle.types.specs.States.{tracks_of, over_tracks};
ghost use Rattle.tables.specs.Operations.{numbered};

use detections::pairs::ClassPrior;
use types::MAX_TRACKS;
use types::track::Track3D;
use types::tracker::Cartesian3DTracker;

// The track behind the others, where there is room for one more.
pub fn push_track(mut s: Cartesian3DTracker, track: Track3D) -> Cartesian3DTracker
    ensures { result ≡ over_tracks s (pushed 64 track (tracks_of s)) }
{
    let n = super::taken(s.track_count, MAX_TRACKS);
    if n < MAX_TRACKS {
        s.tracks[n] = track;
        s.track_count = n + 1;
    } else {
        s.track_count = n;
    }
    s
}

// Where the first track of the number stands. By index: for an iterator over a part of its tracks the whole tracker is copied.
pub fn find_track(s: Cartesian3DTracker, id: u64) -> Option<usize>
    ensures { result ≡ first_at (numbered id) (tracks_of s) }
{
    let n = super::taken(s.track_count, MAX_TRACKS);
    for i in 0..n {
        if id == s.tracks[i].id {
            return Some(i);
        }
    }
    None
}

// The first track of the number with another prior; nothing changes where there is none.
pub fn set_prior(
    mut s: Cartesian3DTracker,
    id: u64,
    prior: Option<ClassPrior>,
) -> Cartesian3DTracker
    ensures { result ≡ over_tracks s (change_first (numbered id) (with_prior prior) (tracks_of s)) }
{
    let n = super::taken(s.track_count, MAX_TRACKS);
    match find_track(s, id) {
        None => {
            s.track_count = n;
            s
        }
        Some(i) => {
            let x = s.tracks[i];
            s.tracks[i] = types::track::with_class_prior(x, prior);
            s.track_count = n;
            s
        }
    }
}

// No track is marked as updated.
pub fn clear_marks(mut s: Cartesian3DTracker) -> Cartesian3DTracker
    ensures { result ≡ over_tracks s (map (with_mark false) (tracks_of s)) }
{
    let n = super::taken(s.track_count, MAX_TRACKS);
    // By index: after `iter_mut` over a part of the field the proof has no fact that says what the field holds (tried).
    for i in 0..n {
        s.tracks[i].updated_this_batch = false;
    }
    s.track_count = n;
    s
}
