// The calls on the record that a C program holds, track by track in the record itself: each track is read, moved and stored again, and no table is converted.
#![tactic(auto)]

ghost use Rattle.std.specs.Prelude.{◌≡◌};
ghost use Rattle.number.specs.Reply.{reply_by};
ghost use Rattle.types.specs.Refusals.{number_of};
ghost use Rattle.records.specs.Configs.{settings_of};
ghost use Rattle.records.specs.Trackers.{pk_state};
ghost use Rattle.calls.specs.Predict.{predict_reply};
ghost use Rattle.owner.specs.Owner.{after_call};

use records::tracker::PkTracker;
use types::refusal::Refusal;
use types::{MAX_CANDIDATES, MAX_SEQUENCES, MAX_TRACKS};

pub mod batch;

// All tracks at the time.
pub fn predict_to(mut t: PkTracker, time: i64) -> Result<PkTracker, Refusal>
    ensures { reply_by number_of result ≡ after_call t (predict_reply (settings_of t.settings) (pk_state t) time) }
{
    let settings = t.settings;
    let config = records::config::settings_of(settings);
    let life = config.lifecycle;
    let density = config.accel_spectral_density;
    let last = flags::flagged(t.has_last_time, t.last_time);
    if batches::is_before(last, time) {
        return Err(Refusal::TimestampWentBackwards);
    }
    let all = tables::taken(t.track_count, MAX_TRACKS);
    let mut n: usize = 0;
    // By index: a track that stays is written to the record that is walked, which an iterator would hold.
    for i in 0..all {
        let carried = moving::carry(records::tracks::track_of(t.tracks[i]), time, life, density)?;
        let Some(x) = carried else {
            continue;
        };
        t.tracks[n] = records::tracks::track_to(x);
        n += 1;
    }
    t.track_count = n;
    t.sequence_count = tables::taken(t.sequence_count, MAX_SEQUENCES);
    t.candidate_count = tables::taken(t.candidate_count, MAX_CANDIDATES);
    t.last_time = time;
    t.has_last_time = 1;
    Ok(t)
}
