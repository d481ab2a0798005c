// The stages of a batch, each on the whole tracker.
#![tactic(auto)]

ghost use Rattle.std.specs.Prelude.{◌≡◌, true, ◌≤◌, take, replicate};
ghost use Rattle.lists.specs.Lay.{lay};
ghost use Rattle.number.specs.Reply.{given, reply_by};
ghost use Rattle.types.specs.Refusals.{number_of};
ghost use Rattle.types.specs.States.{state_of, tracks_of, sequences_of, over_state};
ghost use Rattle.types.specs.Batches.{blank_report};
ghost use Rattle.tables.specs.Sequences.{room_for};
ghost use Rattle.batches.specs.Check.{detections_reply};
ghost use Rattle.calls.specs.Pairing.{pair_config};
ghost use Rattle.calls.specs.Process.{finished};
ghost use Rattle.matching.specs.Stage.{rows_taken, Matches, RowsMatch};
ghost use Rattle.stages.specs.Stages.{refused_with, laid_over, prepared_state, seen_in, takers_in, MatchAnswers, matched_by, finished_on};

use detections::Detection;
use detections::pairs::PairConfig;
use matching::Paired;
use pairing::Row;
use settings::Cartesian3DTrackerConfig;
use types::batch::{BatchReport3D, ObservationAssociation, ObservationBatch3D, ObservationOutcome};
use types::refusal::Refusal;
use types::tracker::Cartesian3DTracker;
use types::{MAX_CANDIDATES, MAX_OBSERVATIONS, MAX_SEQUENCES, MAX_TRACKS};

// A batch that is carried out: the tracker after it, and the report.
#[derive(Clone, Copy)]
pub struct Finished {
    pub tracker: Cartesian3DTracker,
    pub report: BatchReport3D,
}

// Whether a batch was carried out, the tracker after it, and the report, which is blank beside a refusal.
// No `Result`: the tracker goes in by value and comes back in every answer, the old one beside a refusal.
#[derive(Clone, Copy)]
pub struct Reported {
    pub outcome: Result<(), Refusal>,
    pub tracker: Cartesian3DTracker,
    pub report: BatchReport3D,
}

// The tracker after the pairing and the updates, and what the pairing tells.
#[derive(Clone, Copy)]
pub struct Matching {
    pub tracker: Cartesian3DTracker,
    pub paired: Paired,
}

// The tracker with counts that are no more than there are places: what each accepted call starts from.
pub fn with_counts(mut t: Cartesian3DTracker) -> Cartesian3DTracker
    ensures { result ≡ over_state t (state_of t) }
{
    t.track_count = tables::taken(t.track_count, MAX_TRACKS);
    t.sequence_count = tables::taken(t.sequence_count, MAX_SEQUENCES);
    t.candidate_count = tables::taken(t.candidate_count, MAX_CANDIDATES);
    t
}

pub fn blank_report() -> BatchReport3D
    ensures { result ≡ blank_report }
{
    let blank = ObservationAssociation {
        observation_index: 0,
        track_id: None,
        outcome: ObservationOutcome::Unmatched,
        cost: None,
    };
    let associations = [blank; MAX_OBSERVATIONS];
    let unmatched_track_ids = [0u64; MAX_TRACKS];
    BatchReport3D {
        timestamp: 0,
        sensor_id: 0,
        associations,
        association_count: 0,
        unmatched_track_ids,
        unmatched_track_count: 0,
    }
}

// A batch that is refused leaves the tracker as it was.
pub fn refuse(t: Cartesian3DTracker, why: Refusal) -> Reported
    ensures { result ≡ refused_with t why }
{
    Reported {
        outcome: Err(why),
        tracker: t,
        report: blank_report(),
    }
}

// Stages 2 and 3: the tracks at the batch's time, with no mark.
pub fn prepare(t: Cartesian3DTracker, time: i64) -> Result<Cartesian3DTracker, Refusal>
    ensures { reply_by number_of result ≡ laid_over t (prepared_state t time) }
{
    let moved = moving::move_tracks(with_counts(t), time)?;
    Ok(tables::tracks::clear_marks(moved))
}

// The pairing of the first n rows with the first m detections, under the settings. Arrays and counts stand side by side, as in `matching::pair_tracks`, where a count may be anything.
pub fn pair_rows(
    rows: [Row; MAX_TRACKS],
    n: usize,
    seen: [Detection; MAX_OBSERVATIONS],
    m: usize,
    time: i64,
    config: Cartesian3DTrackerConfig,
) -> Result<Paired, Refusal>
    ensures { RowsMatch (pair_config config) (take n rows) (take m seen) (rows_taken (pair_config config) config.recent_track_window_ns time (take n rows) (take m seen)) result }
{
    let window = config.recent_track_window_ns;
    let rule = PairConfig {
        gate_squared_mahalanobis: config.gate_squared_mahalanobis,
        class_prior_penalty: config.class_prior_penalty,
    };
    matching::pair_tracks(rows, n, seen, m, time, rule, window)
}

// Stage 5 and what comes before it: the pairing of the tracks with the batch's detections.
pub fn pair(u: Cartesian3DTracker, batch: ObservationBatch3D) -> Result<Paired, Refusal>
    ensures { Matches (pair_config u.config) (tracks_of u) (seen_in batch) (takers_in u batch) result }
{
    let rows = pairing::rows_of(u.tracks, u.track_count);
    pair_rows(
        rows,
        u.track_count,
        batch.observations,
        batch.count,
        batch.timestamp,
        u.config,
    )
}

// Stages 4 to 6, on a tracker whose tracks are at the batch's time: the pairing and the updates. The batch has passed its check.
// A leaf: only a batch that has passed comes here, so that no detection is checked twice.
// Where an update is refused after the pairing, the answer is that refusal alone; `pair` tells the pairing there too.
pub fn match_tracks(u: Cartesian3DTracker, batch: ObservationBatch3D) -> Result<Matching, Refusal>
    requires { detections_reply (seen_in batch) ≡ given tt }
    ensures { MatchAnswers u batch result }
{
    let paired = pair(u, batch)?;
    let update = updating::update_of(u.config, batch.sensor_id, batch.timestamp);
    let tracker = updating::update_tracks(u, batch.observations, paired.mates, update)?;
    Ok(Matching { tracker, paired })
}

// Stages 7 to 9, on a tracker whose tracks are updated: the births, the sensor's sequence, the report.
// A leaf: the check has found room for the sensor, and the pairing has told the unmatched numbers with zeros behind them.
pub fn finish(m: Matching, batch: ObservationBatch3D) -> Result<Finished, Refusal>
    requires { (batch.count ≤ 64) × (room_for 32 batch.sensor_id (sequences_of m.tracker) ≡ true) × (m.paired.unmatched ≡ lay (take m.paired.unmatched_count m.paired.unmatched) (replicate 64 0)) × (m.paired.unmatched_count ≤ 64) }
    ensures { reply_by number_of result ≡ finished_on m.tracker (finished m.tracker.config (state_of m.tracker) batch (matched_by batch m)) }
{
    let paired = m.paired;
    let timed = moving::with_time(m.tracker, batch.timestamp);
    let walked = birth_stage::births(
        timed,
        batch.observations,
        paired.pairs,
        batch.count,
        batch.timestamp,
        batch.sensor_id,
    )?;
    let associations = walked.associations;
    let unmatched_track_ids = paired.unmatched;
    let report = BatchReport3D {
        timestamp: batch.timestamp,
        sensor_id: batch.sensor_id,
        associations,
        association_count: batch.count,
        unmatched_track_ids,
        unmatched_track_count: paired.unmatched_count,
    };
    Ok(Finished {
        tracker: tables::sequences::note_sequence(walked.tracker, batch.sensor_id, batch.sequence),
        report,
    })
}
