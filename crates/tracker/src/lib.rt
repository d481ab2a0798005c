// The calls on a tracker. Each takes the tracker by value and gives back the one after it, which is the same one where the call is refused.
#![tactic(auto)]

ghost use Rattle.std.specs.Prelude.{◌≡◌};
ghost use Rattle.number.specs.Reply.{reply_by};
ghost use Rattle.types.specs.Refusals.{number_of};
ghost use Rattle.types.specs.States.{state_of};
ghost use Rattle.calls.specs.Process.{process_reply};
ghost use Rattle.calls.specs.Answers.{NewAnswers, PredictAnswers, PriorAnswers, SnapshotsAnswer, BatchAnswers};
ghost use Rattle.stages.specs.Stages.{finished_on};
ghost use Rattle.tracker.specs.Owner.{refused_with};

use detections::pairs::ClassPrior;
use settings::Cartesian3DTrackerConfig;
use stages::Finished;
pub use stages::Reported;
use types::MAX_TRACKS;
use types::batch::ObservationBatch3D;
use types::refusal::Refusal;
use types::track::Snapshots;
use types::tracker::Cartesian3DTracker;

// Whether a call was carried out, and the tracker after it.
// No `Result`: the tracker goes in by value and comes back in every answer, the old one beside a refusal.
#[derive(Clone, Copy)]
pub struct Answered {
    pub outcome: Result<(), Refusal>,
    pub tracker: Cartesian3DTracker,
}

// Whether the settings were accepted, and a tracker under them. No `Result`, as above: a tracker is made of any settings.
#[derive(Clone, Copy)]
pub struct Created {
    pub outcome: Result<(), Refusal>,
    pub tracker: Cartesian3DTracker,
}

// A tracker that has seen nothing; settings that are refused name their first bad field.
pub fn new(config: Cartesian3DTrackerConfig) -> Created
    ensures { NewAnswers config result.outcome result.tracker }
{
    let answer = config.validate();
    Created {
        outcome: answer.map_err(Refusal::from),
        tracker: types::tracker::fresh(config),
    }
}

// A call that is refused gives the tracker back.
fn refused(t: Cartesian3DTracker, why: Refusal) -> Answered
    ensures { result ≡ refused_with t why }
{
    Answered {
        outcome: Err(why),
        tracker: t,
    }
}

// The prior of the first track of the number; refused where there is none, or the confidence isn't finite.
pub fn set_class_prior(t: Cartesian3DTracker, id: u64, label: u32, confidence: f64) -> Answered
    ensures { PriorAnswers t id label confidence result.tracker result.outcome }
{
    if !number::float::is_finite(confidence) {
        return refused(t, Refusal::InvalidPrior);
    }
    match tables::tracks::find_track(t, id) {
        None => refused(t, Refusal::InvalidPrior),
        Some(_) => Answered {
            outcome: Ok(()),
            tracker: tables::tracks::set_prior(
                stages::with_counts(t),
                id,
                Some(ClassPrior {
                    label,
                    confidence: number::float::clamp_to_unit(confidence),
                }),
            ),
        },
    }
}

// The tracker at the time, which may not lie before the last one; marks and candidates stay.
pub fn predict_to(t: Cartesian3DTracker, timestamp: i64) -> Answered
    ensures { PredictAnswers t timestamp result.tracker result.outcome }
{
    if batches::is_before(t.last_time, timestamp) {
        return refused(t, Refusal::TimestampWentBackwards);
    }
    match moving::move_tracks(stages::with_counts(t), timestamp) {
        Err(why) => refused(t, why),
        Ok(moved) => Answered {
            outcome: Ok(()),
            tracker: moving::with_time(moved, timestamp),
        },
    }
}

// The stages of a batch, one after another.
fn carry_out(t: Cartesian3DTracker, batch: ObservationBatch3D) -> Result<Finished, Refusal>
    ensures { reply_by number_of result ≡ finished_on t (process_reply t.config (state_of t) batch) }
{
    batches::validate_batch(
        t.config.frame_id,
        t.last_time,
        t.sequences,
        t.sequence_count,
        batch,
    )?;
    let ready = stages::prepare(t, batch.timestamp)?;
    let matched = stages::match_tracks(ready, batch)?;
    stages::finish(matched, batch)
}

// A sensor's batch: the tracks at its time, paired with its detections and updated by them, and the births among the others. The report tells of each detection.
pub fn process_batch_reported(t: Cartesian3DTracker, batch: ObservationBatch3D) -> Reported
    ensures { BatchAnswers t batch result.tracker result.outcome result.report }
{
    match carry_out(t, batch) {
        Err(why) => stages::refuse(t, why),
        Ok(done) => Reported {
            outcome: Ok(()),
            tracker: done.tracker,
            report: done.report,
        },
    }
}

// What is shown of each track, in the table's order.
pub fn snapshots(t: Cartesian3DTracker) -> Snapshots
    ensures { SnapshotsAnswer t result }
{
    let n = tables::taken(t.track_count, MAX_TRACKS);
    let blank = types::track::snapshot_of(types::tracker::blank_track());
    let mut items = [blank; MAX_TRACKS];
    for (i, x) in t.tracks[..n].iter().enumerate() {
        items[i] = types::track::snapshot_of(*x);
    }
    Snapshots { items, count: n }
}
