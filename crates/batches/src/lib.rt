// The check of a batch, before any track is looked at.
#![tactic(auto)]

ghost use Rattle.std.specs.Prelude.{◌≡◌, take};
ghost use Rattle.types.specs.Refusals.{reply_of};
ghost use Rattle.batches.specs.Check.{detections_reply, is_before, is_repeated, batch_reply};

use detections::Detection;
use settings::frame::FrameName;
use tables::sequences::Sequences;
use types::batch::ObservationBatch3D;
use types::refusal::Refusal;
use types::tracker::SensorSequence;
use types::{MAX_OBSERVATIONS, MAX_SEQUENCES};

// Whether a time is before the last one that was seen.
pub fn is_before(last: Option<i64>, time: i64) -> bool
    ensures { result ≡ is_before last time }
{
    last.is_some_and(|t| time < t)
}

// Whether a sequence number is not above the sensor's last.
fn is_repeated(last: Option<u64>, sequence: u64) -> bool
    ensures { result ≡ is_repeated last sequence }
{
    last.is_some_and(|q| sequence <= q)
}

// The check of the detections: the first that is refused decides.
fn validate_detections(observations: &[Detection]) -> Result<(), Refusal>
    ensures { reply_of result ≡ detections_reply observations.now }
{
    for d in observations {
        detections::validate_detection(*d)?;
    }
    Ok(())
}

// Whether a tracker of this frame, last time and table of sensors takes the batch, or why not.
pub fn validate_batch(
    frame: FrameName,
    last_time: Option<i64>,
    sequences: [SensorSequence; MAX_SEQUENCES],
    sequence_count: usize,
    batch: ObservationBatch3D,
) -> Result<(), Refusal>
    ensures { reply_of result ≡ batch_reply frame last_time (take sequence_count sequences) batch }
{
    let sensor = batch.sensor_id;
    let count = batch.count;
    let declared = batch.frame_id;
    let table = Sequences {
        entries: sequences,
        count: sequence_count,
    };
    if MAX_OBSERVATIONS < count {
        return Err(Refusal::TooMany);
    }
    if !settings::frame::same_frame(frame, declared) {
        return Err(Refusal::FrameMismatch);
    }
    if is_before(last_time, batch.timestamp) {
        return Err(Refusal::TimestampWentBackwards);
    }
    if is_repeated(table.last(sensor), batch.sequence) {
        return Err(Refusal::DuplicateBatch);
    }
    validate_detections(&batch.observations[..count])?;
    if table.has_room_for(sensor) {
        Ok(())
    } else {
        Err(Refusal::TooMany)
    }
}
