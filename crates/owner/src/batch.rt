// A batch on the record that a C program holds.
ghost use Rattle.std.specs.Prelude.{◌≡◌, cond, ltb};
ghost use Rattle.number.specs.Reply.{reply_by};
ghost use Rattle.types.specs.Refusals.{number_of};
ghost use Rattle.owner.specs.Processes.{batch_reply_on, after_batch};

use birth_candidates::Candidates;
use records::tracker::PkTracker;
use spawning::ruling::Places;
use tables::sequences::Sequences;
use types::batch::{BatchReport3D, ObservationBatch3D};
use types::refusal::Refusal;
use types::{MAX_OBSERVATIONS, MAX_TRACKS};

// The record after a batch, and the report.
#[derive(Clone, Copy)]
pub struct Ran {
    pub tracker: PkTracker,
    pub report: BatchReport3D,
}

// A place among the detections: that one, or the first where a track took none.
fn place_of(j: usize) -> usize
    ensures { result ≡ cond (ltb j 64) j 0 }
{
    if j < MAX_OBSERVATIONS { j } else { 0 }
}

// A batch of one sensor at one time, in the record itself: the tracks are moved and noted, paired, updated, and the births are added behind them.
// One function over the record, since each function that takes it and gives it back copies it: three loops, each over what a function of one track or one detection does.
pub fn process_batch(mut t: PkTracker, batch: ObservationBatch3D) -> Result<Ran, Refusal>
    ensures { reply_by number_of result ≡ after_batch t (batch_reply_on t batch) }
{
    let settings = t.settings;
    let config = records::config::settings_of(settings);
    let frame = config.frame_id;
    let life = config.lifecycle;
    let density = config.accel_spectral_density;
    let last = flags::flagged(t.has_last_time, t.last_time);
    let sequences = t.sequences;
    let time = batch.timestamp;
    let sensor = batch.sensor_id;
    let observations = batch.observations;
    let count = batch.count;
    batches::validate_batch(frame, last, sequences, t.sequence_count, batch)?;
    let all = tables::taken(t.track_count, MAX_TRACKS);
    let blank = pairing::blank_row();
    let mut rows = [blank; MAX_TRACKS];
    let mut n: usize = 0;
    // By index: a track that stays is written to the record that is walked, which an iterator would hold.
    for i in 0..all {
        let carried = moving::carry(records::tracks::track_of(t.tracks[i]), time, life, density)?;
        let Some(moved) = carried else {
            continue;
        };
        let x = types::track::with_mark(moved, false);
        t.tracks[n] = records::tracks::track_to(x);
        rows[n] = pairing::row_of(x);
        n += 1;
    }
    let paired = stages::pair_rows(rows, n, observations, count, time, config)?;
    let mates = paired.mates;
    let pairs = paired.pairs;
    let unmatched = paired.unmatched;
    let update = updating::update_of(config, sensor, time);
    let nowhere = spawning::ruling::no_spot();
    let mut spots = [nowhere; MAX_TRACKS];
    let mut near: usize = 0;
    for k in 0..n {
        let j = mates[k];
        let x = records::tracks::track_of(t.tracks[k]);
        let y = updating::update_where(x, j < MAX_OBSERVATIONS, observations[place_of(j)], update)?;
        t.tracks[k] = records::tracks::track_to(y);
        if !spawning::ruling::is_confirmed_track(y) {
            continue;
        }
        spots[near] = spawning::ruling::spot_of(y);
        near += 1;
    }
    let items = t.candidates;
    let held = Candidates {
        items,
        count: t.candidate_count,
    };
    let mut kept = held.age_by(time, config)?;
    let places = Places {
        items: spots,
        count: near,
    };
    let blank_association = birth_stage::alone(0);
    let mut associations = [blank_association; MAX_OBSERVATIONS];
    let mut id = t.next_track_id;
    for j in 0..count {
        if let Some(p) = pairs[j] {
            associations[j] = birth_stage::paired(j, p.track, p.cost);
            continue;
        }
        let x = birth_stage::one::consider(
            &kept,
            observations[j],
            &places,
            n,
            id,
            time,
            sensor,
            config,
        )?;
        kept = x.candidates;
        let Some(begun) = x.begun else {
            associations[j] = birth_stage::alone(j);
            continue;
        };
        t.tracks[n] = records::tracks::track_to(begun);
        associations[j] = birth_stage::begun(j, id);
        n += 1;
        id += 1;
    }
    let laid = held.laid(&kept);
    let table = Sequences {
        entries: sequences,
        count: t.sequence_count,
    };
    let noted = table.note(sensor, batch.sequence);
    let candidates = laid.items;
    let entries = noted.entries;
    t.track_count = n;
    t.next_track_id = id;
    t.candidates = candidates;
    t.candidate_count = laid.count;
    t.sequences = entries;
    t.sequence_count = noted.count;
    t.last_time = time;
    t.has_last_time = 1;
    let report = BatchReport3D {
        timestamp: time,
        sensor_id: sensor,
        associations,
        association_count: count,
        unmatched_track_ids: unmatched,
        unmatched_track_count: paired.unmatched_count,
    };
    Ok(Ran { tracker: t, report })
}
