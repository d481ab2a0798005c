// Which detection goes to which track: what is read of a track, the recent ones, the column of each row.
#![tactic(auto)]

ghost use Rattle.std.specs.Prelude.{◌≡◌, map, ◌≤◌, length, take, replicate};
ghost use Rattle.lists.specs.Lay.{lay};
ghost use Rattle.assignment.specs.Taking.{takers_of};
ghost use Rattle.types.specs.Refusals.{reply_of};
ghost use Rattle.calls.specs.Pairing.{recent_since};
ghost use Rattle.pairing.specs.Laid.{Laid};
ghost use Rattle.pairing.specs.Rows.{Mates, reply_of_recency, row_of, blank_row, ids_of, recent_row};

use detections::pairs::{ClassPrior, Target};
use filter::Expected;
use types::MAX_TRACKS;
use types::refusal::Refusal;
use types::track::Track3D;

// What the pairing reads of a track; the position that its filter expects is worked out once for all detections.
#[derive(Clone, Copy)]
pub struct Row {
    pub target: Target,
    pub id: u64,
    pub last_observation: Option<i64>,
}

pub fn row_of(x: Track3D) -> Row
    ensures { result ≡ row_of x }
{
    Row {
        target: Target {
            expected: filter::expected_position(x.filter),
            class_label: x.class_label,
            class_prior: x.class_prior,
        },
        id: x.id,
        last_observation: x.lifecycle.last_observation,
    }
}

// A row that no track stands in.
pub fn blank_row() -> Row
    ensures { result ≡ blank_row }
{
    Row {
        target: Target {
            expected: Expected {
                position: [0.0; 3],
                covariance: [0.0; 9],
            },
            class_label: None,
            class_prior: None,
        },
        id: 0,
        last_observation: None,
    }
}

// The rows of the first n tracks. Array and count stand side by side, as the tracker's table has them, where the count may be anything.
pub fn rows_of(tracks: [Track3D; MAX_TRACKS], n: usize) -> [Row; MAX_TRACKS]
    ensures { result ≡ lay (take n (map row_of tracks)) (replicate 64 blank_row) }
{
    let mut rows = [blank_row(); MAX_TRACKS];
    let count = tables::taken(n, MAX_TRACKS);
    for (i, x) in tracks[..count].iter().enumerate() {
        rows[i] = row_of(*x);
    }
    rows
}

// The numbers of the rows' tracks.
// A leaf, as the other two that the pairing stage calls: it lends the first places of arrays.
pub fn ids_of(rows: &[Row]) -> [u64; MAX_TRACKS]
    requires { length rows.now ≤ 64 }
    ensures { result ≡ lay (ids_of rows.now) (replicate 64 0) }
{
    let mut ids = [0u64; MAX_TRACKS];
    for (i, row) in rows.iter().enumerate() {
        ids[i] = row.id;
    }
    ids
}

// The column of each row, into `mates`, which has 64 everywhere at first; 64 for none. The last column comes first, so that of two columns of a row the first stays.
// A leaf, as above.
pub fn mates_of(takers: &[usize], mates: &mut [usize; 64])
    requires { (length takers.now ≤ 64) × (mates.old ≡ replicate 64 64) }
    ensures { Mates (takers_of (length takers.now) takers.now) mates.new }
{
    for j in (0..takers.len()).rev() {
        let i = takers[j];
        if i < 64 {
            mates[i] = j;
        }
    }
}

// Whether a track was seen within the window; nothing where its age is one that an i64 does not hold.
fn seen_within(last: Option<i64>, now: i64, window: i64) -> Option<bool>
    ensures { reply_of_recency result ≡ recent_since window «now» last }
{
    let Some(seen) = last else {
        return Some(false);
    };
    let age = number::time::checked_duration_since(now, seen)?;
    Some(age <= window)
}

// A leaf, as above. Which of the rows' tracks are recent, into the front of `flags`. The first age that overflows decides.
pub fn mark_recent(
    rows: &[Row],
    time: i64,
    window: i64,
    flags: &mut [bool; 64],
) -> Result<(), Refusal>
    requires { length rows.now ≤ 64 }
    ensures { Laid (recent_row window time) rows.now 0 (reply_of result) flags.old flags.new }
{
    for (i, row) in rows.iter().enumerate() {
        let recent = seen_within(row.last_observation, time, window);
        flags[i] = recent.ok_or(Refusal::TimestampOverflow)?;
    }
    Ok(())
}
