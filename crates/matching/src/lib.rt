// The pairing stage of a batch: the cost table, the takers of the columns, and what the updates, the births and the report are told of them.
#![tactic(auto)]

ghost use Rattle.std.specs.Prelude.{◌≡◌, ◌≤◌, length, take, replicate, Some};
ghost use Rattle.cascade.specs.Stages.{Whole};
ghost use Rattle.types.specs.Refusals.{reply_of};
ghost use Rattle.matching.specs.Takers.{costs_of, rows_paired, Takes};
ghost use Rattle.matching.specs.Stage.{rows_taken, RowsMatch, Tells};

use association::Pair;
use cascade::Table;
use detections::Detection;
use detections::pairs::PairConfig;
use pairing::Row;
use types::refusal::Refusal;
use types::{MAX_OBSERVATIONS, MAX_TRACKS};

// The detection of each track, by its place, with 64 for none; the pair of each detection; the numbers of the tracks that took none, in the front of an array: a list of fixed room, as there is no heap.
#[derive(Clone, Copy)]
pub struct Paired {
    pub mates: [usize; MAX_TRACKS],
    pub pairs: [Option<Pair>; MAX_OBSERVATIONS],
    pub unmatched: [u64; MAX_TRACKS],
    pub unmatched_count: usize,
}

// The track that takes each column, into `takers`, which has 64 everywhere at first: those seen within the window first. An age that overflows is refused before anything is paired.
fn assign_recent_first(
    table: Table,
    rows: &[Row],
    time: i64,
    gate: f64,
    window: i64,
    takers: &mut [usize; 64],
) -> Result<(), Refusal>
    requires { Whole table × (length rows.now ≡ table.rows) × (takers.old ≡ replicate 64 64) }
    ensures { Takes table.entry.columns (reply_of result) takers.new (rows_paired gate (Some window) time rows.now (costs_of table.entry) table.entry.columns) }
{
    let mut recent = [false; 64];
    pairing::mark_recent(rows, time, window, &mut recent)?;
    cascade::pair_cascade(table, gate, &recent, takers)
}

// The same where a window may be set; without one, all tracks take part at once.
fn assign_columns(
    table: Table,
    rows: &[Row],
    time: i64,
    gate: f64,
    window: Option<i64>,
    takers: &mut [usize; 64],
) -> Result<(), Refusal>
    requires { Whole table × (length rows.now ≡ table.rows) × (takers.old ≡ replicate 64 64) }
    ensures { Takes table.entry.columns (reply_of result) takers.new (rows_paired gate window time rows.now (costs_of table.entry) table.entry.columns) }
{
    match window {
        None => cascade::pair_all(table, gate, takers),
        Some(limit) => assign_recent_first(table, rows, time, gate, limit, takers),
    }
}

// What is told of the takers of the columns.
fn tell(ids: &[u64], takers: &[usize], costs: &[f64; 4096]) -> Paired
    requires { (length ids.now ≤ 64) × (length takers.now ≤ 64) }
    ensures { Tells ids.now costs.now takers.now result }
{
    let mut mates = [64usize; MAX_TRACKS];
    pairing::mates_of(takers, &mut mates);
    let pairs = association::pairs_of(ids, takers, costs);
    let list = association::unmatched_of(ids, &mates);
    let unmatched = list.ids;
    Paired {
        mates,
        pairs,
        unmatched,
        unmatched_count: list.count,
    }
}

// The pairing of the first n rows, of tracks at the batch's time, with its first m detections. Refusals in their order: the distances' 7, 9, a window age's 8, the assignment's 10.
// Arrays and counts stand side by side, as the tracker's table and the batch have them, where a count may be anything.
pub fn pair_tracks(
    rows: [Row; MAX_TRACKS],
    n: usize,
    seen: [Detection; MAX_OBSERVATIONS],
    m: usize,
    time: i64,
    rule: PairConfig,
    window: Option<i64>,
) -> Result<Paired, Refusal>
    ensures { RowsMatch rule (take n rows) (take m seen) (rows_taken rule window time (take n rows) (take m seen)) result }
{
    let count = tables::taken(n, MAX_TRACKS);
    let columns = tables::taken(m, MAX_OBSERVATIONS);
    let tracks = &rows[..count];
    let mut costs = [0.0f64; 4096];
    let mut takers = [64usize; 64];
    cost_table::price_table(tracks, &seen[..columns], rule, &mut costs)?;
    let gate = rule.gate_squared_mahalanobis;
    let table = Table {
        costs: &costs[..count * columns],
        rows: count,
        columns,
    };
    match assign_columns(table, tracks, time, gate, window, &mut takers) {
        Err(why) => Err(why),
        Ok(()) => {
            let ids = pairing::ids_of(tracks);
            Ok(tell(&ids[..count], &takers[..columns], &costs))
        }
    }
}
