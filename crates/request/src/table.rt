// The table: rows of costs in brackets, stored row after row.
// Seen by this crate alone: `read_request` lends an array that it has just made. It has the room of the largest table, and `k` beside it is where a row's costs begin,
// not its length.
ghost use Rattle.std.specs.Prelude.{◌≡◌, true, ◌≤◌, length, drop, set};
ghost use Rattle.request.specs.Listed.{listed};
ghost use Rattle.request.specs.Request.{entry_of, row_of, table_of, row_told, RowRead, table_told, TableRead};

use crate::words::Found;

// How many rows, and whether each has the stated columns.
#[derive(Clone, Copy)]
pub struct Rows {
    pub count: usize,
    pub even: bool,
}

// Stores a cost, where the array has its place.
fn store(costs: &mut [f64], k: usize, v: f64)
    ensures { costs.new ≡ set costs.old k v }
{
    if k < costs.len() {
        costs[k] = v;
    }
}

// One entry or more, and the closing bracket: how many. Their costs are stored from `k` on.
fn entries(s: &[u8], from: usize, costs: &mut [f64; 4096], k: usize) -> Option<Found<usize>>
    requires { (from ≤ length s.now) × (k ≤ from) }
    ensures { RowRead (row_told k costs.old s.now (listed entry_of (drop from s.now))) from result costs.new }
{
    let mut i = from;
    let mut n = 0;
    loop {
        let cost = crate::words::entry(s, i)?;
        let next = *s.get(cost.end)?;
        store(costs, k + n, cost.value);
        n += 1;
        i = cost.end + 1;
        match next {
            b')' => return Some(Found { value: n, end: i }),
            b' ' => continue,
            _ => return None,
        }
    }
}

// A row: entries in brackets, or none; how many.
fn read_row(s: &[u8], at: usize, costs: &mut [f64; 4096], k: usize) -> Option<Found<usize>>
    requires { k ≤ at }
    ensures { RowRead (row_told k costs.old s.now (row_of (drop at s.now))) at result costs.new }
{
    if *s.get(at)? != b'(' {
        return None;
    }
    if *s.get(at + 1)? == b')' {
        return Some(Found {
            value: 0,
            end: at + 2,
        });
    }
    entries(s, at + 1, costs, k)
}

// One row or more, and the closing bracket. A loop of its own, and not one with `entries` over a closure: a row counts its entries, and a table its rows, the
// places of their costs, and whether they are even.
fn read_rows(s: &[u8], from: usize, columns: usize, costs: &mut [f64; 4096]) -> Option<Found<Rows>>
    requires { from ≤ length s.now }
    ensures { TableRead (table_told columns costs.old s.now (listed row_of (drop from s.now))) result costs.new }
{
    let mut i = from;
    let mut k = 0;
    let mut count = 0;
    let mut even = true;
    loop {
        let row = read_row(s, i, costs, k)?;
        let next = *s.get(row.end)?;
        k += row.value;
        count += 1;
        even = even & (row.value == columns);
        i = row.end + 1;
        match next {
            b')' => {
                let value = Rows { count, even };
                return Some(Found { value, end: i });
            }
            b' ' => continue,
            _ => return None,
        }
    }
}

// The table: rows in brackets, or none; the costs are stored row after row.
pub fn read_table(
    s: &[u8],
    at: usize,
    columns: usize,
    costs: &mut [f64; 4096],
) -> Option<Found<Rows>>
    ensures { TableRead (table_told columns costs.old s.now (table_of (drop at s.now))) result costs.new }
{
    if *s.get(at)? != b'(' {
        return None;
    }
    if *s.get(at + 1)? == b')' {
        let value = Rows {
            count: 0,
            even: true,
        };
        return Some(Found { value, end: at + 2 });
    }
    read_rows(s, at + 1, columns, costs)
}
