// The joined groups of rows and columns: each row is joined with the columns that it may pair with, and a group is named by the last of its rows.
// `continue` at the end of an arm: so each arm has a goal of its own, which one for both would have to take apart.
// Seen by this crate alone: what its functions ask is met by `named_groups`, and that by `pair_columns`, which refuses tables of other sizes first.
ghost use Rattle.std.specs.Prelude.{◌≡◌, ◌+◌, ◌*◌, ◌≤◌, ◌<◌, length, replicate};
ghost use Rattle.std.specs.Float.Ieee.Scale.{finite};
ghost use Rattle.kuhn_munkres.specs.Groups.{labels};
ghost use Rattle.kuhn_munkres.specs.Assignment.{rows_of};
ghost use Rattle.assignment.specs.Forest.{Ranked};
ghost use Rattle.assignment.specs.Labelling.{Roomy, RowJoined, Alone, Grouped, Passed, ReadOff, NamedBy};

use crate::union_find::Forest;

// Joins row i with each of its columns that it may pair with. Its costs begin at `at`, the columns' items at `base`.
pub fn join_row(
    costs: &[f64],
    at: usize,
    columns: usize,
    base: usize,
    i: usize,
    forest: &mut Forest,
)
    requires { (at + columns ≤ length costs.now) × (base + columns ≤ 128) × (i < 128) × Roomy columns forest.old.parent forest.old.rank }
    ensures { RowJoined costs.now at base i columns forest.old.parent forest.old.rank forest.new.parent forest.new.rank }
{
    for (j, cost) in costs[at..at + columns].iter().enumerate() {
        if number::float::is_finite(*cost) {
            forest.union(i, base + j);
            continue;
        }
    }
}

// Joins all rows with the columns that they may pair with. The parents stand alone, and all ranks are zero at first.
pub fn join_all(costs: &[f64], rows: usize, columns: usize, forest: &mut Forest)
    requires { (rows ≤ 64) × (columns ≤ 64) × (length costs.now ≡ rows * columns) × Alone forest.old.parent × (forest.old.rank ≡ replicate 128 0) }
    ensures { Grouped costs.now rows columns forest.new.parent forest.new.rank }
{
    for i in 0..rows {
        join_row(costs, i * columns, columns, rows, i, forest);
    }
}

// The last row of each tree, at its root; 64 where it has none.
pub fn last_rows(rows: usize, forest: &mut Forest) -> [usize; 128]
    requires { (rows ≤ 64) × Ranked forest.old.parent forest.old.rank }
    ensures { Passed rows forest.old.parent forest.old.rank forest.new.parent result × (forest.new.rank ≡ forest.old.rank) }
{
    let mut last = [64usize; 128];
    for i in 0..rows {
        let root = forest.find(i);
        last[root] = i;
    }
    last
}

// What stands at the roots of the items from base on, count of them.
pub fn read_off(base: usize, count: usize, forest: &mut Forest, last: &[usize; 128]) -> [usize; 64]
    requires { (count ≤ 64) × (base ≤ 64) × Ranked forest.old.parent forest.old.rank }
    ensures { ReadOff base count forest.old.parent forest.old.rank last.now forest.new.parent result × (forest.new.rank ≡ forest.old.rank) }
{
    let mut names = [0usize; 64];
    for i in 0..count {
        let root = forest.find(base + i);
        names[i] = last[root];
    }
    names
}

// The row that names each row's group, and each column's; 64 for a column that is in none.
#[derive(Clone, Copy)]
pub struct Names {
    pub of_rows: [usize; 64],
    pub of_columns: [usize; 64],
}

// The groups of a table: union-find over its rows and columns, then each group's last row for its name.
pub fn named_groups(costs: &[f64], rows: usize, columns: usize) -> Names
    requires { (rows ≤ 64) × (columns ≤ 64) × (length costs.now ≡ rows * columns) }
    ensures { NamedBy (labels finite (rows_of rows columns costs.now) columns) rows columns result.of_rows result.of_columns }
{
    let mut forest = Forest::new();
    join_all(costs, rows, columns, &mut forest);
    let last = last_rows(rows, &mut forest);
    let of_rows = read_off(0, rows, &mut forest, &last);
    let of_columns = read_off(rows, columns, &mut forest, &last);
    Names {
        of_rows,
        of_columns,
    }
}
