// The pairing in two stages: the recent rows with all columns, then the others with the columns that are left.
// `continue` at the end of an arm: so each arm has a goal of its own, which one for both would have to take apart.
#![tactic(auto)]

ghost use Rattle.std.specs.Prelude.{◌≡◌, false, ◌*◌, ◌≤◌, length, get_or, take, replicate};
ghost use Rattle.number.specs.Reply.{given, and_then};
ghost use Rattle.kuhn_munkres.specs.Assignment.{rows_of, takers_reply};
ghost use Rattle.matrix.specs.Matrix.{nought};
ghost use Rattle.calls.specs.Pairing.{assigned};
ghost use Rattle.assignment.specs.Taking.{takers_of};
ghost use Rattle.types.specs.Refusals.{reply_of};
ghost use Rattle.cascade.specs.Stages.{row_name, column_name, member_of, scattered_at, Pointwise, Whole, StageAnswer, CascadeAnswer};

use types::refusal::Refusal;

// A table of costs, row after row.
#[derive(Clone, Copy)]
pub struct Table<'a> {
    pub costs: &'a [f64],
    pub rows: usize,
    pub columns: usize,
}

// The name of a row: 0 for one that takes part in a stage, 1 for another.
fn row_name(takes_part: bool) -> usize
    ensures { result ≡ row_name takes_part }
{
    usize::from(!takes_part)
}

// The name of a column: 0 for one that no row has taken yet, 1 for another.
fn column_name(taker: usize) -> usize
    ensures { result ≡ column_name taker }
{
    usize::from(taker < 64)
}

// The row of the whole table for the row a of the picked one, whose rows are `members`; 64 for none. No row but those of the table is ever asked for: 0 stands there
// as in the definition.
fn member(a: usize, members: &[usize]) -> usize
    ensures { result ≡ member_of members.now (length members.now) a }
{
    match members.get(a) {
        Some(i) => *i,
        None if a < 64 => 0,
        None => 64,
    }
}

// Gives each column of the name 0 the row that `picked` has for it, in order.
fn scatter(names: &[usize], picked: &[usize; 64], members: &[usize], takers: &mut [usize; 64])
    requires { length names.now ≤ 64 }
    ensures { Pointwise (scattered_at names.now picked.now (length members.now) members.now takers.old) (length names.now) takers.old takers.new }
{
    let mut k: usize = 0;
    for (j, name) in names.iter().enumerate() {
        if *name == 0 {
            takers[j] = member(picked[k], members);
            k += 1;
            continue;
        }
    }
}

// The row that takes each column of the table in the front of `own`, into `picked`, which has 64 everywhere at first.
fn solve_front(
    own: &[f64],
    rows: usize,
    columns: usize,
    gate: f64,
    picked: &mut [usize; 64],
) -> Result<(), Refusal>
    requires { (rows ≤ 64) × (columns ≤ 64) × (rows * columns ≤ length own.now) × (picked.old ≡ replicate 64 64) }
    ensures { and_then (reply_of result) (λ _. given (takers_of columns picked.new)) ≡ takers_reply (take (rows * columns) own.now) rows columns gate nought }
{
    let end = rows * columns;
    assignment::pair_columns(&own[..end], rows, columns, gate, 0.0, picked)?;
    Ok(())
}

// One stage: the rows that take part with the columns that no row has taken yet. A refusal leaves the takers as they were.
fn pair_stage(
    table: Table,
    gate: f64,
    part: &[bool; 64],
    takers: &mut [usize; 64],
) -> Result<(), Refusal>
    requires { Whole table }
    ensures { StageAnswer table.entry.costs.now table.entry.rows table.entry.columns gate part.now (reply_of result) takers.old takers.new }
{
    let m = table.columns;
    let rows = part.map(row_name);
    let columns = takers.map(column_name);
    let mut members = [0usize; 64];
    let mut picked = [64usize; 64];
    let mut own = [0.0f64; 4096];
    let c = assignment::table::count_named(&columns[..m], 0);
    let r = assignment::table::gather(
        table.costs,
        table.rows,
        m,
        &rows,
        &columns,
        0,
        &mut own,
        &mut members,
    );
    solve_front(&own, r, c, gate, &mut picked)?;
    scatter(&columns[..m], &picked, &members[..r], takers);
    Ok(())
}

// The row that takes each column, into `takers`, which has 64 everywhere at first: recent rows first, then the others on what is left.
// A leaf: the pairing stage lends a table of its own and takers that it has just made.
pub fn pair_cascade(
    table: Table,
    gate: f64,
    recent: &[bool; 64],
    takers: &mut [usize; 64],
) -> Result<(), Refusal>
    requires { Whole table × (takers.old ≡ replicate 64 64) }
    ensures { CascadeAnswer table.entry.costs.now table.entry.rows table.entry.columns gate recent.now (reply_of result) takers.old takers.new }
{
    pair_stage(table, gate, recent, takers)?;
    let others = recent.map(|x| !x);
    pair_stage(table, gate, &others, takers)
}

// The row that takes each column of the whole table, in one stage, into `takers`, which has 64 everywhere at first.
// A leaf, as above. What a refusal leaves in `takers` is open; no caller reads it.
pub fn pair_all(table: Table, gate: f64, takers: &mut [usize; 64]) -> Result<(), Refusal>
    requires { (length table.costs.now ≡ table.rows * table.columns) × (takers.old ≡ replicate 64 64) }
    ensures { (and_then (reply_of result) (λ _. given (takers_of table.entry.columns takers.new)) ≡ assigned gate (rows_of table.entry.rows table.entry.columns table.entry.costs.now) table.entry.columns) × (length takers.new ≡ 64) }
{
    assignment::pair_columns(table.costs, table.rows, table.columns, gate, 0.0, takers)?;
    Ok(())
}
