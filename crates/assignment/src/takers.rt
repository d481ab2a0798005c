// The row that takes each column, group after group.
// `continue` at the end of an arm: so each arm has a goal of its own, which one for both would have to take apart.
// Seen by this crate alone: `pair_columns` refuses tables of other sizes before it comes here.
// The table and its counts stay parameters of their own, as in crate hungarian: `Call` is what is known of them together.
ghost use Rattle.std.specs.Prelude.{◌≡◌, ◌+◌, ◌*◌, ◌≤◌, ◌<◌, T, length, take, replicate};
ghost use Rattle.std.specs.Float.{binary64};
ghost use Rattle.std.specs.Float.Ieee.{fits};
ghost use Rattle.kuhn_munkres.specs.Binary64.{float};
ghost use Rattle.kuhn_munkres.specs.Square.{entry};
ghost use Rattle.kuhn_munkres.specs.Steps.{rows};
ghost use Rattle.kuhn_munkres.specs.Assignment.{rows_of, pairing};
ghost use Rattle.kuhn_munkres.specs.Single.{is_single, single_rows};
ghost use Rattle.hungarian.specs.Structs.{square_from};
ghost use Rattle.hungarian.specs.Ends.{end_reply, reply_of_run};
ghost use Rattle.assignment.specs.Taking.{taker_number, takers_of, Taken, Call, Room, GroupTaken, AllTaken};

use crate::joining::Names;
use hungarian::RunError;

// The row of the whole table for the row t of a group's square, whose own rows are `members`; rows of a square count from 1. 64 for a dummy.
fn taker(t: usize, members: &[usize]) -> usize
    ensures { result ≡ taker_number members.now (length members.now) t }
{
    if t == 0 {
        return 64;
    }
    members.get(t - 1).copied().unwrap_or(64)
}

// Gives each column of group g the row that p has for it.
fn take_columns(
    names: &[usize],
    g: usize,
    p: &[usize; 129],
    members: &[usize],
    takers: &mut [usize; 64],
)
    requires { length names.now ≤ 64 }
    ensures { Taken names.now g (length names.now) p.now (length members.now) members.now takers.old takers.new }
{
    let mut k = 0usize;
    for (j, name) in names.iter().enumerate() {
        if *name == g {
            k += 1;
            takers[j] = taker(p[k], members);
            continue;
        }
    }
}

// The three costs beside the table: of a forbidden pair, of a row and of a column that stay alone.
#[derive(Clone, Copy)]
pub struct Prices {
    pub far: f64,
    pub row: f64,
    pub column: f64,
}

// Whether a group is one row and one column, which a comparison settles: the costs are finite, and the column's own is a zero.
fn is_single(cost: f64, rows: usize, cols: usize, row: f64, col: f64) -> bool
    ensures { (result ≡ is_single cost rows cols row col) × T (fits binary64 cost) × T (fits binary64 row) × T (fits binary64 col) }
{
    (rows == 1) & (cols == 1) & (col == 0.0) & number::float::is_finite(cost + row)
}

// The rows of the columns for one row and one column: they are paired, unless the row's own cost is less.
fn lay_single(less: bool, p: &mut [usize; 129])
    ensures { p.new ≡ single_rows less }
{
    let mut q = [0usize; 129];
    q[0] = 2;
    if less {
        q[1] = 2;
        q[2] = 1;
    } else {
        q[1] = 1;
        q[2] = 2;
    }
    *p = q;
}

// The steps on the table in the front of `own`, which has one place at least; the rows of the columns into p.
fn solve_front(own: &[f64], shape: hungarian::Shape, p: &mut [usize; 129]) -> Result<(), RunError>
    requires { (shape.rows ≤ 64) × (shape.cols ≤ 64) × (shape.rows * shape.cols ≤ length own.now) × (0 < length own.now) }
    ensures { reply_of_run result p.new ≡ end_reply (rows float (entry float (square_from (take (shape.rows * shape.cols) own.now) shape)) (shape.rows + shape.cols) (shape.rows + shape.cols)) }
{
    let cost = own[0];
    if is_single(cost, shape.rows, shape.cols, shape.row, shape.col) {
        lay_single(shape.row < cost, p);
        return Ok(());
    }
    let end = shape.rows * shape.cols;
    hungarian::solve(&own[..end], shape, p)
}

// Group g, if there is one: its own table is solved, and its columns take their rows.
#[tactic(auto, using(crate::proofs::Picking::gathered_few))]
fn solve_group(
    costs: &[f64],
    rows: usize,
    columns: usize,
    names: &Names,
    g: usize,
    prices: Prices,
    own: &mut [f64],
    members: &mut [usize; 64],
    p: &mut [usize; 129],
    takers: &mut [usize; 64],
) -> Result<(), RunError>
    requires { Call costs.now rows columns names.now.of_rows names.now.of_columns × (g < rows) × Room rows columns own.old }
    ensures { (length own.new ≡ length own.old) × GroupTaken costs.now rows columns prices.far prices.row prices.column g result takers.old takers.new }
{
    if names.of_rows[g] != g {
        return Ok(());
    }
    let c = crate::table::count_named(&names.of_columns[..columns], g);
    if c == 0 {
        return Ok(());
    }
    let r = crate::table::gather_in(
        costs,
        rows,
        columns,
        &names.of_rows,
        &names.of_columns,
        g,
        own,
        members,
    );
    let shape = hungarian::Shape {
        rows: r,
        cols: c,
        far: prices.far,
        row: prices.row,
        col: prices.column,
    };
    solve_front(own, shape, p)?;
    take_columns(&names.of_columns[..columns], g, p, &members[..r], takers);
    Ok(())
}

// All groups, each named by its last row; `own` is for the table of one.
fn solve_groups_in(
    costs: &[f64],
    rows: usize,
    columns: usize,
    names: &Names,
    prices: Prices,
    own: &mut [f64],
    takers: &mut [usize; 64],
) -> Result<(), RunError>
    requires { Call costs.now rows columns names.now.of_rows names.now.of_columns × Room rows columns own.old }
    ensures { AllTaken costs.now rows columns prices.far prices.row prices.column result takers.old takers.new }
{
    let mut members = [0usize; 64];
    let mut p = [0usize; 129];
    for g in 0..rows {
        solve_group(
            costs,
            rows,
            columns,
            names,
            g,
            prices,
            own,
            &mut members,
            &mut p,
            takers,
        )?;
    }
    Ok(())
}

// The same, with an array of its own: a small one for a small table, since filling the large one takes longer than the rest of the call.
fn solve_groups(
    costs: &[f64],
    rows: usize,
    columns: usize,
    names: &Names,
    prices: Prices,
    takers: &mut [usize; 64],
) -> Result<(), RunError>
    requires { Call costs.now rows columns names.now.of_rows names.now.of_columns }
    ensures { AllTaken costs.now rows columns prices.far prices.row prices.column result takers.old takers.new }
{
    if costs.len() <= 256 {
        let mut own = [0.0f64; 256];
        return solve_groups_in(costs, rows, columns, names, prices, &mut own, takers);
    }
    let mut own = [0.0f64; 4096];
    solve_groups_in(costs, rows, columns, names, prices, &mut own, takers)
}

// The row that takes each column of a table, into `takers`, which has 64 everywhere at first.
pub fn pair_table(
    costs: &[f64],
    rows: usize,
    columns: usize,
    row_cost: f64,
    column_cost: f64,
    takers: &mut [usize; 64],
) -> Result<(), RunError>
    requires { (rows ≤ 64) × (columns ≤ 64) × (length costs.now ≡ rows * columns) × (takers.old ≡ replicate 64 64) }
    ensures { reply_of_run result (takers_of columns takers.new) ≡ pairing row_cost column_cost (rows_of rows columns costs.now) columns }
{
    let names = crate::joining::named_groups(costs, rows, columns);
    let largest = crate::table::largest_finite(costs, number::float::larger(row_cost, column_cost));
    let prices = Prices {
        far: crate::table::sentinel(largest),
        row: row_cost,
        column: column_cost,
    };
    solve_groups(costs, rows, columns, &names, prices, takers)
}
