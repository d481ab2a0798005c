// The least-cost pairing of rows with columns, and who is left: joined groups, each by the steps of `hungarian_square`.
#![tactic(auto)]

mod joining;
mod pair_lists;
pub mod table;
mod takers;
mod union_find;

ghost use Rattle.std.specs.Prelude.{◌≡◌, replicate, ◌≤◌};
ghost use Rattle.kuhn_munkres.specs.Assignment.{takers_reply, pairs_of, assignment_reply};
ghost use Rattle.assignment.specs.Listing.{assignment_of, AssignmentAnswer};
ghost use Rattle.assignment.specs.Taking.{takers_of};
ghost use Rattle.assignment.specs.Replies.{number_of, reply_of};
ghost use Rattle.hungarian.specs.Ends as run;

use hungarian::RunError;

// Why a call is declined: too many rows or columns, an unmatched cost that is not finite, a table of another size or a step that is not finite.
#[derive(Clone, Copy, PartialEq, Eq)]
pub enum AssignmentError {
    TooMany,
    NonFinite,
    Failed,
}

impl From<RunError> for AssignmentError {
    ghost from_gives = { λ x e. number_of e ≡ run.number_of x };

    fn from(why: RunError) -> AssignmentError {
        match why {
            RunError::TooMany => AssignmentError::TooMany,
            RunError::Failed => AssignmentError::Failed,
        }
    }
}

// 01's number of a refusal.
impl From<AssignmentError> for u32 {
    ghost from_gives = { λ why number. number ≡ number_of why };

    fn from(why: AssignmentError) -> u32 {
        match why {
            AssignmentError::TooMany => 11,
            AssignmentError::NonFinite => 9,
            AssignmentError::Failed => 10,
        }
    }
}

// Pairs by ascending row, and the rows and columns that are left, ascending: each list in front of its array, zeros after it.
// Fixed room and counts, as there is no heap.
#[derive(Clone, Copy)]
pub struct Assignment {
    pub pair_rows: [usize; 64],
    pub pair_columns: [usize; 64],
    pub pair_count: usize,
    pub unmatched_rows: [usize; 64],
    pub unmatched_row_count: usize,
    pub unmatched_columns: [usize; 64],
    pub unmatched_column_count: usize,
}

// The row that takes each column, into `takers`, which has 64 everywhere at first.
// A leaf, which the pairing of a batch calls too: its callers lend takers that they have just made. What a refusal leaves in them is open; no caller reads it.
pub fn pair_columns(
    costs: &[f64],
    rows: usize,
    columns: usize,
    row_cost: f64,
    column_cost: f64,
    takers: &mut [usize; 64],
) -> Result<(), AssignmentError>
    requires { takers.old ≡ replicate 64 64 }
    ensures { reply_of result (takers_of columns takers.new) ≡ takers_reply costs.now rows columns row_cost column_cost }
{
    if rows > 64 || columns > 64 {
        return Err(AssignmentError::TooMany);
    }
    if !number::float::is_finite(row_cost) || !number::float::is_finite(column_cost) {
        return Err(AssignmentError::NonFinite);
    }
    if costs.len() != rows * columns {
        return Err(AssignmentError::Failed);
    }
    takers::pair_table(costs, rows, columns, row_cost, column_cost, takers)?;
    Ok(())
}

// The pairs and lists of the takers.
fn listed(takers: &[usize; 64], rows: usize, columns: usize) -> Assignment
    requires { (rows ≤ 64) × (columns ≤ 64) }
    ensures { result ≡ assignment_of (pairs_of rows (takers_of columns takers.now)) }
{
    let mut pair_rows = [0usize; 64];
    let mut pair_columns = [0usize; 64];
    let mut unmatched_rows = [0usize; 64];
    let mut unmatched_columns = [0usize; 64];
    let pair_count = pair_lists::list_rows(
        takers,
        rows,
        columns,
        &mut pair_rows,
        &mut pair_columns,
        &mut unmatched_rows,
    );
    let unmatched_column_count = pair_lists::list_columns(takers, columns, &mut unmatched_columns);
    let unmatched_row_count = rows - pair_count;
    Assignment {
        pair_rows,
        pair_columns,
        pair_count,
        unmatched_rows,
        unmatched_row_count,
        unmatched_columns,
        unmatched_column_count,
    }
}

// The pairing of rows with columns for a table of costs, row after row: a cost that is not finite forbids its pair, and each row and each column that stays
// alone has a cost of its own.
pub fn linear_assignment(
    costs: &[f64],
    rows: usize,
    columns: usize,
    unmatched_row_cost: f64,
    unmatched_column_cost: f64,
) -> Result<Assignment, AssignmentError>
    ensures { AssignmentAnswer costs.now rows columns unmatched_row_cost unmatched_column_cost result }
{
    let mut takers = [64usize; 64];
    pair_columns(
        costs,
        rows,
        columns,
        unmatched_row_cost,
        unmatched_column_cost,
        &mut takers,
    )?;
    Ok(listed(&takers, rows, columns))
}
