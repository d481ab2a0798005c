// Pairs and unmatched lists, ascending, from the row that takes each column; 64 for none.
// `continue` at the end of an arm: so each arm has a goal of its own, which one for both would have to take apart.
// Seen by this crate alone: `linear_assignment` calls it with counts that passed its checks and arrays that it has just made.
ghost use Rattle.std.specs.Prelude.{◌≡◌, ◌==◌, ◌≤◌, position, replicate};
ghost use Rattle.assignment.specs.Listing.{RowsListed, ColumnsListed};
ghost use Rattle.assignment.specs.Taking.{takers_of};

// The column that row i takes.
pub fn column_of(takers: &[usize], i: usize) -> Option<usize>
    ensures { result ≡ position (λ x. x == i) takers.now }
{
    takers.iter().position(|taker| *taker == i)
}

// The pairs, row by row, and the rows that are left; how many pairs there are. The arrays have zeros at first.
pub fn list_rows(
    takers: &[usize; 64],
    rows: usize,
    columns: usize,
    pair_rows: &mut [usize; 64],
    pair_columns: &mut [usize; 64],
    free: &mut [usize; 64],
) -> usize
    requires { (rows ≤ 64) × (columns ≤ 64) × (pair_rows.old ≡ replicate 64 0) × (pair_columns.old ≡ replicate 64 0) × (free.old ≡ replicate 64 0) }
    ensures { RowsListed (takers_of columns takers.now) rows pair_rows.new pair_columns.new free.new result }
{
    let mut n = 0usize;
    let mut left = 0usize;
    for i in 0..rows {
        match column_of(&takers[..columns], i) {
            Some(j) => {
                pair_rows[n] = i;
                pair_columns[n] = j;
                n += 1;
                continue;
            }
            None => {
                free[left] = i;
                left += 1;
            }
        }
    }
    n
}

// The columns that are left; how many there are. The array has zeros at first.
pub fn list_columns(takers: &[usize; 64], columns: usize, free: &mut [usize; 64]) -> usize
    requires { (columns ≤ 64) × (free.old ≡ replicate 64 0) }
    ensures { ColumnsListed (takers_of columns takers.now) free.new result }
{
    let mut n = 0usize;
    for (j, taker) in takers[..columns].iter().enumerate() {
        if *taker < 64 {
            continue;
        }
        free[n] = j;
        n += 1;
    }
    n
}
