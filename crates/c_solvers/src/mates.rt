// The assignment for C programs: for each row its column, from the pairs by ascending row.
ghost use Rattle.std.specs.Prelude.{◌≡◌, ◌≤◌, length};
ghost use Rattle.c_solvers.specs.Mates.{hits, MatesWritten, AssignmentCall};

// What stands for the column of a row that is left alone.
const ALONE: u64 = 0xffff_ffff_ffff_ffff;

// Whether the k-th pair, if there is one, is row i's.
fn is_next(pair_rows: &[usize], k: usize, i: usize) -> bool
    ensures { result ≡ hits pair_rows.now (length pair_rows.now) k i }
{
    pair_rows.get(k).is_some_and(|row| *row == i)
}

// Each row's column into the first places of mates. The arrays and their count are fields of an `Assignment`, and what they hold is said of whole arrays.
fn write_mates<'a>(
    pair_rows: &'a [usize; 64],
    pair_columns: &'a [usize; 64],
    count: usize,
    rows: usize,
    mates: &mut [u64],
)
    requires { (count ≤ 64) × (rows ≤ length mates.old) }
    ensures { MatesWritten rows pair_rows.now pair_columns.now count mates.old mates.new }
{
    let mut k = 0usize;
    for i in 0..rows {
        if is_next(&pair_rows[..count], k, i) {
            mates[i] = pair_columns[k] as u64;
            k += 1;
            continue;
        }
        mates[i] = ALONE;
    }
}

// The column that each row is paired with, into mates; 2^64 - 1 for a row that is left alone.
pub fn linear_assignment(
    costs: &[f64],
    rows: usize,
    columns: usize,
    row_cost: f64,
    column_cost: f64,
    mates: &mut [u64],
) -> u32
    ensures { AssignmentCall costs.now rows columns row_cost column_cost result mates.old mates.new }
{
    if mates.len() < rows {
        return 11;
    }
    match assignment::linear_assignment(costs, rows, columns, row_cost, column_cost) {
        Ok(found) => {
            write_mates(
                &found.pair_rows,
                &found.pair_columns,
                found.pair_count,
                rows,
                mates,
            );
            0
        }
        Err(why) => u32::from(why),
    }
}
