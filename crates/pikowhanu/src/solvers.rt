// The root and the assignment for C programs.
ghost use Rattle.c_solvers.specs.Boundary.{RootCall};
ghost use Rattle.c_solvers.specs.Mates.{AssignmentCall};

// The square root of x into out.
#[unsafe(no_mangle)]
pub extern "C" fn pk_root(x: f64, out: &mut f64) -> u32
    ensures { RootCall x result out.old out.new }
{
    c_solvers::root::square_root(x, out)
}

// The column that each row is paired with, into mates; 2^64 - 1 for a row that is left alone.
#[unsafe(no_mangle)]
pub extern "C" fn pk_linear_assignment(
    costs: &[f64],
    rows: usize,
    columns: usize,
    row_cost: f64,
    column_cost: f64,
    mates: &mut [u64],
) -> u32
    ensures { AssignmentCall costs.now rows columns row_cost column_cost result mates.old mates.new }
{
    c_solvers::mates::linear_assignment(costs, rows, columns, row_cost, column_cost, mates)
}
