// A group's own table: its rows and columns, gathered from the cost table that is lent.
// `continue` at the end of an arm: so each arm has a goal of its own, which one for both would have to take apart.
ghost use Rattle.std.specs.Prelude.{◌≡◌, ◌+◌, ◌*◌, ◌≤◌, ◌<◌, length, get_or};
ghost use Rattle.std.specs.Float.{nan};
ghost use Rattle.kuhn_munkres.specs.Assignment.{largest, sentinel_of};
ghost use Rattle.groups.specs.Picks.{picked, ticks};
ghost use Rattle.assignment.specs.Picks.{bears, Laid, GatheredIn, Gathered};

// The largest of the finite costs and `first`.
pub fn largest_finite(costs: &[f64], first: f64) -> f64
    ensures { result ≡ largest first costs.now }
{
    let mut m = first;
    for x in costs {
        if number::float::is_finite(*x) {
            m = number::float::larger(m, *x);
            continue;
        }
    }
    m
}

// The cost that stands for a forbidden pair, far above m, the largest cost.
pub fn sentinel(m: f64) -> f64
    ensures { result ≡ sentinel_of m }
{
    m + number::float::larger(number::float::absolute(m), 1.0) * 1.0e6 + 1.0e9
}

// How many of the names are g.
pub fn count_named(names: &[usize], g: usize) -> usize
    ensures { result ≡ ticks (bears names.now g) (length names.now) }
{
    names.iter().filter(|name| **name == g).count()
}

// A leaf of the gathering below, which stays within its arrays. The costs of one row in the columns of group g, laid from `from` on, and where they end; the row begins at `at`.
pub fn gather_row(
    costs: &[f64],
    at: usize,
    columns: usize,
    names: &[usize; 64],
    g: usize,
    own: &mut [f64],
    from: usize,
) -> usize
    requires { (at + columns ≤ length costs.now) × (columns ≤ 64) × (from + columns ≤ length own.old) × (length own.old ≤ 4096) }
    ensures { Laid (length own.old) own.old own.new from result (picked (bears names.now g) (λ j. get_or costs.now (at + j) nan) columns) }
{
    let mut k = from;
    for (j, name) in names[..columns].iter().enumerate() {
        if *name == g {
            own[k] = costs[at + j];
            k += 1;
            continue;
        }
    }
    k
}

// The rows of group g, in `members`, and their costs in its columns, in `own`, which has room for all costs; how many rows it has. A leaf: the solver of groups brings the room.
pub fn gather_in(
    costs: &[f64],
    rows: usize,
    columns: usize,
    row_names: &[usize; 64],
    column_names: &[usize; 64],
    g: usize,
    own: &mut [f64],
    members: &mut [usize; 64],
) -> usize
    requires { (rows ≤ 64) × (columns ≤ 64) × (length costs.now ≡ rows * columns) × (rows * columns ≤ length own.old) × (length own.old ≤ 4096) }
    ensures { GatheredIn (length own.old) costs.now rows columns row_names.now column_names.now g own.new members.new result }
{
    let mut k = 0usize;
    let mut r = 0usize;
    for (i, name) in row_names[..rows].iter().enumerate() {
        if *name == g {
            k = gather_row(costs, i * columns, columns, column_names, g, own, k);
            members[r] = i;
            r += 1;
            continue;
        }
    }
    r
}

// The same into an array for the largest table. A leaf: the stages of a cascade lend arrays of their own and counts of at most 64.
pub fn gather(
    costs: &[f64],
    rows: usize,
    columns: usize,
    row_names: &[usize; 64],
    column_names: &[usize; 64],
    g: usize,
    own: &mut [f64; 4096],
    members: &mut [usize; 64],
) -> usize
    requires { (rows ≤ 64) × (columns ≤ 64) × (length costs.now ≡ rows * columns) }
    ensures { Gathered costs.now rows columns row_names.now column_names.now g own.new members.new result }
{
    gather_in(
        costs,
        rows,
        columns,
        row_names,
        column_names,
        g,
        own,
        members,
    )
}
