// The steps of `hungarian_square` on the padded square of one group: shortest augmenting paths, row after row. The entries of the square are worked out from
// the group's own table. A column that is used has a NaN in `minv`, so that no loop asks which they are.
// The costs, the shape and the arrays of a search stay parameters of their own, and so do the facts of the first two: in a struct that lends the costs (tried), each
// clause speaks of two moments of it, as `table.entry.costs.now`, which is longer than the facts that it saves.
// The arrays of a search have 129 places for a group of any size, and the number beside them is where a loop ends, not their length: the type says that an index up
// to 128 is inside, which a slice would have each function ask. `lower` alone visits every place that it is lent, and so takes a slice.
#![tactic(auto)]

ghost use Rattle.std.specs.Prelude.{◌≡◌, cond, ℕ, ◌+◌, ◌*◌, ◌≤◌, ◌<◌, length, get_or};
ghost use Rattle.std.specs.Float.Ieee.{lt};
ghost use Rattle.std.specs.Float.Ieee.Scale.{finite};
ghost use Rattle.kuhn_munkres.specs.Binary64.{float};
ghost use Rattle.kuhn_munkres.specs.Ranges.{Sane};
ghost use Rattle.kuhn_munkres.specs.Square.{entry};
ghost use Rattle.kuhn_munkres.specs.Steps.{search, back, rows};
ghost use Rattle.hungarian.specs.Passes.{better, chosen, lowered, paid, two, pots, Evenly, Listed, Pays, QuietIf, FreeIf, relaxed};
ghost use Rattle.hungarian.specs.Structs.{least_of, square_from};
ghost use Rattle.hungarian.specs.Ends.{begun, met, met_of, end_of, pick_end, number_of, RunAnswer};

#[derive(Clone, Copy)]
pub struct Shape {
    pub rows: usize,
    pub cols: usize,
    pub far: f64,
    pub row: f64,
    pub col: f64,
}

#[derive(Clone, Copy)]
pub struct Best {
    pub delta: f64,
    pub j1: usize,
}

fn allowed(c: f64, far: f64) -> f64
    ensures { result ≡ cond (finite c) c far }
{
    if number::float::is_finite(c) { c } else { far }
}

fn lesser(cur: f64, old: f64) -> f64
    ensures { result ≡ cond (lt cur old) cur old }
{
    if cur < old { cur } else { old }
}

fn from(cur: f64, old: f64, j0: usize, w: usize) -> usize
    ensures { result ≡ cond (lt cur old) j0 w }
{
    if cur < old { j0 } else { w }
}

// Columns lo + 1 .. hi, all of which cost e.
fn relax_even(
    e: f64,
    lo: usize,
    hi: usize,
    ui: f64,
    j0: usize,
    v: &[f64; 129],
    minv: &mut [f64; 129],
    way: &mut [usize; 129],
)
    requires { (lo ≤ hi) × (hi ≤ 128) }
    ensures { Evenly float e ui v.now j0 lo hi (two minv.old way.old) (two minv.new way.new) }
{
    for k in lo..hi {
        let j = k + 1;
        let cur = e - ui - v[j];
        let old = minv[j];
        let w = way[j];
        minv[j] = lesser(cur, old);
        way[j] = from(cur, old, j0, w);
    }
}

fn step(b: Best, x: f64, j: usize) -> Best
    ensures { least_of result ≡ better float j x (least_of b) }
{
    if x < b.delta {
        Best { delta: x, j1: j }
    } else {
        b
    }
}

// The least of columns 1 .. hi, where b is that of columns 1 .. lo.
fn choose_from(minv: &[f64; 129], lo: usize, hi: usize, first: Best) -> Best
    requires { (lo ≤ hi) × (hi ≤ 128) × (least_of first ≡ chosen float minv.now lo) }
    ensures { least_of result ≡ chosen float minv.now hi }
{
    let mut b = first;
    for k in lo..hi {
        let j = k + 1;
        b = step(b, minv[j], j);
    }
    b
}

// Whether none of columns k + 1 .. k + 8 is below d. The eight tests are joined by `|`, which takes no branch, where `any` over a part would take eight.
fn quiet(minv: &[f64; 129], k: usize, d: f64) -> bool
    requires { k + 8 ≤ 128 }
    ensures { QuietIf float result minv.now k d }
{
    !((minv[k + 1] < d)
        | (minv[k + 2] < d)
        | (minv[k + 3] < d)
        | (minv[k + 4] < d)
        | (minv[k + 5] < d)
        | (minv[k + 6] < d)
        | (minv[k + 7] < d)
        | (minv[k + 8] < d))
}

// Every place falls by delta.
fn lower(minv: &mut [f64], delta: f64)
    ensures { minv.new ≡ lowered float delta minv.old (length minv.old) }
{
    for x in minv.iter_mut() {
        *x -= delta;
    }
}

// Places lo .. hi - 1: those used pay delta. `continue` at the end of the arm: so it has a goal of its own, which one for both would have to take apart.
fn pay_from(
    u: &mut [f64; 129],
    v: &mut [f64; 129],
    p: &[usize; 129],
    used: &[bool; 129],
    lo: usize,
    hi: usize,
    delta: f64,
)
    requires { (lo ≤ hi) × (hi ≤ 129) × ((k : ℕ) → get_or p.now k 0 < 129) }
    ensures { Pays float used.now p.now delta lo hi (pots u.old v.old) (pots u.new v.new) }
{
    for k in lo..hi {
        if used[k] {
            let i = p[k];
            u[i] = u[i] + delta;
            v[k] = v[k] - delta;
            continue;
        }
    }
}

// Columns lo + 1 .. hi, whose costs stand in the table from at + lo.
fn relax_table(
    costs: &[f64],
    at: usize,
    far: f64,
    lo: usize,
    hi: usize,
    ui: f64,
    j0: usize,
    v: &[f64; 129],
    minv: &mut [f64; 129],
    way: &mut [usize; 129],
)
    requires { (lo ≤ hi) × (hi ≤ 128) × (at + hi ≤ length costs.now) }
    ensures { Listed float costs.now at far ui v.now j0 lo hi (two minv.old way.old) (two minv.new way.new) }
{
    for k in lo..hi {
        let j = k + 1;
        let e = allowed(costs[at + k], far);
        let cur = e - ui - v[j];
        let old = minv[j];
        let w = way[j];
        minv[j] = lesser(cur, old);
        way[j] = from(cur, old, j0, w);
    }
}

// The least of columns 1 .. n, the first on a tie: eight at a time where none is below.
fn choose(minv: &[f64; 129], n: usize) -> Best
    requires { n ≤ 128 }
    ensures { least_of result ≡ chosen float minv.now n }
{
    let mut b = Best {
        delta: f64::INFINITY,
        j1: 0,
    };
    for block in 0..n / 8 {
        let k = 8 * block;
        if !quiet(minv, k, b.delta) {
            b = choose_from(minv, k, k + 8, b);
        }
    }
    choose_from(minv, 8 * (n / 8), n, b)
}

// The first pass of a scan: the row i0 of the square, stretch by stretch.
fn relax_row(
    costs: &[f64],
    q: Shape,
    i0: usize,
    ui: f64,
    j0: usize,
    v: &[f64; 129],
    minv: &mut [f64; 129],
    way: &mut [usize; 129],
)
    requires { (0 < i0) × (q.rows ≤ 64) × (q.cols ≤ 64) × (i0 ≤ q.rows + q.cols) × (length costs.now ≡ q.rows * q.cols) }
    ensures { two minv.new way.new ≡ relaxed float (entry float (square_from costs.now q) i0) ui v.now j0 (two minv.old way.old) (q.rows + q.cols) }
{
    let rows = q.rows;
    let cols = q.cols;
    let n = rows + cols;
    if i0 <= rows {
        let at = (i0 - 1) * cols;
        let own = cols + i0;
        relax_table(costs, at, q.far, 0, cols, ui, j0, v, minv, way);
        relax_even(q.far, cols, own - 1, ui, j0, v, minv, way);
        relax_even(q.row, own - 1, own, ui, j0, v, minv, way);
        relax_even(q.far, own, n, ui, j0, v, minv, way);
    } else {
        let o = i0 - rows;
        relax_even(q.far, 0, o - 1, ui, j0, v, minv, way);
        relax_even(q.col, o - 1, o, ui, j0, v, minv, way);
        relax_even(q.far, o, cols, ui, j0, v, minv, way);
        relax_even(0.0, cols, n, ui, j0, v, minv, way);
    }
}

// Sets row i0 against what the columns have had so far, and picks the least of them.
fn look(
    costs: &[f64],
    q: Shape,
    i0: usize,
    ui: f64,
    j0: usize,
    v: &[f64; 129],
    minv: &mut [f64; 129],
    way: &mut [usize; 129],
) -> Best
    requires { (0 < i0) × (q.rows ≤ 64) × (q.cols ≤ 64) × (i0 ≤ q.rows + q.cols) × (length costs.now ≡ q.rows * q.cols) }
    ensures { (two minv.new way.new ≡ relaxed float (entry float (square_from costs.now q) i0) ui v.now j0 (two minv.old way.old) (q.rows + q.cols)) × (least_of result ≡ chosen float minv.new (q.rows + q.cols)) }
{
    relax_row(costs, q, i0, ui, j0, v, minv, way);
    let n = q.rows + q.cols;
    choose(minv, n)
}

// Whether none of places k .. k + 7 is used: joined by `|`, which takes no branch, as in `quiet`.
fn free8(used: &[bool; 129], k: usize) -> bool
    requires { k + 8 ≤ 129 }
    ensures { FreeIf result used.now k }
{
    !(used[k]
        | used[k + 1]
        | used[k + 2]
        | used[k + 3]
        | used[k + 4]
        | used[k + 5]
        | used[k + 6]
        | used[k + 7])
}

// The places that are used pay delta: eight at a time where none is used.
fn pay(
    u: &mut [f64; 129],
    v: &mut [f64; 129],
    p: &[usize; 129],
    used: &[bool; 129],
    n: usize,
    delta: f64,
)
    requires { (n ≤ 128) × ((k : ℕ) → get_or p.now k 0 < 129) }
    ensures { pots u.new v.new ≡ paid float used.now p.now delta (pots u.old v.old) (n + 1) }
{
    let end = n + 1;
    for block in 0..end / 8 {
        let k = 8 * block;
        if !free8(used, k) {
            pay_from(u, v, p, used, k, k + 8, delta);
        }
    }
    pay_from(u, v, p, used, 8 * (end / 8), end, delta);
}

// The step by delta.
fn shift_all(
    u: &mut [f64; 129],
    v: &mut [f64; 129],
    minv: &mut [f64; 129],
    p: &[usize; 129],
    used: &[bool; 129],
    n: usize,
    delta: f64,
)
    requires { (n ≤ 128) × ((k : ℕ) → get_or p.now k 0 < 129) }
    ensures { (pots u.new v.new ≡ paid float used.now p.now delta (pots u.old v.old) (n + 1)) × (minv.new ≡ lowered float delta minv.old (n + 1)) }
{
    pay(u, v, p, used, n, delta);
    lower(&mut minv[..n + 1], delta);
}

// Why a search ends without a free column: a step that is not finite; no turns left, which does not happen.
#[derive(Clone, Copy, PartialEq, Eq)]
pub enum SearchError {
    NotFinite,
    Spent,
}

// Looks for a free column from place 0, where the new row stands. The turns are counted: there are no more than columns.
fn find_path(
    costs: &[f64],
    q: Shape,
    u: &mut [f64; 129],
    v: &mut [f64; 129],
    p: &[usize; 129],
    way: &mut [usize; 129],
) -> Result<usize, SearchError>
    requires { (q.rows ≤ 64) × (q.cols ≤ 64) × (length costs.now ≡ q.rows * q.cols) × Sane (q.rows + q.cols) (begun u.old v.old p.now way.old) × (0 < get_or p.now 0 0) }
    ensures { met_of result u.new v.new way.new p.now ≡ met (search float (entry float (square_from costs.now q)) (q.rows + q.cols) (q.rows + q.cols + 1) (begun u.old v.old p.now way.old)) }
{
    let top = f64::INFINITY;
    let n = q.rows + q.cols;
    let mut minv = [top; 129];
    let mut used = [false; 129];
    let mut j0: usize = 0;
    for t in 0..n + 1 {
        let i0 = p[j0];
        let ui = u[i0];
        used[j0] = true;
        minv[j0] = f64::NAN;
        let b = look(costs, q, i0, ui, j0, v, &mut minv, way);
        if !number::float::is_finite(b.delta) {
            return Err(SearchError::NotFinite);
        }
        shift_all(u, v, &mut minv, p, &used, n, b.delta);
        j0 = b.j1;
        if p[j0] == 0 {
            return Ok(j0);
        }
    }
    Err(SearchError::Spent)
}

// Turns the path round: each column on it takes the row of the column before.
fn walk_back(p: &mut [usize; 129], way: &[usize; 129], n: usize, j: usize)
    requires { (n ≤ 128) × (j ≤ n) × ((k : ℕ) → get_or way.now k 0 ≤ n) }
    ensures { p.new ≡ back float (n + 1) way.now p.old j }
{
    let mut j0 = j;
    for t in 0..n + 1 {
        let j1 = way[j0];
        p[j0] = p[j1];
        if j1 == 0 {
            return;
        }
        j0 = j1;
    }
}

// All rows, one after the other: the row of each column.
fn hungarian_square(costs: &[f64], q: Shape, p: &mut [usize; 129]) -> Result<(), SearchError>
    requires { (q.rows ≤ 64) × (q.cols ≤ 64) × (length costs.now ≡ q.rows * q.cols) }
    ensures { pick_end result p.new ≡ end_of (rows float (entry float (square_from costs.now q)) (q.rows + q.cols) (q.rows + q.cols)) }
{
    let n = q.rows + q.cols;
    let mut u = [0.0f64; 129];
    let mut v = [0.0f64; 129];
    let mut way = [0usize; 129];
    *p = [0usize; 129];
    for k in 0..n {
        p[0] = k + 1;
        let j = find_path(costs, q, &mut u, &mut v, p, &mut way)?;
        walk_back(p, &way, n, j);
    }
    Ok(())
}

// Why a run is declined: too many rows or columns; a table of another size, or a step that is not finite.
#[derive(Clone, Copy, PartialEq, Eq)]
pub enum RunError {
    TooMany,
    Failed,
}

impl From<SearchError> for RunError {
    ghost from_gives = { λ x e. number_of e ≡ 10 };

    fn from(_why: SearchError) -> RunError {
        RunError::Failed
    }
}

// The row of each column of the padded square, both counted from 1, into p; p is left as it was where the call is declined.
pub fn solve(costs: &[f64], q: Shape, p: &mut [usize; 129]) -> Result<(), RunError>
    ensures { RunAnswer costs.now q result p.old p.new }
{
    if q.rows > 64 || q.cols > 64 {
        return Err(RunError::TooMany);
    }
    if costs.len() != q.rows * q.cols {
        return Err(RunError::Failed);
    }
    let mut taken = [0usize; 129];
    match hungarian_square(costs, q, &mut taken) {
        Ok(()) => {
            *p = taken;
            Ok(())
        }
        Err(why) => Err(RunError::from(why)),
    }
}
