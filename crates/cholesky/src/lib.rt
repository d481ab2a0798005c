// The Cholesky factor of a matrix of N rows, whether there is one, that is, whether the matrix counts as positive definite, and the root of a pivot. Each answer is equal bit for bit to the definition of any size in specs/.
// That an index lies below a size is a clause of each function that takes one: no type says it of the number of a const parameter.
#![tactic(auto)]

ghost use Rattle.std.specs.Prelude.{◌≡◌, ◌<◌};
ghost use Rattle.cholesky.specs.Cholesky.{pivot_root, root_in, remainder, column_entry, column_by, cholesky};
ghost use Rattle.cholesky.specs.Factor.{reply_of_pivot, reply_of_factor};
ghost use Rattle.cholesky.specs.Definite.{factorable, reply_of_found};

use std::array::from_fn;

// A lower triangle of N rows, as its columns, with +0 above the diagonal.
#[derive(Clone, Copy)]
pub struct Lower<const N: usize> {
    pub columns: [[f64; N]; N],
}

// The root of p, where p is greater than 0, else +0: a number by itself is handed back without a store.
pub fn root_or_zero(p: f64) -> f64
    ensures { result ≡ root_in (pivot_root p) }
{
    if p > 0.0 {
        square_root::root(p).unwrap_or(0.0)
    } else {
        0.0
    }
}

// The root of p, where p is greater than 0.
pub fn pivot_root(p: f64) -> Option<f64>
    ensures { reply_of_pivot result ≡ pivot_root p }
{
    let d = root_or_zero(p);
    if p > 0.0 { Some(d) } else { None }
}

// Entry i, j of a, less what the columns before column j take away. Both matrices are lent, since a copy of them for each entry costs as much again.
fn remainder<const N: usize>(a: &[[f64; N]; N], l: &[[f64; N]; N], i: usize, j: usize) -> f64
    requires { (i < N) × (j < N) }
    ensures { result ≡ remainder a.now l.now i j }
{
    let mut x = a[i][j];
    for column in &l[..j] {
        x -= column[i] * column[j];
    }
    x
}

// Entry i of column j, whose pivot has the root d.
fn column_entry<const N: usize>(
    a: &[[f64; N]; N],
    l: &[[f64; N]; N],
    j: usize,
    d: f64,
    i: usize,
) -> f64
    requires { (i < N) × (j < N) }
    ensures { result ≡ column_entry a.now l.now j d i }
{
    if i < j {
        0.0
    } else if i == j {
        d
    } else {
        remainder(a, l, i, j) / d
    }
}

// Column j, whose pivot has the root d.
fn column<const N: usize>(a: &[[f64; N]; N], l: &[[f64; N]; N], j: usize, d: f64) -> [f64; N]
    requires { j < N }
    ensures { result ≡ column_by N a.now l.now j d }
{
    from_fn(
        |i| -> f64
            requires { (i < N) × (j < N) }
            ensures { result ≡ column_entry a.entry.now l.entry.now j d i }
        { column_entry(a, l, j, d, i) },
    )
}

// The Cholesky factor of a, found column by column.
pub fn cholesky<const N: usize>(a: [[f64; N]; N]) -> Option<Lower<N>>
    ensures { reply_of_factor result ≡ cholesky N a.entry }
{
    let mut columns = [[0.0; N]; N];
    for j in 0..N {
        let pivot = remainder(&a, &columns, j, j);
        let d = pivot_root(pivot)?;
        columns[j] = column(&a, &columns, j, d);
    }
    Some(Lower { columns })
}

// Whether a has a factor. The last column isn't asked for, since none reads it, and so its root isn't either.
pub fn has_factor<const N: usize>(a: [[f64; N]; N]) -> bool
    ensures { reply_of_found result ≡ factorable N a.entry }
{
    let mut l = [[0.0; N]; N];
    for j in 0..N {
        let pivot = remainder(&a, &l, j, j);
        let positive = pivot > 0.0;
        if positive {
            if j + 1 < N {
                l[j] = column(&a, &l, j, root_or_zero(pivot));
            }
        } else {
            return false;
        }
    }
    true
}
