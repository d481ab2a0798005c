// What is solved with a Cholesky factor, and the gain. Each answer is equal bit for bit to the definition of any size in specs/.
// That an index lies below a size is a clause of each function that takes one: no type says it of the number of a const parameter. A sum over two arrays goes by their common index: after `zip` an invariant has no number of the turn (tried).
#![tactic(auto)]

ghost use Rattle.std.specs.Prelude.{◌≡◌, ◌<◌, ◌+◌, ◌-◌};
ghost use Rattle.std.specs.Float.{binary64};
ghost use Rattle.std.specs.Float.Ieee.{mul};
ghost use Rattle.matrix.specs.Matrix.{item, row, entry, sum_to};
ghost use Rattle.solving.specs.Solving.{forward_item, forward, backward_item, backward, solved, gain_by};

use std::array::from_fn;

// Item i of y with L y = b, by the items before it.
fn forward_item<const N: usize>(
    columns: &[[f64; N]; N],
    b: &[f64; N],
    y: &[f64; N],
    i: usize,
) -> f64
    requires { i < N }
    ensures { result ≡ forward_item columns.now b.now i (λ k. item y.now k) }
{
    let mut x = b[i];
    for k in 0..i {
        x -= columns[k][i] * y[k];
    }
    x / columns[i][i]
}

// y with L y = b.
fn forward<const N: usize>(columns: &[[f64; N]; N], b: &[f64; N]) -> [f64; N]
    ensures { result ≡ forward N columns.now b.now }
{
    let mut y = [0.0; N];
    for i in 0..N {
        y[i] = forward_item(columns, b, &y, i);
    }
    y
}

// The terms of the items of x behind item i, from the first to the last.
fn behind<const N: usize>(columns: &[[f64; N]; N], x: &[f64; N], i: usize) -> f64
    requires { i + 1 < N }
    ensures { result ≡ sum_to (N - (i + 2)) (λ t. mul binary64 (entry columns.now i (i + 1 + t)) (item x.now (i + 1 + t))) }
{
    let mut sum = columns[i][i + 1] * x[i + 1];
    for k in i + 2..N {
        sum += columns[i][k] * x[k];
    }
    sum
}

// Item i of x with Lᵀ x = y, by the items behind it.
#[tactic(auto, using(crate::proofs::Steps::item_before, crate::proofs::Steps::item_last))]
fn backward_item<const N: usize>(
    columns: &[[f64; N]; N],
    y: &[f64; N],
    x: &[f64; N],
    i: usize,
) -> f64
    requires { i < N }
    ensures { result ≡ backward_item columns.now y.now i (N - (i + 1)) (λ t. item x.now (i + 1 + t)) }
{
    if i + 1 < N {
        (y[i] - behind(columns, x, i)) / columns[i][i]
    } else {
        y[i] / columns[i][i]
    }
}

// x with Lᵀ x = y.
fn backward<const N: usize>(columns: &[[f64; N]; N], y: &[f64; N]) -> [f64; N]
    ensures { result ≡ backward N columns.now y.now }
{
    let mut x = *y;
    for i in (0..N).rev() {
        x[i] = backward_item(columns, y, &x, i);
    }
    x
}

// x with L Lᵀ x = b.
fn solution<const N: usize>(columns: &[[f64; N]; N], b: &[f64; N]) -> [f64; N]
    ensures { result ≡ solved N columns.now b.now }
{
    backward(columns, &forward(columns, b))
}

// The same, by the factor.
pub fn solve<const N: usize>(l: cholesky::Lower<N>, b: [f64; N]) -> [f64; N]
    ensures { result ≡ solved N l.entry.columns b.entry }
{
    solution(&l.columns, &b)
}

// The gain for P Hᵀ: each row is solved by itself.
pub fn gain<const N: usize, const M: usize>(
    l: cholesky::Lower<N>,
    pht: [[f64; N]; M],
) -> [[f64; N]; M]
    ensures { result ≡ gain_by N M l.entry.columns pht.entry }
{
    let columns = l.columns;
    from_fn(
        |i| -> [f64; N]
            requires { i < M }
            ensures { result ≡ solved N columns (row pht i) }
        { solution(&columns, &pht[i]) },
    )
}
