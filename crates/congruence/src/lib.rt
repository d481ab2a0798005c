// What a matrix a makes of a covariance p, (a p) times the transpose of a, by value: each entry is summed from its first term to its last.
// That an index lies below a size is a clause of each function that takes one: no type says it of the number of a const parameter.
#![tactic(auto)]

ghost use Rattle.std.specs.Prelude.{◌≡◌, ◌<◌};
ghost use Rattle.std.specs.Float.{binary64};
ghost use Rattle.std.specs.Float.Ieee.{mul};
ghost use Rattle.matrix.specs.Matrix.{item, row, entry, tabulate, sum_of, row_times, product, transposed, congruence};

use std::array::from_fn;

// x times column j of b.
fn dot_column<const M: usize, const P: usize>(x: [f64; M], b: [[f64; P]; M], j: usize) -> f64
    requires { j < P }
    ensures { result ≡ sum_of M (λ k. mul binary64 (item x.entry k) (entry b.entry k j)) }
{
    sums::sum::<M>(from_fn(
        |k| -> f64
            requires { (k < M) × (j < P) }
            ensures { result ≡ mul binary64 (item x k) (entry b k j) }
        { x[k] * b[k][j] },
    ))
}

// The row x times b.
fn row_times<const M: usize, const P: usize>(x: [f64; M], b: [[f64; P]; M]) -> [f64; P]
    ensures { result ≡ row_times M P x.entry b.entry }
{
    from_fn(
        |j| -> f64
            requires { j < P }
            ensures { result ≡ sum_of M (λ k. mul binary64 (item x k) (entry b k j)) }
        { dot_column(x, b, j) },
    )
}

// a times b.
fn product<const N: usize, const M: usize, const P: usize>(
    a: [[f64; M]; N],
    b: [[f64; P]; M],
) -> [[f64; P]; N]
    ensures { result ≡ product N M P a.entry b.entry }
{
    from_fn(
        |i| -> [f64; P]
            requires { i < N }
            ensures { result ≡ row_times M P (row a i) b }
        { row_times(a[i], b) },
    )
}

// Column j of a.
fn column<const N: usize, const P: usize>(a: [[f64; P]; N], j: usize) -> [f64; N]
    requires { j < P }
    ensures { result ≡ tabulate N (λ i. entry a.entry i j) }
{
    from_fn(
        |i| -> f64
            requires { (i < N) × (j < P) }
            ensures { result ≡ entry a i j }
        { a[i][j] },
    )
}

// The transpose of a.
fn transposed<const N: usize, const P: usize>(a: [[f64; P]; N]) -> [[f64; N]; P]
    ensures { result ≡ transposed N P a.entry }
{
    from_fn(
        |j| -> [f64; N]
            requires { j < P }
            ensures { result ≡ tabulate N (λ i. entry a i j) }
        { column(a, j) },
    )
}

// (a p) times the transpose of a, which is laid out first, so that two columns are done at a time.
#[tactic(auto, unfolding(matrix::specs::Matrix::congruence))]
pub fn congruence<const N: usize, const M: usize>(
    a: [[f64; M]; N],
    p: [[f64; M]; M],
) -> [[f64; N]; N]
    ensures { result ≡ congruence N M a.entry p.entry }
{
    product(product(a, p), transposed(a))
}
