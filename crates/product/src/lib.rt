// Products of two vectors, and of a matrix and a vector, by value: each entry is summed from its first term to its last.
#![tactic(auto)]

ghost use Rattle.std.specs.Prelude.{◌≡◌, ◌<◌};
ghost use Rattle.std.specs.Float.{binary64};
ghost use Rattle.std.specs.Float.Ieee.{mul};
ghost use Rattle.matrix.specs.Matrix.{item, row, dot, times_vector};

use std::array::from_fn;

// x times y.
pub fn dot<const N: usize>(x: [f64; N], y: [f64; N]) -> f64
    ensures { result ≡ dot N x.entry y.entry }
{
    sums::sum::<N>(from_fn(
        |k| -> f64
            requires { k < N }
            ensures { result ≡ mul binary64 (item x k) (item y k) }
        { x[k] * y[k] },
    ))
}

// The matrix a times the vector x.
pub fn times_vector<const N: usize, const M: usize>(a: [[f64; M]; N], x: [f64; M]) -> [f64; N]
    ensures { result ≡ times_vector N M a.entry x.entry }
{
    from_fn(
        |i| -> f64
            requires { i < N }
            ensures { result ≡ dot M (row a i) x }
        { dot(a[i], x) },
    )
}
