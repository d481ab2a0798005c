// Sums: of the items of a vector, and of two vectors item by item. Every number is equal bit for bit to the definition of any size in matrix/specs/Matrix.antt.
#![tactic(auto)]

ghost use Rattle.std.specs.Prelude.{◌≡◌, ◌<◌};
ghost use Rattle.std.specs.Float.{binary64};
ghost use Rattle.std.specs.Float.Ieee.{add, sub};
ghost use Rattle.matrix.specs.Matrix.{item, sum_of, plus_vector, minus_vector};

use std::array::from_fn;

// The terms from the first to the last. Nothing is added to a 0: a sum of -0 alone is -0, and only a sum of no terms is +0.
pub fn sum<const N: usize>(terms: [f64; N]) -> f64
    ensures { result ≡ sum_of N (λ k. item terms.entry k) }
{
    terms
        .iter()
        .copied()
        .reduce(|sum, term| sum + term)
        .unwrap_or(0.0)
}

// x + y.
pub fn plus<const N: usize>(x: [f64; N], y: [f64; N]) -> [f64; N]
    ensures { result ≡ plus_vector N x.entry y.entry }
{
    from_fn(
        |k| -> f64
            requires { k < N }
            ensures { result ≡ add binary64 (item x k) (item y k) }
        { x[k] + y[k] },
    )
}

// x - y.
pub fn minus<const N: usize>(x: [f64; N], y: [f64; N]) -> [f64; N]
    ensures { result ≡ minus_vector N x.entry y.entry }
{
    from_fn(
        |k| -> f64
            requires { k < N }
            ensures { result ≡ sub binary64 (item x k) (item y k) }
        { x[k] - y[k] },
    )
}
