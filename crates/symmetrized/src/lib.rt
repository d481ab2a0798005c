// The symmetric part of a sum of two matrices by value. Every number is equal bit for bit to the definition of any size in matrix/specs/Matrix.antt.
// That an index lies below a size is a clause of each function that takes one: no type says it of the number of a const parameter.
#![tactic(auto)]

ghost use Rattle.std.specs.Prelude.{◌≡◌, ◌<◌};
ghost use Rattle.std.specs.Float.{binary64};
ghost use Rattle.std.specs.Float.Ieee.{add, mul};
ghost use Rattle.matrix.specs.Matrix.{row, entry, half, plus_vector, plus, mean_row, symmetrized};

use std::array::from_fn;

// a + b.
fn plus<const N: usize, const P: usize>(a: [[f64; P]; N], b: [[f64; P]; N]) -> [[f64; P]; N]
    ensures { result ≡ plus N P a.entry b.entry }
{
    from_fn(
        |i| -> [f64; P]
            requires { i < N }
            ensures { result ≡ plus_vector P (row a i) (row b i) }
        { sums::plus(a[i], b[i]) },
    )
}

// Row i of the symmetric part: half of the sum of each entry and its mirror image.
fn mean_row<const N: usize>(a: [[f64; N]; N], i: usize) -> [f64; N]
    requires { i < N }
    ensures { result ≡ mean_row N a.entry i }
{
    from_fn(
        |j| -> f64
            requires { (i < N) × (j < N) }
            ensures { result ≡ mul binary64 half (add binary64 (entry a i j) (entry a j i)) }
        { 0.5 * (a[i][j] + a[j][i]) },
    )
}

// The symmetric part of a.
fn symmetrize<const N: usize>(a: [[f64; N]; N]) -> [[f64; N]; N]
    ensures { result ≡ symmetrized N a.entry }
{
    from_fn(
        |i| -> [f64; N]
            requires { i < N }
            ensures { result ≡ mean_row N a i }
        { mean_row(a, i) },
    )
}

// The symmetric part of a + b.
pub fn symmetrized_sum<const N: usize>(a: [[f64; N]; N], b: [[f64; N]; N]) -> [[f64; N]; N]
    ensures { result ≡ symmetrized N (plus N N a.entry b.entry) }
{
    symmetrize(plus(a, b))
}
