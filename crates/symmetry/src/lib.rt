// Whether a matrix counts as symmetric. Each answer is equal bit for bit to the definition of any size in specs/.
// A matrix that equals its transpose is within every tolerance, so that is asked first.
// That an index lies below a size is a clause of each function that takes one: no type says it of the number of a const parameter.
#![tactic(auto)]

ghost use Rattle.std.specs.Prelude.{◌≡◌, ◌<◌};
ghost use Rattle.std.specs.Float.{binary64};
ghost use Rattle.std.specs.Float.Ieee.{sub, eq};
ghost use Rattle.matrix.specs.Matrix.{entry, all_of};
ghost use Rattle.symmetry.specs.Symmetry.{largest_in_row, largest, skew_row, skew, mirrored, is_symmetric};

use std::array::from_fn;

// 01, Matrix: the tolerances of the symmetric test.
pub const SYMMETRY_REL_TOL: f64 = 1.0e-9;

pub const SYMMETRY_ABS_TOL: f64 = 1.0e-12;

// The largest of m and the magnitudes in x.
fn largest_in_row<const P: usize>(x: [f64; P], m: f64) -> f64
    ensures { result ≡ largest_in_row P x.entry m }
{
    let mut largest = m;
    for v in &x {
        largest = number::float::larger(largest, number::float::absolute(*v));
    }
    largest
}

// The largest magnitude in a.
fn largest<const N: usize, const P: usize>(a: [[f64; P]; N]) -> f64
    ensures { result ≡ largest N P a.entry }
{
    let mut largest = 0.0;
    for row in &a {
        largest = largest_in_row(*row, largest);
    }
    largest
}

// Row i of a less its transpose.
fn skew_row<const N: usize>(a: [[f64; N]; N], i: usize) -> [f64; N]
    requires { i < N }
    ensures { result ≡ skew_row N a.entry i }
{
    from_fn(
        |j| -> f64
            requires { (i < N) × (j < N) }
            ensures { result ≡ sub binary64 (entry a i j) (entry a j i) }
        { a[i][j] - a[j][i] },
    )
}

// a less its transpose.
fn skew<const N: usize>(a: [[f64; N]; N]) -> [[f64; N]; N]
    ensures { result ≡ skew N a.entry }
{
    from_fn(
        |i| -> [f64; N]
            requires { i < N }
            ensures { result ≡ skew_row N a i }
        { skew_row(a, i) },
    )
}

// Whether the differences are within the two tolerances.
fn is_within_tolerance<const N: usize>(a: [[f64; N]; N]) -> bool
    ensures { result ≡ is_symmetric N a.entry }
{
    largest(skew(a)) <= SYMMETRY_ABS_TOL + SYMMETRY_REL_TOL * largest(a)
}

// Whether each entry of row i before the diagonal equals the one across it. The tests here and below are joined by `&`, which takes no branch, where `all` would take one for each.
fn is_mirrored_row<const N: usize>(a: [[f64; N]; N], i: usize) -> bool
    requires { i < N }
    ensures { result ≡ all_of i (λ j. eq (entry a.entry j i) (entry a.entry i j)) }
{
    let mut same = true;
    for j in 0..i {
        same &= a[j][i] == a[i][j];
    }
    same
}

// Whether each entry equals the one across the diagonal.
fn is_mirrored<const N: usize>(a: [[f64; N]; N]) -> bool
    ensures { result ≡ mirrored N a.entry }
{
    let mut same = true;
    for i in 0..N {
        same &= is_mirrored_row(a, i);
    }
    same
}

// Whether a is symmetric within the two tolerances.
pub fn is_symmetric<const N: usize>(a: [[f64; N]; N]) -> bool
    ensures { result ≡ is_symmetric N a.entry }
{
    is_mirrored(a) || is_within_tolerance(a)
}
