// Whether vectors and matrices hold no NaN and no infinity. Each answer is equal to the definition of any size in specs/.
// A sum is finite only where each of its terms is, and one test of a sum is quicker than one for each entry. It is made column by column, so that the compiler adds two columns at a time.
// That an index lies below a size is a clause of each function that takes one: no type says it of the number of a const parameter.
#![tactic(auto)]

ghost use Rattle.std.specs.Prelude.{◌≡◌, ◌<◌};
ghost use Rattle.matrix.specs.Matrix.{entry, sum_of, total};
ghost use Rattle.finite.specs.Finite.{finite_vector, finite_matrix};

use std::array::from_fn;

// The test of a vector, item by item.
fn each_item<const N: usize>(x: [f64; N]) -> bool
    ensures { result ≡ finite_vector N x.entry }
{
    x.iter().all(|v| number::float::is_finite(*v))
}

// Whether all items are finite.
#[tactic(auto, unfolding(crate::specs::Finite::finite_vector))]
pub fn is_finite_vector<const N: usize>(x: [f64; N]) -> bool
    ensures { result ≡ finite_vector N x.entry }
{
    each_item(x)
}

// The sum of column j.
fn column_total<const N: usize, const P: usize>(a: [[f64; P]; N], j: usize) -> f64
    requires { j < P }
    ensures { result ≡ sum_of N (λ i. entry a.entry i j) }
{
    sums::sum::<N>(from_fn(
        |i| -> f64
            requires { (i < N) × (j < P) }
            ensures { result ≡ entry a i j }
        { a[i][j] },
    ))
}

// The sum of all entries.
pub fn total<const N: usize, const P: usize>(a: [[f64; P]; N]) -> f64
    ensures { result ≡ total N P a.entry }
{
    sums::sum::<P>(from_fn(
        |j| -> f64
            requires { j < P }
            ensures { result ≡ sum_of N (λ i. entry a i j) }
        { column_total(a, j) },
    ))
}

// The test of a matrix, row by row.
fn each_row<const N: usize, const P: usize>(a: [[f64; P]; N]) -> bool
    ensures { result ≡ finite_matrix N P a.entry }
{
    a.iter().all(
        |row| -> bool
            ensures { result ≡ finite_vector P row.now }
        { is_finite_vector(*row) },
    )
}

// Whether all entries are finite. Where their sum is not, they are tested row by row: a sum of finite entries can overflow.
#[tactic(auto, unfolding(crate::specs::Finite::finite_matrix))]
pub fn is_finite_matrix<const N: usize, const P: usize>(a: [[f64; P]; N]) -> bool
    ensures { result ≡ finite_matrix N P a.entry }
{
    number::float::is_finite(total(a)) || each_row(a)
}
