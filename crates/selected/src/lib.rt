// Items that a row of the identity selects, and when what is selected can be read off a matrix.
#![tactic(auto)]

ghost use Rattle.std.specs.Prelude.{◌≡◌, ◌<◌};
ghost use Rattle.std.specs.Float.{binary64};
ghost use Rattle.std.specs.Float.Ieee.{mul};
ghost use Rattle.matrix.specs.Matrix.{item, entry, sum_of, row_times};
ghost use Rattle.selected.specs.Units.{unit_at, unit_vector, is_above, is_plain};

use std::array::from_fn;

// 1 where j is k, else 0.
pub fn unit(k: usize, j: usize) -> f64
    ensures { result ≡ unit_at k j }
{
    if j == k { 1.0 } else { 0.0 }
}

// x times row k of the identity.
pub fn seen(x: [f64; 6], k: usize) -> f64
    ensures { result ≡ sum_of 6 (λ j. mul binary64 (item x j) (unit_at k j)) }
{
    sums::sum::<6>(from_fn(
        |j| -> f64
            requires { j < 6 }
            ensures { result ≡ mul binary64 (item x j) (unit_at k j) }
        { x[j] * unit(k, j) },
    ))
}

// Row k of the identity times column j of p.
fn seen_in_column(p: [[f64; 6]; 6], k: usize, j: usize) -> f64
    requires { j < 6 }
    ensures { result ≡ sum_of 6 (λ i. mul binary64 (unit_at k i) (entry p i j)) }
{
    sums::sum::<6>(from_fn(
        |i| -> f64
            requires { (i < 6) × (j < 6) }
            ensures { result ≡ mul binary64 (unit_at k i) (entry p i j) }
        { unit(k, i) * p[i][j] },
    ))
}

// Row k of the identity times p.
pub fn row_seen(p: [[f64; 6]; 6], k: usize) -> [f64; 6]
    ensures { result ≡ row_times 6 6 (unit_vector 6 k) p }
{
    from_fn(
        |j| -> f64
            requires { j < 6 }
            ensures { result ≡ sum_of 6 (λ i. mul binary64 (unit_at k i) (entry p i j)) }
        { seen_in_column(p, k, j) },
    )
}

// Whether the diagonal is above 0. The six tests are joined by `&`, which takes no branch, where `all` would take six.
pub fn is_above(p: [[f64; 6]; 6]) -> bool
    ensures { result ≡ is_above 6 p }
{
    (p[0][0] > 0.0)
        & (p[1][1] > 0.0)
        & (p[2][2] > 0.0)
        & (p[3][3] > 0.0)
        & (p[4][4] > 0.0)
        & (p[5][5] > 0.0)
}

// Whether, beside that, the sum of all entries is finite: then the products with H can be read off.
#[tactic(auto, unfolding(crate::specs::Units::is_plain))]
pub fn is_plain(p: [[f64; 6]; 6]) -> bool
    ensures { result ≡ is_plain 6 p }
{
    number::float::is_finite(finite::total(p)) & is_above(p)
}
