// What a gain K leaves of a state: I − K H, for an H that selects N items from FROM on. Of a finite row of K it is read off, bit for bit what the products give; else it is worked out.
// The generic functions ask N + FROM ≤ 6, which no type says of two const parameters; the two of position and velocity name an instance, and ask nothing.
#![tactic(auto)]

ghost use Rattle.std.specs.Prelude.{◌≡◌, ◌<◌, ◌≤◌, ◌+◌, ◌-◌, cond, ltb};
ghost use Rattle.std.specs.Float.{binary64};
ghost use Rattle.std.specs.Float.Ieee.{sub, mul};
ghost use Rattle.matrix.specs.Matrix.{item, row, sum_of, row_times, product, minus, identity};
ghost use Rattle.models.specs.Models.{selection};
ghost use Rattle.selected.specs.Units.{unit_at, less_from, rest_row};

use std::array::from_fn;

// Row i of the identity less the row x of a gain times H: read off, and worked out.
#[tactic(auto, unfolding(selected::specs::Units::rest_row))]
fn row_read<const N: usize, const FROM: usize>(x: [f64; N], i: usize) -> [f64; 6]
    requires { N + FROM ≤ 6 }
    ensures { result ≡ rest_row 6 N FROM x.entry i }
{
    from_fn(
        |j| -> f64
            requires { N + FROM ≤ 6 }
            ensures { result ≡ cond (ltb j FROM) (unit_at j i) (cond (ltb j (N + FROM)) (sub binary64 (unit_at j i) (item x (j - FROM))) (unit_at j i)) }
        {
            let unit = selected::unit(j, i);
            if FROM <= j && j < N + FROM {
                unit - x[j - FROM]
            } else {
                unit
            }
        },
    )
}

// The row x of a gain times column j of H.
fn column_seen<const N: usize, const FROM: usize>(x: [f64; N], j: usize) -> f64
    requires { N + FROM ≤ 6 }
    ensures { result ≡ sum_of N (λ m. mul binary64 (item x.entry m) (unit_at (m + FROM) j)) }
{
    sums::sum::<N>(from_fn(
        |m| -> f64
            requires { (m < N) × (m + FROM < 6) }
            ensures { result ≡ mul binary64 (item x m) (unit_at (m + FROM) j) }
        { x[m] * selected::unit(m + FROM, j) },
    ))
}

fn row_worked<const N: usize, const FROM: usize>(x: [f64; N], i: usize) -> [f64; 6]
    requires { N + FROM ≤ 6 }
    ensures { result ≡ less_from 6 i (row_times N 6 x.entry (selection N 6 FROM)) }
{
    from_fn(
        |j| -> f64
            requires { N + FROM ≤ 6 }
            ensures { result ≡ sub binary64 (unit_at j i) (sum_of N (λ m. mul binary64 (item x m) (unit_at (m + FROM) j))) }
        { selected::unit(j, i) - column_seen::<N, FROM>(x, j) },
    )
}

fn row<const N: usize, const FROM: usize>(x: [f64; N], i: usize) -> [f64; 6]
    requires { N + FROM ≤ 6 }
    ensures { result ≡ less_from 6 i (row_times N 6 x.entry (selection N 6 FROM)) }
{
    let total = sums::sum(x);
    if number::float::is_finite(total) {
        row_read::<N, FROM>(x, i)
    } else {
        row_worked::<N, FROM>(x, i)
    }
}

// What a gain for those items leaves of a state.
fn rest<const N: usize, const FROM: usize>(k: [[f64; N]; 6]) -> [[f64; 6]; 6]
    requires { N + FROM ≤ 6 }
    ensures { result ≡ minus 6 6 (identity 6) (product 6 N 6 k.entry (selection N 6 FROM)) }
{
    from_fn(
        |i| -> [f64; 6]
            requires { (i < 6) × (N + FROM ≤ 6) }
            ensures { result ≡ less_from 6 i (row_times N 6 (row k i) (selection N 6 FROM)) }
        { row::<N, FROM>(k[i], i) },
    )
}

// What a gain for the position leaves of a state. This and the next are instances by name: they ask nothing, where the function above asks that what H selects lies in a state.
pub fn position_rest(k: [[f64; 3]; 6]) -> [[f64; 6]; 6]
    ensures { result ≡ minus 6 6 (identity 6) (product 6 3 6 k (selection 3 6 0)) }
{
    rest::<3, 0>(k)
}

// What a gain for the velocity along x and y leaves of a state.
pub fn velocity_rest(k: [[f64; 2]; 6]) -> [[f64; 6]; 6]
    ensures { result ≡ minus 6 6 (identity 6) (product 6 2 6 k (selection 2 6 3)) }
{
    rest::<2, 3>(k)
}
