// What a measurement sees of a state: the products with its matrix H, which selects N items from FROM on. Of a plain covariance they are read off, bit for bit what the products give; else they are worked out.
// The generic functions ask N + FROM ≤ 6, which no type says of two const parameters; the six of position and velocity name an instance, and ask nothing.
#![tactic(auto)]

ghost use Rattle.std.specs.Prelude.{◌≡◌, ◌<◌, ◌≤◌, ◌+◌};
ghost use Rattle.std.specs.Float.{binary64};
ghost use Rattle.std.specs.Float.Ieee.{add, mul};
ghost use Rattle.matrix.specs.Matrix.{item, row, tabulate, nought, sum_of, row_times, product, times_vector, transposed, congruence};
ghost use Rattle.models.specs.Models.{selection};
ghost use Rattle.selected.specs.Units.{unit_at, unit_vector, read_row, read_rows};

use std::array::from_fn;

// The row x times the transpose of H.
fn row_worked<const N: usize, const FROM: usize>(x: [f64; 6]) -> [f64; N]
    requires { N + FROM ≤ 6 }
    ensures { result ≡ row_times 6 N x (transposed N 6 (selection N 6 FROM)) }
{
    from_fn(
        |k| -> f64
            requires { k + FROM < 6 }
            ensures { result ≡ sum_of 6 (λ j. mul binary64 (item x j) (unit_at (k + FROM) j)) }
        { selected::seen(x, k + FROM) },
    )
}

// The items of x that H selects. Adding 0 makes a -0 a +0, as the products do.
fn row_read<const N: usize, const FROM: usize>(x: [f64; 6]) -> [f64; N]
    requires { N + FROM ≤ 6 }
    ensures { result ≡ read_row N FROM x }
{
    from_fn(
        |k| -> f64
            requires { k + FROM < 6 }
            ensures { result ≡ add binary64 (item x (k + FROM)) nought }
        { x[k + FROM] + 0.0 },
    )
}

// (H P) Hᵀ: read off, and worked out.
fn spread_read<const N: usize, const FROM: usize>(p: [[f64; 6]; 6]) -> [[f64; N]; N]
    requires { N + FROM ≤ 6 }
    ensures { result ≡ tabulate N (λ i. read_row N FROM (row p (i + FROM))) }
{
    from_fn(
        |i| -> [f64; N]
            requires { (i + FROM < 6) × (N + FROM ≤ 6) }
            ensures { result ≡ read_row N FROM (row p (i + FROM)) }
        { row_read::<N, FROM>(p[i + FROM]) },
    )
}

fn spread_worked<const N: usize, const FROM: usize>(p: [[f64; 6]; 6]) -> [[f64; N]; N]
    requires { N + FROM ≤ 6 }
    ensures { result ≡ congruence N 6 (selection N 6 FROM) p }
{
    from_fn(
        |i| -> [f64; N]
            requires { (i + FROM < 6) × (N + FROM ≤ 6) }
            ensures { result ≡ row_times 6 N (row_times 6 6 (unit_vector 6 (i + FROM)) p) (transposed N 6 (selection N 6 FROM)) }
        { row_worked::<N, FROM>(selected::row_seen(p, i + FROM)) },
    )
}

// (H P) Hᵀ.
fn spread<const N: usize, const FROM: usize>(p: [[f64; 6]; 6]) -> [[f64; N]; N]
    requires { N + FROM ≤ 6 }
    ensures { result ≡ congruence N 6 (selection N 6 FROM) p }
{
    if selected::is_plain(p) {
        spread_read::<N, FROM>(p)
    } else {
        spread_worked::<N, FROM>(p)
    }
}

// P Hᵀ: read off, and worked out.
fn cross_read<const N: usize, const FROM: usize>(p: [[f64; 6]; 6]) -> [[f64; N]; 6]
    requires { N + FROM ≤ 6 }
    ensures { result ≡ read_rows N FROM 6 p }
{
    from_fn(
        |i| -> [f64; N]
            requires { (i < 6) × (N + FROM ≤ 6) }
            ensures { result ≡ read_row N FROM (row p i) }
        { row_read::<N, FROM>(p[i]) },
    )
}

fn cross_worked<const N: usize, const FROM: usize>(p: [[f64; 6]; 6]) -> [[f64; N]; 6]
    requires { N + FROM ≤ 6 }
    ensures { result ≡ product 6 6 N p (transposed N 6 (selection N 6 FROM)) }
{
    from_fn(
        |i| -> [f64; N]
            requires { (i < 6) × (N + FROM ≤ 6) }
            ensures { result ≡ row_times 6 N (row p i) (transposed N 6 (selection N 6 FROM)) }
        { row_worked::<N, FROM>(p[i]) },
    )
}

// P Hᵀ.
fn cross<const N: usize, const FROM: usize>(p: [[f64; 6]; 6]) -> [[f64; N]; 6]
    requires { N + FROM ≤ 6 }
    ensures { result ≡ product 6 6 N p (transposed N 6 (selection N 6 FROM)) }
{
    if selected::is_plain(p) {
        cross_read::<N, FROM>(p)
    } else {
        cross_worked::<N, FROM>(p)
    }
}

// The position in a state: H x. This and the five below are instances by name: they ask nothing, where the functions above ask that what H selects lies in a state.
pub fn position(x: [f64; 6]) -> [f64; 3]
    ensures { result ≡ times_vector 3 6 (selection 3 6 0) x }
{
    row_worked::<3, 0>(x)
}

// The covariance of the position: (H P) Hᵀ.
pub fn position_spread(p: [[f64; 6]; 6]) -> [[f64; 3]; 3]
    ensures { result ≡ congruence 3 6 (selection 3 6 0) p }
{
    spread::<3, 0>(p)
}

// The covariance of the state with the position: P Hᵀ.
pub fn position_cross(p: [[f64; 6]; 6]) -> [[f64; 3]; 6]
    ensures { result ≡ product 6 6 3 p (transposed 3 6 (selection 3 6 0)) }
{
    cross::<3, 0>(p)
}

// The velocity along x and y in a state: H x.
pub fn velocity(x: [f64; 6]) -> [f64; 2]
    ensures { result ≡ times_vector 2 6 (selection 2 6 3) x }
{
    row_worked::<2, 3>(x)
}

// The covariance of the velocity along x and y: (H P) Hᵀ.
pub fn velocity_spread(p: [[f64; 6]; 6]) -> [[f64; 2]; 2]
    ensures { result ≡ congruence 2 6 (selection 2 6 3) p }
{
    spread::<2, 3>(p)
}

// The covariance of the state with the velocity along x and y: P Hᵀ.
pub fn velocity_cross(p: [[f64; 6]; 6]) -> [[f64; 2]; 6]
    ensures { result ≡ product 6 6 2 p (transposed 2 6 (selection 2 6 3)) }
{
    cross::<2, 3>(p)
}
