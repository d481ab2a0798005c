// What the transition F over dt makes of a covariance, (F P) Fᵀ. Where the covariance is plain it is read off, bit for bit what the products give; else it is worked out.
#![tactic(auto)]

ghost use Rattle.std.specs.Prelude.{◌≡◌, ◌<◌};
ghost use Rattle.std.specs.Float.{binary64};
ghost use Rattle.std.specs.Float.Ieee.{add, mul};
ghost use Rattle.matrix.specs.Matrix.{item, row, tabulate, nought, congruence};
ghost use Rattle.models.specs.Models.{transition};
ghost use Rattle.transition.specs.Glide.{glided_item, glided_rows, glided_row, glided_columns, can_glide};

use std::array::from_fn;

// A row of F P: the positions' row x, moved by dt times the velocities' row y. Adding 0 makes a -0 a +0, as the products do.
fn position_row(x: [f64; 6], y: [f64; 6], dt: f64) -> [f64; 6]
    ensures { result ≡ tabulate 6 (λ j. add binary64 (add binary64 (item x j) (mul binary64 dt (item y j))) nought) }
{
    from_fn(
        |j| -> f64
            requires { j < 6 }
            ensures { result ≡ add binary64 (add binary64 (item x j) (mul binary64 dt (item y j))) nought }
        { x[j] + dt * y[j] + 0.0 },
    )
}

// A row of F P: the velocities' row x as it is. Not one function with that above, as no second row and no product is in it.
fn velocity_row(x: [f64; 6]) -> [f64; 6]
    ensures { result ≡ tabulate 6 (λ j. add binary64 (item x j) nought) }
{
    x.map(|y| y + 0.0)
}

// F P, read off.
fn glide_rows(p: [[f64; 6]; 6], dt: f64) -> [[f64; 6]; 6]
    ensures { result ≡ glided_rows 6 3 dt p }
{
    [
        position_row(p[0], p[3], dt),
        position_row(p[1], p[4], dt),
        position_row(p[2], p[5], dt),
        velocity_row(p[3]),
        velocity_row(p[4]),
        velocity_row(p[5]),
    ]
}

// The row x times the transpose of F, read off.
fn glide_row(x: [f64; 6], dt: f64) -> [f64; 6]
    ensures { result ≡ glided_row 6 3 dt x }
{
    from_fn(
        |j| -> f64
            requires { j < 6 }
            ensures { result ≡ glided_item 3 dt (λ k. item x k) j }
        {
            if j < 3 {
                x[j] + dt * x[j + 3] + 0.0
            } else {
                x[j] + 0.0
            }
        },
    )
}

// m times the transpose of F, read off.
fn glide_columns(m: [[f64; 6]; 6], dt: f64) -> [[f64; 6]; 6]
    ensures { result ≡ glided_columns 6 3 dt m }
{
    from_fn(
        |i| -> [f64; 6]
            requires { i < 6 }
            ensures { result ≡ glided_row 6 3 dt (row m i) }
        { glide_row(m[i], dt) },
    )
}

// Whether the products can be read off p and m, which is F P read off.
fn can_glide(p: [[f64; 6]; 6], m: [[f64; 6]; 6], dt: f64) -> bool
    ensures { result ≡ can_glide 6 dt p m }
{
    (dt > 0.0) & selected::is_above(p) & selected::is_plain(m)
}

// The covariance p moved by dt: (F P) Fᵀ.
pub fn moved_spread(dt: f64, p: [[f64; 6]; 6]) -> [[f64; 6]; 6]
    ensures { result ≡ congruence 6 6 (transition 3 dt) p }
{
    let m = glide_rows(p, dt);
    if can_glide(p, m, dt) {
        glide_columns(m, dt)
    } else {
        congruence::congruence(models::cv_f6(dt), p)
    }
}
