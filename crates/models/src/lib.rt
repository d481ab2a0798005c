// Motion at constant velocity, and what is measured of it. A state of six has x, y, z and then their velocities.
#![tactic(auto)]

ghost use Rattle.std.specs.Prelude.{◌≡◌};
ghost use Rattle.std.specs.Float.{binary64};
ghost use Rattle.std.specs.Float.Ieee.{mul};
ghost use Rattle.models.specs.Models.{transition, noise, isotropic};

// The transition over dt seconds.
#[tactic(auto, unfolding(crate::specs::Models::transition))]
pub fn cv_f6(dt: f64) -> [[f64; 6]; 6]
    ensures { result ≡ transition 3 dt }
{
    [
        [1.0, 0.0, 0.0, dt, 0.0, 0.0],
        [0.0, 1.0, 0.0, 0.0, dt, 0.0],
        [0.0, 0.0, 1.0, 0.0, 0.0, dt],
        [0.0, 0.0, 0.0, 1.0, 0.0, 0.0],
        [0.0, 0.0, 0.0, 0.0, 1.0, 0.0],
        [0.0, 0.0, 0.0, 0.0, 0.0, 1.0],
    ]
}

// The noise of a prediction over dt seconds, for the acceleration density q.
#[tactic(auto, unfolding(crate::specs::Models::noise))]
pub fn cv_q6(dt: f64, q: f64) -> [[f64; 6]; 6]
    ensures { result ≡ noise 3 dt q }
{
    let dt2 = dt * dt;
    let dt3 = dt2 * dt;
    let position = 0.0 + q * dt3 / 3.0;
    let cross = 0.0 + q * dt2 / 2.0;
    let velocity = 0.0 + q * dt;
    [
        [position, 0.0, 0.0, cross, 0.0, 0.0],
        [0.0, position, 0.0, 0.0, cross, 0.0],
        [0.0, 0.0, position, 0.0, 0.0, cross],
        [cross, 0.0, 0.0, velocity, 0.0, 0.0],
        [0.0, cross, 0.0, 0.0, velocity, 0.0],
        [0.0, 0.0, cross, 0.0, 0.0, velocity],
    ]
}

// The covariance of a velocity measured with the deviation std.
#[tactic(auto, unfolding(crate::specs::Models::isotropic))]
pub fn velocity_r2(std: f64) -> [[f64; 2]; 2]
    ensures { result ≡ isotropic 2 (mul binary64 std std) }
{
    let variance = std * std;
    [
        [1.0 * variance, 0.0 * variance],
        [0.0 * variance, 1.0 * variance],
    ]
}
