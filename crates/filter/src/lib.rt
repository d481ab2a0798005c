// The Kalman filter of a track. Each call gives the filter as it is after the call, or says why it is refused; its caller still has the one before.
// A measurement comes as its value and its covariance, two arguments as in the Rust, since nothing keeps the two together.
#![tactic(auto)]

ghost use Rattle.std.specs.Prelude.{◌≡◌};
ghost use Rattle.matrix.specs.Matrix.{congruence, times_vector, plus_vector, plus, symmetrized};
ghost use Rattle.matrix.specs.Flat.{rows_of};
ghost use Rattle.cholesky.specs.Factor.{reply_of_factor};
ghost use Rattle.math.specs.Linalg.{reply_of_distance};
ghost use Rattle.models.specs.Models.{transition, selection};
ghost use Rattle.number.specs.Reply.{and_then, reply_by};
ghost use Rattle.solving.specs.Solving.{gain_by};
ghost use Rattle.math.specs.Refusing.{number_of};
ghost use Rattle.filter.specs.Kalman.{estimate, finished, moved, gain_reply, measured_with};
ghost use Rattle.filter.specs.Filter.{filter_with, estimate_of, stored, created, predicted, updated_by_position, updated_by_velocity, updated_by_checked_velocity, squared_mahalanobis, expected_of, factor_from, distance_with, distance_from, updated_from, reply_of_filter};

use math::linalg::Refusal;

// A state of position and velocity, and its covariance, row after row.
#[repr(C)]
#[derive(Clone, Copy)]
pub struct KalmanFilter {
    pub state: [f64; 6],
    pub covariance: [f64; 36],
}

// Where a filter expects a position to be measured, without the measurement's own covariance.
#[derive(Clone, Copy)]
pub struct Expected {
    pub position: [f64; 3],
    pub covariance: [f64; 9],
}

// A state and its covariance p as a filter, where they are finite.
#[tactic(auto, unfolding(crate::specs::Filter::stored, crate::specs::Kalman::finished))]
fn finish(state: [f64; 6], p: [[f64; 6]; 6]) -> Result<KalmanFilter, Refusal>
    ensures { reply_of_filter result ≡ stored (finished 6 (estimate state p)) }
{
    if !finite::is_finite_vector(state) || !finite::is_finite_matrix(p) {
        return Err(Refusal::NonFiniteResult);
    }
    let covariance = flat::flat6(p);
    Ok(KalmanFilter { state, covariance })
}

// The filter moved by dt with the noise q.
#[tactic(auto, unfolding(crate::specs::Kalman::moved))]
fn move_by(f: KalmanFilter, dt: f64, q: [[f64; 6]; 6]) -> Result<KalmanFilter, Refusal>
    ensures { reply_of_filter result ≡ stored (finished 6 (moved 6 (transition 3 dt) q (estimate_of f))) }
{
    let state = product::times_vector(models::cv_f6(dt), f.state);
    let spread = transition::moved_spread(dt, flat::rows6(f.covariance));
    finish(state, symmetrized::symmetrized_sum(spread, q))
}

// The filter dt seconds later, for the acceleration density q.
#[tactic(auto, unfolding(crate::specs::Filter::predicted, crate::specs::Filter::stored, crate::specs::Kalman::predict_reply))]
pub fn predict(f: KalmanFilter, dt: f64, q: f64) -> Result<KalmanFilter, Refusal>
    ensures { reply_of_filter result ≡ predicted dt q f }
{
    let noise = models::cv_q6(dt, q);
    if !finite::is_finite_matrix(noise) {
        return Err(Refusal::NonFiniteValue);
    }
    move_by(f, dt, noise)
}

// A filter with the state x and the covariance p, where they may be such.
#[tactic(auto, unfolding(crate::specs::Filter::created, crate::specs::Kalman::checked))]
pub fn create(x: [f64; 6], p: [f64; 36]) -> Result<KalmanFilter, Refusal>
    ensures { reply_of_filter result ≡ created x p }
{
    if !finite::is_finite_vector(x) {
        return Err(Refusal::NonFiniteValue);
    }
    math::linalg::validate_covariance(flat::rows6(p))?;
    Ok(KalmanFilter {
        state: x,
        covariance: p,
    })
}

// The gain by the factor of an innovation's covariance, and by the covariance of the state with what is measured: where there is a factor, and the gain is finite.
fn gain<const N: usize>(
    factor: Option<cholesky::Lower<N>>,
    cross: [[f64; N]; 6],
) -> Result<[[f64; N]; 6], Refusal>
    ensures { reply_by number_of result ≡ and_then (reply_of_factor factor.entry) (λ l. gain_reply N 6 (gain_by N 6 l cross.entry)) }
{
    let l = factor.ok_or(Refusal::NotPositiveDefinite)?;
    let k = solving::gain(l, cross);
    if !finite::is_finite_matrix(k) {
        return Err(Refusal::NonFiniteResult);
    }
    Ok(k)
}

// The filter corrected by the gain k, which leaves `rest` of a state: the state by the innovation u, the covariance p by the Joseph form.
fn correct<const N: usize>(
    f: KalmanFilter,
    u: [f64; N],
    noise: [[f64; N]; N],
    p: [[f64; 6]; 6],
    k: [[f64; N]; 6],
    rest: [[f64; 6]; 6],
) -> Result<KalmanFilter, Refusal>
    ensures { reply_of_filter result ≡ stored (finished 6 (estimate (plus_vector 6 f.state (times_vector 6 N k.entry u.entry)) (symmetrized 6 (plus 6 6 (congruence 6 6 rest p) (congruence 6 N k.entry noise.entry))))) }
{
    let state = sums::plus(f.state, product::times_vector(k, u));
    let left = congruence::congruence(rest, p);
    let covariance = symmetrized::symmetrized_sum(left, congruence::congruence(k, noise));
    finish(state, covariance)
}

// The filter after a position was measured with the innovation u, by what the search for the factor of its covariance answered. What is of any size stands above; this and the next name what is read of a state.
#[tactic(auto, unfolding(crate::specs::Filter::stored, crate::specs::Kalman::measured_with, crate::specs::Kalman::gained, crate::specs::Kalman::corrected))]
fn measure_position(
    f: KalmanFilter,
    u: [f64; 3],
    factor: Option<cholesky::Lower<3>>,
    noise: [[f64; 3]; 3],
) -> Result<KalmanFilter, Refusal>
    ensures { reply_of_filter result ≡ stored (and_then (reply_of_factor factor) (λ l. measured_with 3 6 u (selection 3 6 0) noise (estimate_of f) l)) }
{
    let p = flat::rows6(f.covariance);
    let k = gain(factor, observation::position_cross(p))?;
    correct(f, u, noise, p, k, rest::position_rest(k))
}

// The same for a velocity.
#[tactic(auto, unfolding(crate::specs::Filter::stored, crate::specs::Kalman::measured_with, crate::specs::Kalman::gained, crate::specs::Kalman::corrected))]
fn measure_velocity(
    f: KalmanFilter,
    u: [f64; 2],
    factor: Option<cholesky::Lower<2>>,
    noise: [[f64; 2]; 2],
) -> Result<KalmanFilter, Refusal>
    ensures { reply_of_filter result ≡ stored (and_then (reply_of_factor factor) (λ l. measured_with 2 6 u (selection 2 6 3) noise (estimate_of f) l)) }
{
    let p = flat::rows6(f.covariance);
    let k = gain(factor, observation::velocity_cross(p))?;
    correct(f, u, noise, p, k, rest::velocity_rest(k))
}

// The covariance of the position that f expects. Two functions, here and in the updates below: each names the sizes and the part of a state that it reads, and the
// updates check other things, a covariance with its factor beside that of the innovation, and a deviation by its square.
fn position_spread(f: KalmanFilter) -> [[f64; 3]; 3]
    ensures { result ≡ congruence 3 6 (selection 3 6 0) (rows_of 6 6 f.covariance) }
{
    observation::position_spread(flat::rows6(f.covariance))
}

// The same of the velocity.
fn velocity_spread(f: KalmanFilter) -> [[f64; 2]; 2]
    ensures { result ≡ congruence 2 6 (selection 2 6 3) (rows_of 6 6 f.covariance) }
{
    observation::velocity_spread(flat::rows6(f.covariance))
}

// Where f expects a position: once for a filter, whatever is measured.
#[tactic(auto, unfolding(crate::specs::Filter::expected_of))]
pub fn expected_position(f: KalmanFilter) -> Expected
    ensures { result ≡ expected_of f }
{
    Expected {
        position: observation::position(f.state),
        covariance: flat::flat3(position_spread(f)),
    }
}

// The factor of the covariance of an innovation that is measured with the covariance `noise`: once for all measurements with the same one.
#[tactic(auto, unfolding(crate::specs::Filter::factor_from))]
pub fn factor_from(m: Expected, noise: [f64; 9]) -> Option<cholesky::Lower<3>>
    ensures { reply_of_factor result ≡ factor_from m noise }
{
    let s = symmetrized::symmetrized_sum(flat::rows3(m.covariance), flat::rows3(noise));
    cholesky::cholesky(s)
}

// The squared distance of a measured position from where it is expected, by that factor.
#[tactic(auto, unfolding(crate::specs::Filter::distance_with))]
pub fn distance_by(
    m: Expected,
    z: [f64; 3],
    factor: Option<cholesky::Lower<3>>,
) -> Result<f64, Refusal>
    ensures { reply_of_distance result ≡ distance_with m z (reply_of_factor factor) }
{
    math::linalg::distance_by_factor(sums::minus(z, m.position), factor)
}

// The two together, for a measurement that is checked already.
#[tactic(auto, unfolding(crate::specs::Filter::distance_from, crate::specs::Filter::distance_with, crate::specs::Filter::factor_from, math::specs::Linalg::squared_distance))]
pub fn distance_from(m: Expected, z: [f64; 3], noise: [f64; 9]) -> Result<f64, Refusal>
    ensures { reply_of_distance result ≡ distance_from m z noise }
{
    distance_by(m, z, factor_from(m, noise))
}

// The squared distance of a measured position from f. The innovation's factor and the test of `noise` go side by side, before the checks that have no roots.
#[tactic(auto, unfolding(crate::specs::Filter::squared_mahalanobis, crate::specs::Kalman::checked, crate::specs::Kalman::distance_of, crate::specs::Kalman::innovation, crate::specs::Kalman::spread, math::specs::Linalg::validated, math::specs::Linalg::squared_distance))]
pub fn squared_mahalanobis(f: KalmanFilter, z: [f64; 3], noise: [f64; 9]) -> Result<f64, Refusal>
    ensures { reply_of_distance result ≡ squared_mahalanobis z noise f }
{
    let r = flat::rows3(noise);
    let u = sums::minus(z, observation::position(f.state));
    let s = symmetrized::symmetrized_sum(position_spread(f), r);
    let both = factors::factor_and_test(s, r);
    if !finite::is_finite_vector(z) {
        return Err(Refusal::NonFiniteValue);
    }
    math::linalg::validity(r, both.definite)?;
    math::linalg::distance_by_factor(u, both.factor)
}

// The filter after a measured position, from where it is expected, for a measurement that is checked already.
#[tactic(auto, unfolding(crate::specs::Filter::updated_from, crate::specs::Kalman::measured_by))]
pub fn update_from(
    m: Expected,
    f: KalmanFilter,
    z: [f64; 3],
    noise: [f64; 9],
) -> Result<KalmanFilter, Refusal>
    ensures { reply_of_filter result ≡ updated_from m z noise f }
{
    let u = sums::minus(z, m.position);
    let rows = flat::rows3(noise);
    let s = symmetrized::symmetrized_sum(flat::rows3(m.covariance), rows);
    measure_position(f, u, cholesky::cholesky(s), rows)
}

// The filter after a position z was measured, with the covariance `noise`. As for the squared distance, the checks come after the roots.
#[tactic(auto, unfolding(crate::specs::Filter::updated_by_position, crate::specs::Filter::stored, crate::specs::Kalman::update_reply, crate::specs::Kalman::checked, crate::specs::Kalman::measured, crate::specs::Kalman::measured_by, crate::specs::Kalman::innovation, crate::specs::Kalman::spread, math::specs::Linalg::validated))]
pub fn update_position(
    f: KalmanFilter,
    z: [f64; 3],
    noise: [f64; 9],
) -> Result<KalmanFilter, Refusal>
    ensures { reply_of_filter result ≡ updated_by_position z noise f }
{
    let rows = flat::rows3(noise);
    let u = sums::minus(z, observation::position(f.state));
    let s = symmetrized::symmetrized_sum(position_spread(f), rows);
    let both = factors::factor_and_test(s, rows);
    if !finite::is_finite_vector(z) {
        return Err(Refusal::NonFiniteValue);
    }
    math::linalg::validity(rows, both.definite)?;
    measure_position(f, u, both.factor, rows)
}

// The filter after a measured velocity that is finite, with a deviation whose square may be a variance.
#[tactic(auto, unfolding(crate::specs::Filter::updated_by_checked_velocity, crate::specs::Kalman::measured, crate::specs::Kalman::measured_by, crate::specs::Kalman::innovation, crate::specs::Kalman::spread))]
pub fn update_checked_velocity(
    f: KalmanFilter,
    v: [f64; 2],
    std: f64,
) -> Result<KalmanFilter, Refusal>
    ensures { reply_of_filter result ≡ updated_by_checked_velocity v std f }
{
    let noise = models::velocity_r2(std);
    let u = sums::minus(v, observation::velocity(f.state));
    let s = symmetrized::symmetrized_sum(velocity_spread(f), noise);
    measure_velocity(f, u, cholesky::cholesky(s), noise)
}

// The filter after a velocity v along x and y was measured, with the deviation std.
#[tactic(auto, unfolding(crate::specs::Filter::updated_by_velocity, crate::specs::Filter::stored, crate::specs::Kalman::update_reply, crate::specs::Kalman::checked, crate::specs::Kalman::measured, crate::specs::Kalman::measured_by, crate::specs::Kalman::innovation, crate::specs::Kalman::spread))]
pub fn update_velocity(f: KalmanFilter, v: [f64; 2], std: f64) -> Result<KalmanFilter, Refusal>
    ensures { reply_of_filter result ≡ updated_by_velocity v std f }
{
    let noise = models::velocity_r2(std);
    let u = sums::minus(v, observation::velocity(f.state));
    let s = symmetrized::symmetrized_sum(velocity_spread(f), noise);
    let factor = cholesky::cholesky(s);
    if !finite::is_finite_vector(v) {
        return Err(Refusal::NonFiniteValue);
    }
    isotropic::validate_isotropic2(std * std)?;
    measure_velocity(f, u, factor, noise)
}
