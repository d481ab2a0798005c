// The filter's calls for C programs, so that they can be measured beside the Rust's. What a track holds is lent as two arrays; a refused call leaves them as they were.
#![tactic(auto)]

ghost use Rattle.std.specs.Prelude.{◌≡◌};
ghost use Rattle.math.specs.Linalg.{reply_of_distance};
ghost use Rattle.filter.specs.Filter.{filter_with, expected_of, predicted, updated_by_position, updated_by_velocity, squared_mahalanobis, distance_from, reply_of_filter};
ghost use Rattle.probe.specs.Lent.{StepCall, DistanceCall, ExpectedCall, expected_with};

use filter::KalmanFilter;
use math::linalg::Refusal;

// The filter that two lent arrays hold.
fn filter_of(state: &[f64; 6], covariance: &[f64; 36]) -> KalmanFilter
    ensures { result ≡ filter_with state.now covariance.now }
{
    KalmanFilter {
        state: *state,
        covariance: *covariance,
    }
}

// The filter that a call gives into the arrays, and the answer's code.
fn lay(
    answer: Result<KalmanFilter, Refusal>,
    state: &mut [f64; 6],
    covariance: &mut [f64; 36],
) -> u32
    ensures { StepCall (reply_of_filter answer) result state.old covariance.old state.new covariance.new }
{
    match answer {
        Ok(f) => {
            let x = f.state;
            let p = f.covariance;
            *state = x;
            *covariance = p;
            0
        }
        Err(why) => u32::from(why),
    }
}

// A distance behind the pointer, and the answer's code.
fn lay_distance(distance: Result<f64, Refusal>, out: &mut f64) -> u32
    ensures { DistanceCall (reply_of_distance distance) result out.old out.new }
{
    match distance {
        Ok(d) => {
            *out = d;
            0
        }
        Err(why) => u32::from(why),
    }
}

// The filter dt seconds later, for the acceleration density q.
#[unsafe(no_mangle)]
pub extern "C" fn probe_predict(
    state: &mut [f64; 6],
    covariance: &mut [f64; 36],
    dt: f64,
    q: f64,
) -> u32
    ensures { StepCall (predicted dt q (filter_with state.old covariance.old)) result state.old covariance.old state.new covariance.new }
{
    let f = filter_of(state, covariance);
    lay(filter::predict(f, dt, q), state, covariance)
}

// The filter after a position z was measured, with the covariance `noise`. One function for a position and one for a velocity, as the names that C programs call are.
#[unsafe(no_mangle)]
pub extern "C" fn probe_update_position(
    state: &mut [f64; 6],
    covariance: &mut [f64; 36],
    z: &[f64; 3],
    noise: &[f64; 9],
) -> u32
    ensures { StepCall (updated_by_position z.now noise.now (filter_with state.old covariance.old)) result state.old covariance.old state.new covariance.new }
{
    let f = filter_of(state, covariance);
    lay(filter::update_position(f, *z, *noise), state, covariance)
}

// The filter after a velocity v along x and y was measured, with the deviation std.
#[unsafe(no_mangle)]
pub extern "C" fn probe_update_velocity(
    state: &mut [f64; 6],
    covariance: &mut [f64; 36],
    v: &[f64; 2],
    std: f64,
) -> u32
    ensures { StepCall (updated_by_velocity v.now std (filter_with state.old covariance.old)) result state.old covariance.old state.new covariance.new }
{
    let f = filter_of(state, covariance);
    lay(filter::update_velocity(f, *v, std), state, covariance)
}

// The squared distance of a measured position, into out.
#[unsafe(no_mangle)]
pub extern "C" fn probe_squared_mahalanobis(
    state: &[f64; 6],
    covariance: &[f64; 36],
    z: &[f64; 3],
    noise: &[f64; 9],
    out: &mut f64,
) -> u32
    ensures { DistanceCall (squared_mahalanobis z.now noise.now (filter_with state.now covariance.now)) result out.old out.new }
{
    let f = filter_of(state, covariance);
    lay_distance(filter::squared_mahalanobis(f, *z, *noise), out)
}

// Where the filter expects a position, and with what covariance.
#[unsafe(no_mangle)]
pub extern "C" fn probe_expected_position(
    state: &[f64; 6],
    covariance: &[f64; 36],
    position: &mut [f64; 3],
    spread: &mut [f64; 9],
)
    ensures { ExpectedCall (expected_of (filter_with state.now covariance.now)) position.new spread.new }
{
    let f = filter_of(state, covariance);
    let m = filter::expected_position(f);
    let h = m.position;
    let s = m.covariance;
    *position = h;
    *spread = s;
}

// The squared distance of a measured position that is checked already from where one is expected, into out.
#[unsafe(no_mangle)]
pub extern "C" fn probe_distance_from(
    position: &[f64; 3],
    spread: &[f64; 9],
    z: &[f64; 3],
    noise: &[f64; 9],
    out: &mut f64,
) -> u32
    ensures { DistanceCall (distance_from (expected_with position.now spread.now) z.now noise.now) result out.old out.new }
{
    let m = filter::Expected {
        position: *position,
        covariance: *spread,
    };
    lay_distance(filter::distance_from(m, *z, *noise), out)
}
