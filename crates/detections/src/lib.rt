// What a sensor reports of one object, and when a report is refused.
#![tactic(auto)]

ghost use Rattle.std.specs.Prelude.{◌≡◌};
ghost use Rattle.math.specs.Linalg.{reply_of_validity};
ghost use Rattle.detections.specs.Detection.{finite_velocity, detection_reply};

pub mod births;
pub mod pairs;

// A velocity along x and y.
#[derive(Clone, Copy)]
pub struct PlanarVelocity {
    pub x: f64,
    pub y: f64,
}

// A measured position and its covariance, row after row, with what else came with it.
#[derive(Clone, Copy)]
pub struct Detection {
    pub position: [f64; 3],
    pub covariance: [f64; 9],
    pub velocity: Option<PlanarVelocity>,
    pub class_label: Option<u32>,
    pub score: Option<f64>,
}

// Whether a velocity has finite components, or none.
fn is_finite_velocity(v: Option<PlanarVelocity>) -> bool
    ensures { result ≡ finite_velocity v }
{
    v.is_none_or(|v| number::float::is_finite(v.x) & number::float::is_finite(v.y))
}

// Whether a batch may hold the detection, or why not.
#[tactic(auto, unfolding(crate::specs::Detection::detection_reply))]
pub fn validate_detection(d: Detection) -> Result<(), math::linalg::Refusal>
    ensures { reply_of_validity result ≡ detection_reply d }
{
    if finite::is_finite_vector(d.position) & is_finite_velocity(d.velocity) {
        math::linalg::validate_covariance(flat::rows3(d.covariance))
    } else {
        Err(math::linalg::Refusal::NonFiniteValue)
    }
}
