// The rule for a pair of a track and a detection: whether it may be made, and at what cost.
ghost use Rattle.std.specs.Prelude.{◌≡◌};
ghost use Rattle.number.specs.Reply.{reply_by};
ghost use Rattle.math.specs.Refusing.{number_of};
ghost use Rattle.math.specs.Linalg.{reply_of_distance};
ghost use Rattle.detections.specs.Pairs.{compatible, penalized, priced, gated, measured, verdict_of};

use super::Detection;
use math::linalg::Refusal;

// What is believed of a track's class, from elsewhere: a label, and the confidence in it.
#[derive(Clone, Copy)]
pub struct ClassPrior {
    pub label: u32,
    pub confidence: f64,
}

// What of a track its pairs depend on.
#[derive(Clone, Copy)]
pub struct Target {
    pub expected: filter::Expected,
    pub class_label: Option<u32>,
    pub class_prior: Option<ClassPrior>,
}

// What of the tracker's settings a pair depends on.
#[derive(Clone, Copy)]
pub struct PairConfig {
    pub gate_squared_mahalanobis: f64,
    pub class_prior_penalty: f64,
}

// The rules that forbid a pair, in the order in which they are asked.
#[derive(Clone, Copy)]
pub enum Rule {
    Classes,
    Gate,
    Cost,
}

// What the rules say of a pair: its cost, or the first that forbids it.
#[derive(Clone, Copy)]
pub enum Ruling {
    Allowed(f64),
    Forbidden(Rule),
}

// Whether two classes agree, or one is not known.
pub fn classes_compatible(a: Option<u32>, b: Option<u32>) -> bool
    ensures { result ≡ compatible a b }
{
    match (a, b) {
        (Some(x), Some(y)) => x == y,
        _ => true,
    }
}

// The cost of a pair, with the penalty where the class that is seen is not the one that is believed.
fn penalize(cost: f64, prior: Option<ClassPrior>, seen: Option<u32>, penalty: f64) -> f64
    ensures { result ≡ penalized penalty prior seen cost }
{
    match (prior, seen) {
        (Some(believed), Some(x)) if believed.label != x => cost + penalty * believed.confidence,
        _ => cost,
    }
}

// A pair that nothing else forbids, at this cost.
fn price(cost: f64) -> Ruling
    ensures { result ≡ priced cost }
{
    if number::float::is_finite(cost) {
        Ruling::Allowed(cost)
    } else {
        Ruling::Forbidden(Rule::Cost)
    }
}

// A pair of compatible classes, at this squared distance.
fn gate(squared: f64, prior: Option<ClassPrior>, seen: Option<u32>, config: PairConfig) -> Ruling
    ensures { result ≡ gated config prior seen squared }
{
    if squared <= config.gate_squared_mahalanobis {
        price(penalize(squared, prior, seen, config.class_prior_penalty))
    } else {
        Ruling::Forbidden(Rule::Gate)
    }
}

// What becomes of a pair of compatible classes, once its distance is taken; or why that is refused.
pub fn verdict_at(
    distance: Result<f64, Refusal>,
    prior: Option<ClassPrior>,
    seen: Option<u32>,
    config: PairConfig,
) -> Result<Ruling, Refusal>
    ensures { reply_by number_of result ≡ measured config prior seen (reply_of_distance distance) }
{
    let squared = distance?;
    Ok(gate(squared, prior, seen, config))
}

// What becomes of the pair of a track and a detection that has passed its checks. Where the classes forbid it, no distance is taken.
pub fn pair_verdict(t: Target, d: Detection, config: PairConfig) -> Result<Ruling, Refusal>
    ensures { reply_by number_of result ≡ verdict_of config t d }
{
    if !classes_compatible(t.class_label, d.class_label) {
        return Ok(Ruling::Forbidden(Rule::Classes));
    }
    let expected = t.expected;
    let position = d.position;
    let covariance = d.covariance;
    let distance = filter::distance_from(expected, position, covariance);
    verdict_at(distance, t.class_prior, d.class_label, config)
}
