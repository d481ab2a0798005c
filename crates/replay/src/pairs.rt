// Detections beside a track, by calls.
use detections::pairs::{ClassPrior, PairConfig, Rule, Ruling, Target};
use detections::{Detection, PlanarVelocity};
use filter::KalmanFilter;
use math::linalg::Refusal;
use std::io;
use wire::Line;
use wire::floats::{bits_of, number_of};

// What is seen of a detection, but for its class and its score.
#[derive(Clone, Copy)]
pub struct Seen {
    pub position: [f64; 3],
    pub covariance: [f64; 9],
    pub velocity: Option<PlanarVelocity>,
}

// The class in a number's lowest 21 bits.
fn class_of(labels: u64) -> Option<u32> {
    ((labels % 2097152) as u32).checked_sub(1)
}

fn prior_of(label: Option<u32>, confidence: f64) -> Option<ClassPrior> {
    label.map(|label| ClassPrior { label, confidence })
}

fn score_of(scored: u64, score: f64) -> Option<f64> {
    (scored != 0).then_some(score)
}

fn write_check(rt: &impl Print, d: Detection) -> io::Result<()> {
    let code = detections::validate_detection(d)
        .err()
        .map_or(0, super::filters::code_of);
    wire::write(rt, b'o', [code, 0, 0, 0])
}

fn code_of(rule: Rule) -> u64 {
    match rule {
        Rule::Classes => 1,
        Rule::Gate => 2,
        Rule::Cost => 3,
    }
}

fn write_verdict(rt: &impl Print, verdict: Result<Ruling, Refusal>) -> io::Result<()> {
    match verdict {
        Ok(Ruling::Allowed(cost)) => wire::write(rt, b'p', [0, 0, bits_of(cost), 0]),
        Ok(Ruling::Forbidden(rule)) => wire::write(rt, b'p', [0, code_of(rule), 0, 0]),
        Err(why) => wire::write(rt, b'p', [super::filters::code_of(why), 0, 0, 0]),
    }
}

// A detection is paired only where it passes its check.
fn write_pair(rt: &impl Print, t: Target, d: Detection, config: PairConfig) -> io::Result<()> {
    match detections::validate_detection(d) {
        Ok(()) => write_verdict(rt, detections::pairs::pair_verdict(t, d, config)),
        Err(why) => wire::write(rt, b'p', [super::filters::code_of(why), 0, 0, 0]),
    }
}

fn target_of(f: KalmanFilter, labels: u64, confidence: f64) -> Target {
    Target {
        expected: filter::expected_position(f),
        class_label: class_of(labels),
        class_prior: prior_of(class_of(labels / 2097152), confidence),
    }
}

fn write_birth(
    rt: &impl Print,
    f: KalmanFilter,
    d: Detection,
    threshold: f64,
    radius: f64,
) -> io::Result<()> {
    let place = [f.state[0], f.state[1], f.state[2]];
    let z = d.position;
    wire::write(
        rt,
        b'b',
        [
            u64::from(detections::births::is_score_below(d.score, threshold)),
            bits_of(detections::births::distance(place, z)),
            u64::from(detections::births::is_nearer(place, z, radius)),
            0,
        ],
    )
}

// One call: see main.rt.
pub fn run(rt: &impl Print, f: KalmanFilter, seen: Seen, line: Line) -> io::Result<()> {
    let [first, second, third, last] = line.numbers;
    let a = number_of(first);
    let b = number_of(second);
    let c = number_of(third);
    let Seen {
        position,
        covariance,
        velocity,
    } = seen;
    let d = Detection {
        position,
        covariance,
        velocity,
        class_label: class_of(last / 4398046511104),
        score: score_of(last, a),
    };
    match line.letter {
        b'o' => write_check(rt, d),
        b'p' => {
            let config = PairConfig {
                gate_squared_mahalanobis: a,
                class_prior_penalty: b,
            };
            write_pair(rt, target_of(f, last, c), d, config)
        }
        _ => write_birth(rt, f, d, b, c),
    }
}
