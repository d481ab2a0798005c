// What pairs read of a batch's detections, laid out once in arrays of numbers; and which of them have the same covariance.
#![tactic(auto)]

ghost use Rattle.std.specs.Prelude.{◌≡◌, true, map, ◌≤◌, length};
ghost use Rattle.sightings.specs.Sights.{sight_of, Kin};
ghost use Rattle.sightings.specs.Laid.{sights_of, empty, Sound};

use detections::Detection;

// What is read of `count` detections, each kind in an array of its own with room for 64, as there is no heap; and for each the first of its run, whose covariance is the same. What stands behind them is open: nobody reads it.
// Not `Copy`, as it is large: it is made once for a batch, and lent.
#[derive(Drop)]
pub struct Sightings {
    pub positions: [[f64; 3]; 64],
    pub noises: [[f64; 9]; 64],
    pub labels: [Option<u32>; 64],
    pub kin: [usize; 64],
    pub count: usize,
}

// Whether two numbers are one and the same, the sign of a zero included; equal numbers have bits that are told. That it says no is open: it costs time alone.
fn is_same(a: f64, b: f64) -> bool
    ensures { result ≡ true → a ≡ b }
{
    a == b && f64::to_bits(a) == f64::to_bits(b)
}

fn is_same_noise(a: [f64; 9], b: [f64; 9]) -> bool
    ensures { result ≡ true → a ≡ b }
{
    a.iter().zip(&b).all(|(x, y)| is_same(*x, *y))
}

impl Sightings {
    // Places for 64 detections, and none in them.
    pub fn new() -> Sightings
        ensures { result ≡ empty }
    {
        Sightings {
            positions: [[0.0; 3]; 64],
            noises: [[0.0; 9]; 64],
            labels: [None; 64],
            kin: [0; 64],
            count: 0,
        }
    }

    // Each detection into its place.
    fn lay(&mut self, observations: &[Detection])
        requires { length observations.now ≤ 64 }
        ensures { (self.new.count ≡ length observations.now) × (sights_of self.new ≡ map sight_of observations.now) }
    {
        for (j, d) in observations.iter().enumerate() {
            self.positions[j] = d.position;
            self.noises[j] = d.covariance;
            self.labels[j] = d.class_label;
        }
        self.count = observations.len();
    }

    // For each detection the first of its run. How long the runs are is open, as it costs time alone.
    fn find_kin(&mut self)
        requires { self.old.count ≤ 64 }
        ensures { (self.new.count ≡ self.old.count) × (sights_of self.new ≡ sights_of self.old) × Kin self.new.noises self.new.count self.new.kin }
    {
        let mut first: usize = 0;
        // By index: a turn reads the row at `first` too, and writes to an array of the same record, which an iterator would hold.
        for j in 0..self.count {
            let a = self.noises[j];
            let b = self.noises[first];
            if !is_same_noise(a, b) {
                first = j;
            }
            self.kin[j] = first;
        }
    }

    // These detections, in the place of those that were here. A leaf: who calls has counted the places.
    pub fn lay_detections(&mut self, observations: &[Detection])
        requires { length observations.now ≤ 64 }
        ensures { Sound self.new × (sights_of self.new ≡ map sight_of observations.now) }
    {
        self.lay(observations);
        self.find_kin();
    }
}
