// What of a birth is decided by a detection alone: its score, and how far it is from another place.
ghost use Rattle.std.specs.Prelude.{◌≡◌};
ghost use Rattle.detections.specs.Births.{score_below, distance_of, nearer};

// Whether a score is below the threshold. One that is absent, or a NaN, is not.
pub fn is_score_below(score: Option<f64>, threshold: f64) -> bool
    ensures { result ≡ score_below score threshold }
{
    score.is_some_and(|x| x < threshold)
}

// The distance between two places; a NaN where an offset between them is one, which is never so for finite places.
pub fn distance(a: [f64; 3], b: [f64; 3]) -> f64
    ensures { result ≡ distance_of a b }
{
    let u = sums::minus(a, b);
    square_root::root(product::dot(u, u)).unwrap_or(f64::NAN)
}

// Whether two places are strictly nearer to each other than the radius.
pub fn is_nearer(a: [f64; 3], b: [f64; 3], radius: f64) -> bool
    ensures { result ≡ nearer a b radius }
{
    distance(a, b) < radius
}
