// The costs of a batch's pairs: a row for each track, row after row in one array. The factor of S is worked out again only where the detections' covariance changes.
#![tactic(auto)]

ghost use Rattle.std.specs.Prelude.{◌≡◌, true, false, ◌+◌, ◌≤◌, length};
ghost use Rattle.number.specs.Reply.{given, and_then};
ghost use Rattle.cholesky.specs.Factor.{reply_of_factor};
ghost use Rattle.detections.specs.Pairs.{compatible};
ghost use Rattle.types.specs.Refusals.{reply_of};
ghost use Rattle.calls.specs.Pairing.{cost_of};
ghost use Rattle.pairing.specs.Laid.{Laid};
ghost use Rattle.pairing.specs.Rows.{price_reply};
ghost use Rattle.sightings.specs.Laid.{sights_of, Sound};
ghost use Rattle.cost_table.specs.Table.{reply_of_entry, priced_by, Tabled};

use detections::Detection;
use detections::pairs::{PairConfig, Rule, Ruling, Target};
use pairing::Row;
use sightings::Sightings;
use types::refusal::Refusal;

// A forbidden pair costs +infinity.
fn cost_of(ruling: Ruling) -> f64
    ensures { result ≡ cost_of ruling }
{
    match ruling {
        Ruling::Allowed(cost) => cost,
        Ruling::Forbidden(_) => f64::INFINITY,
    }
}

// Whether a pair needs another factor of S than the one that is held for the covariance at `held`. Where the classes forbid it, it needs none. That it says yes is open: it costs time alone.
fn is_due(class: Option<u32>, seen: Option<u32>, held: usize, k: usize) -> bool
    ensures { result ≡ false → compatible class seen ≡ true → held ≡ k }
{
    detections::pairs::classes_compatible(class, seen) && held != k
}

// The cost of the pair of a track and a detection that is seen at z with a class, by the factor of S.
fn price(
    t: Target,
    factor: Option<cholesky::Lower<3>>,
    z: [f64; 3],
    seen: Option<u32>,
    rule: PairConfig,
) -> Result<f64, Refusal>
    ensures { reply_of_entry result ≡ priced_by rule t z seen (reply_of_factor factor) }
{
    if !detections::pairs::classes_compatible(t.class_label, seen) {
        return Ok(cost_of(Ruling::Forbidden(Rule::Classes)));
    }
    let expected = t.expected;
    let distance = filter::distance_by(expected, z, factor);
    let ruling = detections::pairs::verdict_at(distance, t.class_prior, seen, rule)?;
    Ok(cost_of(ruling))
}

// The costs of one track's pairs with the detections that are laid out, from `at` on. The first refusal decides.
fn price_row(
    t: Target,
    laid: &Sightings,
    rule: PairConfig,
    costs: &mut [f64; 4096],
    at: usize,
) -> Result<(), Refusal>
    requires { Sound laid.now × (at + laid.now.count ≤ 4096) }
    ensures { Laid (price_reply rule t) (sights_of laid.now) at (reply_of result) costs.old costs.new }
{
    let expected = t.expected;
    let class = t.class_label;
    let mut held: usize = 64;
    let mut factor = None;
    // By index: four arrays are read side by side, and a chain of `zip` over them is no plainer.
    for j in 0..laid.count {
        let seen = laid.labels[j];
        let k = laid.kin[j];
        if is_due(class, seen, held, k) {
            let noise = laid.noises[j];
            factor = filter::factor_from(expected, noise);
            held = k;
        }
        let z = laid.positions[j];
        let cost = price(t, factor, z, seen, rule)?;
        costs[at + j] = cost;
    }
    Ok(())
}

// A row of costs for each row. The first refusal decides, in track order and then in detection order.
fn price_rows(
    rows: &[Row],
    laid: &Sightings,
    rule: PairConfig,
    costs: &mut [f64; 4096],
) -> Result<(), Refusal>
    requires { (length rows.now ≤ 64) × Sound laid.now }
    ensures { Tabled rule rows.now (sights_of laid.now) (reply_of result) costs.old costs.new }
{
    for (i, row) in rows.iter().enumerate() {
        price_row(row.target, laid, rule, costs, i * laid.count)?;
    }
    Ok(())
}

// The same for a batch's detections, which are laid out once.
// A leaf: the pairing stage lends no more rows and detections than there are places.
pub fn price_table(
    rows: &[Row],
    seen: &[Detection],
    rule: PairConfig,
    costs: &mut [f64; 4096],
) -> Result<(), Refusal>
    requires { (length rows.now ≤ 64) × (length seen.now ≤ 64) }
    ensures { Tabled rule rows.now seen.now (reply_of result) costs.old costs.new }
{
    let mut laid = Sightings::new();
    laid.lay_detections(seen);
    price_rows(rows, &laid, rule, costs)
}
