// What a C program holds in the place of a value that may be missing, a choice or an enum: a flag and a value, or a number.
#![tactic(auto)]

ghost use Rattle.std.specs.Prelude.{◌≡◌};
ghost use Rattle.flags.specs.Flags.{flagged, flag, prior_of, the_prior, the_confidence, mark_of, mark_to, life_of, life_to, velocity_of, outcome_to};

use detections::PlanarVelocity;
use detections::pairs::ClassPrior;
use lifecycle::TrackLifecycleState;
use types::batch::ObservationOutcome;

// The value, where its flag says that it is there.
pub fn flagged<T: Copy>(has: u32, value: T) -> Option<T>
    ensures { result ≡ flagged has value }
{
    if has == 0 { None } else { Some(value) }
}

// The flag of a value that may be missing.
pub fn flag<T: Copy>(o: Option<T>) -> u32
    ensures { result ≡ flag o }
{
    u32::from(o.is_some())
}

pub fn prior_of(has: u32, label: u32, confidence: f64) -> Option<ClassPrior>
    ensures { result ≡ prior_of has label confidence }
{
    flagged(has, ClassPrior { label, confidence })
}

pub fn the_prior(o: Option<ClassPrior>) -> u32
    ensures { result ≡ the_prior o }
{
    o.map_or(0, |p| p.label)
}

pub fn the_confidence(o: Option<ClassPrior>) -> f64
    ensures { result ≡ the_confidence o }
{
    o.map_or(0.0, |p| p.confidence)
}

pub fn mark_of(n: u32) -> bool
    ensures { result ≡ mark_of n }
{
    n != 0
}

pub fn mark_to(m: bool) -> u32
    ensures { result ≡ mark_to m }
{
    u32::from(m)
}

// Tentative is 0, Confirmed 1, Lost 2; Deleted is 3 and what else a C program writes there. No `as` leads from a number to an enum.
pub fn life_of(n: u32) -> TrackLifecycleState
    ensures { result ≡ life_of n }
{
    match n {
        0 => TrackLifecycleState::Tentative,
        1 => TrackLifecycleState::Confirmed,
        2 => TrackLifecycleState::Lost,
        _ => TrackLifecycleState::Deleted,
    }
}

// By a table: the numbers are the C record's, and crate `lifecycle`, whose enum it is, knows of none; here an `as` would read the order of its declaration, no plainer.
pub fn life_to(s: TrackLifecycleState) -> u32
    ensures { result ≡ life_to s }
{
    match s {
        TrackLifecycleState::Tentative => 0,
        TrackLifecycleState::Confirmed => 1,
        TrackLifecycleState::Lost => 2,
        TrackLifecycleState::Deleted => 3,
    }
}

pub fn velocity_of(has: u32, x: f64, y: f64) -> Option<PlanarVelocity>
    ensures { result ≡ velocity_of has x y }
{
    flagged(has, PlanarVelocity { x, y })
}

pub fn outcome_to(o: ObservationOutcome) -> u32
    ensures { result ≡ outcome_to o }
{
    o as u32
}
