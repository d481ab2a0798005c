// Tests and choices on binary64 numbers.
ghost use Rattle.std.specs.Prelude.{◌≡◌};
ghost use Rattle.std.specs.Float.Ieee.Scale.{finite};
ghost use Rattle.number.specs.Float.{absolute_of, larger_of, clamp_of};

// Whether x is neither a NaN nor an infinity.
#[tactic(auto, using(crate::proofs::Same::same_test))]
pub fn is_finite(x: f64) -> bool
    ensures { result ≡ finite x }
{
    x.is_finite()
}

// x without its sign.
#[tactic(auto, using(crate::proofs::Same::no_sign))]
pub fn absolute(x: f64) -> f64
    ensures { result ≡ absolute_of x }
{
    x.abs()
}

// The larger of two numbers; `max` would pass over a NaN, and leave open which of two zeros it gives.
pub fn larger(a: f64, b: f64) -> f64
    ensures { result ≡ larger_of a b }
{
    if a < b { b } else { a }
}

// x, or the end of 0..1 that it lies beyond.
pub fn clamp_to_unit(x: f64) -> f64
    ensures { result ≡ clamp_of x }
{
    x.clamp(0.0, 1.0)
}
