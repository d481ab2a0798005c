// Whether a field is bad: the tests of the Rust's `validate`, one for each kind of field.
ghost use Rattle.std.specs.Prelude.{◌≡◌};
ghost use Rattle.settings.specs.Optional.{set_and};
ghost use Rattle.settings.specs.Fields.{negative_number, not_positive_number, outside_unit, not_positive_time, below_two};

use number::float::is_finite;

// Whether a number is not finite, or below 0.
pub fn negative(x: f64) -> bool
    ensures { result ≡ negative_number x }
{
    !is_finite(x) || x < 0.0
}

// Whether a number is not finite, or not above 0.
pub fn not_positive(x: f64) -> bool
    ensures { result ≡ not_positive_number x }
{
    !is_finite(x) || x <= 0.0
}

// Whether a number does not lie in 0..1; a NaN does not.
fn outside_unit(x: f64) -> bool
    ensures { result ≡ outside_unit x }
{
    !(0.0 <= x && x <= 1.0)
}

// Whether a time is not above 0.
pub fn not_positive_time(t: i64) -> bool
    ensures { result ≡ not_positive_time t }
{
    t <= 0
}

pub fn threshold_is_bad(threshold: Option<f64>) -> bool
    ensures { result ≡ set_and outside_unit threshold }
{
    threshold.is_some_and(outside_unit)
}

pub fn length_is_bad(length: Option<f64>) -> bool
    ensures { result ≡ set_and not_positive_number length }
{
    length.is_some_and(not_positive)
}

pub fn persistence_is_bad(persistence: Option<u32>) -> bool
    ensures { result ≡ set_and below_two persistence }
{
    persistence.is_some_and(
        |n| -> bool
            ensures { result ≡ below_two n }
        { n < 2 },
    )
}

pub fn window_is_bad(window: Option<i64>) -> bool
    ensures { result ≡ set_and not_positive_time window }
{
    window.is_some_and(not_positive_time)
}
