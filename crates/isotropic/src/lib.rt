// The check of a covariance that is a variance times the identity: it needs no root.
#![tactic(auto)]

ghost use Rattle.std.specs.Prelude.{◌≡◌};
ghost use Rattle.models.specs.Models.{isotropic};
ghost use Rattle.math.specs.Linalg.{validated, reply_of_validity};

// Whether two items measured apart from each other, each with this variance, have a covariance.
pub fn validate_isotropic2(variance: f64) -> Result<(), math::linalg::Refusal>
    ensures { reply_of_validity result ≡ validated 2 (isotropic 2 variance) }
{
    if number::float::is_finite(variance) {
        if variance > 0.0 {
            Ok(())
        } else {
            Err(math::linalg::Refusal::NotPositiveDefinite)
        }
    } else {
        Err(math::linalg::Refusal::NonFiniteValue)
    }
}
