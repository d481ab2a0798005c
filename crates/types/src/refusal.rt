// Why a call on the tracker is refused, and what the refusals of its parts are among them.
ghost use Rattle.std.specs.Prelude.{◌≡◌};
ghost use Rattle.types.specs.declared.refusal.Refusal.TheVariants.{InvalidConfig};
ghost use Rattle.types.specs.Refusals.{number_of, of_matrix, of_assignment};

use assignment::AssignmentError;
use settings::bad_field::BadField;

#[derive(Clone, Copy)]
pub enum Refusal {
    // With the first bad field.
    InvalidConfig(BadField),
    FrameMismatch,
    TimestampWentBackwards,
    DuplicateBatch,
    NonFiniteValue,
    NotSymmetric,
    NotPositiveDefinite,
    TimestampOverflow,
    NonFiniteResult,
    AssignmentFailed,
    TooMany,
    InvalidPrior,
}

// A refusal of matrices and filters.
impl From<math::linalg::Refusal> for Refusal {
    ghost from_gives = { λ why refusal. refusal ≡ of_matrix why };

    fn from(why: math::linalg::Refusal) -> Refusal {
        match why {
            math::linalg::Refusal::NonFiniteValue => Refusal::NonFiniteValue,
            math::linalg::Refusal::NotSymmetric => Refusal::NotSymmetric,
            math::linalg::Refusal::NotPositiveDefinite => Refusal::NotPositiveDefinite,
            math::linalg::Refusal::NonFiniteResult => Refusal::NonFiniteResult,
        }
    }
}

// A refusal of the assignment.
impl From<AssignmentError> for Refusal {
    ghost from_gives = { λ why refusal. refusal ≡ of_assignment why };

    fn from(why: AssignmentError) -> Refusal {
        match why {
            AssignmentError::TooMany => Refusal::TooMany,
            AssignmentError::NonFinite => Refusal::NonFiniteResult,
            AssignmentError::Failed => Refusal::AssignmentFailed,
        }
    }
}

// Settings that are refused.
impl From<BadField> for Refusal {
    ghost from_gives = { λ field refusal. refusal ≡ InvalidConfig field };

    fn from(field: BadField) -> Refusal {
        Refusal::InvalidConfig(field)
    }
}

// 01's number of a refusal.
impl From<Refusal> for u32 {
    ghost from_gives = { λ why number. number ≡ number_of why };

    fn from(why: Refusal) -> u32 {
        match why {
            Refusal::InvalidConfig(_) => 1,
            Refusal::FrameMismatch => 2,
            Refusal::TimestampWentBackwards => 3,
            Refusal::DuplicateBatch => 4,
            Refusal::NonFiniteValue => 5,
            Refusal::NotSymmetric => 6,
            Refusal::NotPositiveDefinite => 7,
            Refusal::TimestampOverflow => 8,
            Refusal::NonFiniteResult => 9,
            Refusal::AssignmentFailed => 10,
            Refusal::TooMany => 11,
            Refusal::InvalidPrior => 12,
        }
    }
}
