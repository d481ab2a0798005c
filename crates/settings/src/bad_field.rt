// The settings that the check may find bad, and their numbers.
ghost use Rattle.std.specs.Prelude.{◌≡◌};
ghost use Rattle.settings.specs.Fields.{number_of_field};

// In the specification's order. The contributing sensors are asked twice: whether there are none, and whether they are too many.
#[derive(Clone, Copy, PartialEq, Eq)]
pub enum BadField {
    TentativeTimeout = 1,
    ConfirmedToLost = 2,
    LostToDelete = 3,
    ContributingSensors = 4,
    ScoreThreshold = 5,
    AccelerationDensity = 6,
    VelocityVariance = 7,
    Gate = 8,
    ClassPenalty = 9,
    BirthDistance = 10,
    BirthPersistence = 11,
    CandidateRadius = 12,
    CandidateTimeout = 13,
    VelocityDeviation = 14,
    RecentWindow = 15,
    FrameNameTooLong = 16,
    TooManyContributingSensors = 17,
}

impl From<BadField> for u32 {
    ghost from_gives = { λ field number. number ≡ number_of_field field };

    fn from(field: BadField) -> u32 {
        field as u32
    }
}
