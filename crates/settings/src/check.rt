// The check of the settings, field after field in the specification's order, in four parts: the first bad field is the answer.
ghost use Rattle.std.specs.Prelude.{◌≡◌, [], ◌∷◌, take, drop};
ghost use Rattle.settings.specs.Fields.{field, first_bad, number_of_field};
ghost use Rattle.settings.specs.Settings.{reply_of, fields_of};

use super::bad_field::BadField;
use super::fields::{negative, not_positive, not_positive_time};
use super::{Cartesian3DTrackerConfig, fields, frame};

fn refuse_if(bad: bool, name: BadField) -> Result<(), BadField>
    ensures { reply_of result ≡ first_bad (field (number_of_field name) bad ∷ []) }
{
    if bad { Err(name) } else { Ok(()) }
}

// Fields 1 to 3.
pub fn lifecycle(c: Cartesian3DTrackerConfig) -> Result<(), BadField>
    ensures { reply_of result ≡ first_bad (take 3 (fields_of c)) }
{
    let life = c.lifecycle;
    refuse_if(
        not_positive_time(life.tentative_timeout_ns),
        BadField::TentativeTimeout,
    )?;
    refuse_if(
        not_positive_time(life.confirmed_to_lost_ns),
        BadField::ConfirmedToLost,
    )?;
    refuse_if(
        life.lost_to_delete_ns < life.confirmed_to_lost_ns,
        BadField::LostToDelete,
    )
}

// Fields 4 to 9.
pub fn numbers(c: Cartesian3DTrackerConfig) -> Result<(), BadField>
    ensures { reply_of result ≡ first_bad (take 6 (drop 3 (fields_of c))) }
{
    let threshold = c.new_track_score_threshold;
    refuse_if(
        c.max_contributing_sensors == 0,
        BadField::ContributingSensors,
    )?;
    refuse_if(
        fields::threshold_is_bad(threshold),
        BadField::ScoreThreshold,
    )?;
    refuse_if(
        negative(c.accel_spectral_density),
        BadField::AccelerationDensity,
    )?;
    refuse_if(
        not_positive(c.initial_velocity_variance),
        BadField::VelocityVariance,
    )?;
    refuse_if(not_positive(c.gate_squared_mahalanobis), BadField::Gate)?;
    refuse_if(negative(c.class_prior_penalty), BadField::ClassPenalty)
}

// Fields 10 to 13.
pub fn births(c: Cartesian3DTrackerConfig) -> Result<(), BadField>
    ensures { reply_of result ≡ first_bad (take 4 (drop 9 (fields_of c))) }
{
    let distance = c.min_birth_distance_m;
    let persistence = c.birth_persistence;
    let timeout = c.birth_candidate_timeout_ns;
    refuse_if(fields::length_is_bad(distance), BadField::BirthDistance)?;
    refuse_if(
        fields::persistence_is_bad(persistence),
        BadField::BirthPersistence,
    )?;
    refuse_if(
        not_positive(c.birth_candidate_radius_m),
        BadField::CandidateRadius,
    )?;
    refuse_if(not_positive_time(timeout), BadField::CandidateTimeout)
}

// The fields from 14 on.
pub fn rest(c: Cartesian3DTrackerConfig) -> Result<(), BadField>
    ensures { reply_of result ≡ first_bad (drop 13 (fields_of c)) }
{
    let deviation = c.velocity_measurement_std;
    let window = c.recent_track_window_ns;
    let name = c.frame_id;
    refuse_if(
        fields::length_is_bad(deviation),
        BadField::VelocityDeviation,
    )?;
    refuse_if(fields::window_is_bad(window), BadField::RecentWindow)?;
    refuse_if(frame::too_long(name), BadField::FrameNameTooLong)?;
    refuse_if(
        16 < c.max_contributing_sensors,
        BadField::TooManyContributingSensors,
    )
}
