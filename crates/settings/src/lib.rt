// The settings of the tracker: the fields, their defaults, and the check that names the first bad one.
#![tactic(auto)]

ghost use Rattle.std.specs.Prelude.{◌≡◌};
ghost use Rattle.settings.specs.Settings.{default_settings, reply_of, settings_reply};

pub mod bad_field;
mod check;
mod fields;
pub mod frame;

use bad_field::BadField;
use frame::FrameName;
use lifecycle::LifecycleConfig;

#[derive(Clone, Copy)]
pub struct Cartesian3DTrackerConfig {
    // When a track is confirmed, lost and dropped.
    pub lifecycle: LifecycleConfig,
    // Detections below this score begin no track.
    pub new_track_score_threshold: Option<f64>,
    // How many sensors a track remembers.
    pub max_contributing_sensors: usize,
    // The one frame whose batches are taken.
    pub frame_id: FrameName,
    // How much velocities change: the density of a white acceleration, in m²/s³.
    pub accel_spectral_density: f64,
    // How little is known of a new track's velocity, in m²/s².
    pub initial_velocity_variance: f64,
    // The largest squared Mahalanobis distance of a pair.
    pub gate_squared_mahalanobis: f64,
    // What a class against the prior adds to a pair's cost at confidence 1.
    pub class_prior_penalty: f64,
    // Tracks seen within this time are paired first.
    pub recent_track_window_ns: Option<i64>,
    // Detections nearer than this to a confirmed track begin none at once.
    pub min_birth_distance_m: Option<f64>,
    // Sightings after which such a detection begins one all the same.
    pub birth_persistence: Option<u32>,
    // How near a sighting must be to continue a candidate.
    pub birth_candidate_radius_m: f64,
    // A candidate that is not seen for longer is forgotten.
    pub birth_candidate_timeout_ns: i64,
    // The standard deviation of a measured velocity, in m/s on each axis; without one, measured velocities are passed over.
    pub velocity_measurement_std: Option<f64>,
}

impl Cartesian3DTrackerConfig {
    pub const DEFAULT_CONFIRM_MIN_OBSERVATION_TIMES: u32 = 2;

    pub const DEFAULT_TENTATIVE_TIMEOUT_NS: i64 = 1_000_000_000;

    pub const DEFAULT_CONFIRMED_TO_LOST_NS: i64 = 500_000_000;

    pub const DEFAULT_LOST_TO_DELETE_NS: i64 = 2_000_000_000;

    pub const DEFAULT_NEW_TRACK_SCORE_THRESHOLD: f64 = 0.3;

    pub const DEFAULT_MAX_CONTRIBUTING_SENSORS: usize = 16;

    pub const DEFAULT_FRAME_ID: FrameName = FrameName {
        bytes: *b"world\0\0\0\0\0\0\0\0\0\0\0\0\0\0\0\0\0\0\0\0\0\0\0\0\0\0\0",
        length: 5,
    };

    pub const DEFAULT_ACCEL_SPECTRAL_DENSITY: f64 = 1.0;

    pub const DEFAULT_INITIAL_VELOCITY_VARIANCE: f64 = 4.0;

    pub const DEFAULT_GATE_SQUARED_MAHALANOBIS: f64 = 16.266;

    pub const DEFAULT_CLASS_PRIOR_PENALTY: f64 = 8.0;

    pub const DEFAULT_BIRTH_CANDIDATE_RADIUS_M: f64 = 0.5;

    pub const DEFAULT_BIRTH_CANDIDATE_TIMEOUT_NS: i64 = 300_000_000;

    // The settings that hold where nothing is set.
    pub fn default() -> Self
        ensures { result ≡ default_settings }
    {
        let lifecycle = LifecycleConfig {
            confirm_min_observation_times: Self::DEFAULT_CONFIRM_MIN_OBSERVATION_TIMES,
            tentative_timeout_ns: Self::DEFAULT_TENTATIVE_TIMEOUT_NS,
            confirmed_to_lost_ns: Self::DEFAULT_CONFIRMED_TO_LOST_NS,
            lost_to_delete_ns: Self::DEFAULT_LOST_TO_DELETE_NS,
        };
        let new_track_score_threshold = Some(Self::DEFAULT_NEW_TRACK_SCORE_THRESHOLD);
        Cartesian3DTrackerConfig {
            lifecycle,
            new_track_score_threshold,
            max_contributing_sensors: Self::DEFAULT_MAX_CONTRIBUTING_SENSORS,
            frame_id: Self::DEFAULT_FRAME_ID,
            accel_spectral_density: Self::DEFAULT_ACCEL_SPECTRAL_DENSITY,
            initial_velocity_variance: Self::DEFAULT_INITIAL_VELOCITY_VARIANCE,
            gate_squared_mahalanobis: Self::DEFAULT_GATE_SQUARED_MAHALANOBIS,
            class_prior_penalty: Self::DEFAULT_CLASS_PRIOR_PENALTY,
            recent_track_window_ns: None,
            min_birth_distance_m: None,
            birth_persistence: None,
            birth_candidate_radius_m: Self::DEFAULT_BIRTH_CANDIDATE_RADIUS_M,
            birth_candidate_timeout_ns: Self::DEFAULT_BIRTH_CANDIDATE_TIMEOUT_NS,
            velocity_measurement_std: None,
        }
    }

    // Whether the settings may be used, else their first bad field.
    pub fn validate(self) -> Result<(), BadField>
        ensures { reply_of result ≡ settings_reply self }
    {
        check::lifecycle(self)?;
        check::numbers(self)?;
        check::births(self)?;
        check::rest(self)
    }
}
