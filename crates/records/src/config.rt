// The settings as a C program holds them. Conversions are functions by name, not `From`: each bears the name of the definition that it equals, which the contracts above cite, and a `from` would say the same and be no plainer.
ghost use Rattle.std.specs.Prelude.{◌≡◌};
ghost use Rattle.records.specs.Configs.{settings_of, settings_to};

use lifecycle::LifecycleConfig;
use settings::Cartesian3DTrackerConfig;
use settings::frame::FrameName;

#[repr(C)]
#[derive(Clone, Copy)]
pub struct PkSettings {
    pub lifecycle: LifecycleConfig,
    pub max_contributing_sensors: usize,
    pub frame: FrameName,
    pub accel_spectral_density: f64,
    pub initial_velocity_variance: f64,
    pub gate_squared_mahalanobis: f64,
    pub class_prior_penalty: f64,
    pub birth_candidate_radius_m: f64,
    pub birth_candidate_timeout_ns: i64,
    pub new_track_score_threshold: f64,
    pub recent_track_window_ns: i64,
    pub min_birth_distance_m: f64,
    pub velocity_measurement_std: f64,
    pub birth_persistence: u32,
    pub has_new_track_score_threshold: u32,
    pub has_recent_track_window: u32,
    pub has_min_birth_distance: u32,
    pub has_velocity_measurement_std: u32,
    pub has_birth_persistence: u32,
}

#[tactic(auto, unfolding(crate::specs::Configs::settings_of))]
pub fn settings_of(s: PkSettings) -> Cartesian3DTrackerConfig
    ensures { result ≡ settings_of s }
{
    Cartesian3DTrackerConfig {
        lifecycle: s.lifecycle,
        new_track_score_threshold: flags::flagged(
            s.has_new_track_score_threshold,
            s.new_track_score_threshold,
        ),
        max_contributing_sensors: s.max_contributing_sensors,
        frame_id: s.frame,
        accel_spectral_density: s.accel_spectral_density,
        initial_velocity_variance: s.initial_velocity_variance,
        gate_squared_mahalanobis: s.gate_squared_mahalanobis,
        class_prior_penalty: s.class_prior_penalty,
        recent_track_window_ns: flags::flagged(s.has_recent_track_window, s.recent_track_window_ns),
        min_birth_distance_m: flags::flagged(s.has_min_birth_distance, s.min_birth_distance_m),
        birth_persistence: flags::flagged(s.has_birth_persistence, s.birth_persistence),
        birth_candidate_radius_m: s.birth_candidate_radius_m,
        birth_candidate_timeout_ns: s.birth_candidate_timeout_ns,
        velocity_measurement_std: flags::flagged(
            s.has_velocity_measurement_std,
            s.velocity_measurement_std,
        ),
    }
}

#[tactic(auto, unfolding(crate::specs::Configs::settings_to))]
pub fn settings_to(s: Cartesian3DTrackerConfig) -> PkSettings
    ensures { result ≡ settings_to s }
{
    let threshold = s.new_track_score_threshold;
    let window = s.recent_track_window_ns;
    let distance = s.min_birth_distance_m;
    let persistence = s.birth_persistence;
    let deviation = s.velocity_measurement_std;
    PkSettings {
        lifecycle: s.lifecycle,
        max_contributing_sensors: s.max_contributing_sensors,
        frame: s.frame_id,
        accel_spectral_density: s.accel_spectral_density,
        initial_velocity_variance: s.initial_velocity_variance,
        gate_squared_mahalanobis: s.gate_squared_mahalanobis,
        class_prior_penalty: s.class_prior_penalty,
        birth_candidate_radius_m: s.birth_candidate_radius_m,
        birth_candidate_timeout_ns: s.birth_candidate_timeout_ns,
        new_track_score_threshold: threshold.unwrap_or(0.0),
        recent_track_window_ns: window.unwrap_or(0),
        min_birth_distance_m: distance.unwrap_or(0.0),
        velocity_measurement_std: deviation.unwrap_or(0.0),
        birth_persistence: persistence.unwrap_or(0),
        has_new_track_score_threshold: flags::flag(threshold),
        has_recent_track_window: flags::flag(window),
        has_min_birth_distance: flags::flag(distance),
        has_velocity_measurement_std: flags::flag(deviation),
        has_birth_persistence: flags::flag(persistence),
    }
}
