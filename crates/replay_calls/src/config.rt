// Settings of their words.
use lifecycle::LifecycleConfig;
use records::config::PkSettings;
use settings::frame::FrameName;
use wire::floats::number_of;
use wire::low_half;
use wire::signs::signed;

fn lifecycle_of(w: &[u64; 28]) -> LifecycleConfig {
    LifecycleConfig {
        confirm_min_observation_times: low_half(w[0]),
        tentative_timeout_ns: signed(w[1]),
        confirmed_to_lost_ns: signed(w[2]),
        lost_to_delete_ns: signed(w[3]),
    }
}

fn frame_of(w: &[u64; 28]) -> FrameName {
    let bytes = wire::names::bytes_of([w[5], w[6], w[7], w[8]]);
    FrameName {
        bytes,
        length: w[9] as usize,
    }
}

pub fn settings_of(w: &[u64; 28]) -> PkSettings {
    PkSettings {
        lifecycle: lifecycle_of(w),
        max_contributing_sensors: w[4] as usize,
        frame: frame_of(w),
        accel_spectral_density: number_of(w[10]),
        initial_velocity_variance: number_of(w[11]),
        gate_squared_mahalanobis: number_of(w[12]),
        class_prior_penalty: number_of(w[13]),
        birth_candidate_radius_m: number_of(w[14]),
        birth_candidate_timeout_ns: signed(w[15]),
        new_track_score_threshold: number_of(w[16]),
        recent_track_window_ns: signed(w[17]),
        min_birth_distance_m: number_of(w[18]),
        velocity_measurement_std: number_of(w[19]),
        birth_persistence: low_half(w[20]),
        has_new_track_score_threshold: low_half(w[21]),
        has_recent_track_window: low_half(w[22]),
        has_min_birth_distance: low_half(w[23]),
        has_velocity_measurement_std: low_half(w[24]),
        has_birth_persistence: low_half(w[25]),
    }
}
