// Settings, by calls.
use super::lives::present;
use lifecycle::LifecycleConfig;
use settings::Cartesian3DTrackerConfig;
use settings::bad_field::BadField;
use settings::frame::FrameName;
use std::io;
use wire::floats::{bits_of, number_of};
use wire::signs::{bits, signed};
use wire::{Line, low_half, names};

// The fields in their order, one number each, but that a frame is its length and four numbers of eight bytes.
#[derive(Clone, Copy)]
pub struct Loaded {
    numbers: [u64; 21],
}

pub fn new() -> Loaded {
    Loaded { numbers: [0; 21] }
}

fn frame_of(numbers: [u64; 21]) -> FrameName {
    FrameName {
        bytes: names::bytes_of([numbers[7], numbers[8], numbers[9], numbers[10]]),
        length: numbers[6] as usize,
    }
}

fn lifecycle_of(numbers: [u64; 21]) -> LifecycleConfig {
    LifecycleConfig {
        confirm_min_observation_times: low_half(numbers[0]),
        tentative_timeout_ns: signed(numbers[1]),
        confirmed_to_lost_ns: signed(numbers[2]),
        lost_to_delete_ns: signed(numbers[3]),
    }
}

// The settings, given which optional fields are set: a binary digit each, the first the lowest.
fn settings_of(numbers: [u64; 21], set: u64) -> Cartesian3DTrackerConfig {
    Cartesian3DTrackerConfig {
        lifecycle: lifecycle_of(numbers),
        new_track_score_threshold: (set % 2 == 1).then_some(number_of(numbers[4])),
        max_contributing_sensors: numbers[5] as usize,
        frame_id: frame_of(numbers),
        accel_spectral_density: number_of(numbers[11]),
        initial_velocity_variance: number_of(numbers[12]),
        gate_squared_mahalanobis: number_of(numbers[13]),
        class_prior_penalty: number_of(numbers[14]),
        recent_track_window_ns: (set / 2 % 2 == 1).then_some(signed(numbers[15])),
        min_birth_distance_m: (set / 4 % 2 == 1).then_some(number_of(numbers[16])),
        birth_persistence: (set / 8 % 2 == 1).then_some(low_half(numbers[17])),
        birth_candidate_radius_m: number_of(numbers[18]),
        birth_candidate_timeout_ns: signed(numbers[19]),
        velocity_measurement_std: (set / 16 % 2 == 1).then_some(number_of(numbers[20])),
    }
}

// The number of the first bad field, 0 where there is none.
fn field_of(v: Result<(), BadField>) -> u64 {
    v.err().map_or(0, |field| u64::from(u32::from(field)))
}

// Three numbers into the places from `place` on.
fn load(mut l: Loaded, line: Line) -> Loaded {
    let [place, a, b, c] = line.numbers;
    let i = (place % 19) as usize;
    l.numbers[i] = a;
    l.numbers[i + 1] = b;
    l.numbers[i + 2] = c;
    l
}

// One call: see main.rt.
pub fn run(rt: &impl Print, l: Loaded, line: Line) -> io::Result<Loaded> {
    match line.letter {
        b'T' => Ok(load(l, line)),
        b'X' => {
            let v = settings_of(l.numbers, line.numbers[0]).validate();
            wire::write(rt, b'X', [field_of(v), 0, 0, 0])?;
            Ok(l)
        }
        _ => {
            write_settings(rt, Cartesian3DTrackerConfig::default())?;
            Ok(l)
        }
    }
}

// Writes settings in six lines: the numbers, and which optional fields are set.
fn write_settings(rt: &impl Print, c: Cartesian3DTrackerConfig) -> io::Result<()> {
    write_common(rt, c)?;
    write_tracker(rt, c)
}

// The fields up to the frame's name.
fn write_common(rt: &impl Print, c: Cartesian3DTrackerConfig) -> io::Result<()> {
    let life = c.lifecycle;
    let [first, second, third, fourth] = names::words_of(&c.frame_id.bytes);
    let times = [
        life.confirm_min_observation_times as u64,
        bits(life.tentative_timeout_ns),
        bits(life.confirmed_to_lost_ns),
        bits(life.lost_to_delete_ns),
    ];
    wire::write(rt, b'Z', times)?;
    let frame = [
        c.new_track_score_threshold.map_or(0, bits_of),
        c.max_contributing_sensors as u64,
        c.frame_id.length as u64,
        first,
    ];
    wire::write(rt, b'Z', frame)?;
    let density = bits_of(c.accel_spectral_density);
    wire::write(rt, b'Z', [second, third, fourth, density])
}

// The fields behind the frame's name but one, and which are set.
fn write_tracker(rt: &impl Print, c: Cartesian3DTrackerConfig) -> io::Result<()> {
    let set = present(c.new_track_score_threshold)
        + present(c.recent_track_window_ns) * 2
        + present(c.min_birth_distance_m) * 4
        + present(c.birth_persistence) * 8
        + present(c.velocity_measurement_std) * 16;
    let pairing = [
        bits_of(c.initial_velocity_variance),
        bits_of(c.gate_squared_mahalanobis),
        bits_of(c.class_prior_penalty),
        c.recent_track_window_ns.map_or(0, bits),
    ];
    wire::write(rt, b'Z', pairing)?;
    let births = [
        c.min_birth_distance_m.map_or(0, bits_of),
        c.birth_persistence.map_or(0, u64::from),
        bits_of(c.birth_candidate_radius_m),
        bits(c.birth_candidate_timeout_ns),
    ];
    wire::write(rt, b'Z', births)?;
    let deviation = c.velocity_measurement_std.map_or(0, bits_of);
    wire::write(rt, b'Z', [deviation, set, 0, 0])
}
