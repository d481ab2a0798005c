// Lifecycles and lists of sensors, by calls.
ghost use Rattle.std.specs.Prelude.{◌≤◌};

use lifecycle::sensors::Sensors;
use lifecycle::{LifecycleConfig, TrackLifecycle, TrackLifecycleState, Verdict};
use std::io;
use wire::signs::{bits, signed};
use wire::{Line, low_half};

#[derive(Clone, Copy)]
pub struct Lives {
    life: TrackLifecycle,
    config: LifecycleConfig,
    sensors: Sensors,
    limit: usize,
}

pub fn new() -> Lives {
    Lives {
        life: TrackLifecycle::new(0),
        config: LifecycleConfig {
            confirm_min_observation_times: 2,
            tentative_timeout_ns: 1000000000,
            confirmed_to_lost_ns: 500000000,
            lost_to_delete_ns: 2000000000,
        },
        sensors: Sensors {
            ids: [0; 16],
            count: 0,
        },
        limit: 16,
    }
}

fn letter_of(state: TrackLifecycleState) -> u8 {
    match state {
        TrackLifecycleState::Tentative => b'T',
        TrackLifecycleState::Confirmed => b'C',
        TrackLifecycleState::Lost => b'L',
        TrackLifecycleState::Deleted => b'D',
    }
}

// 1 where there is a value.
pub fn present<T: Copy>(o: Option<T>) -> u64
    ensures { result ≤ 1 }
{
    u64::from(o.is_some())
}

fn write_life(rt: &impl Print, l: TrackLifecycle) -> io::Result<()> {
    let seen = l.last_observation;
    let counted = l.last_counted;
    let flags = present(seen) * 4294967296 + present(counted) * 8589934592;
    wire::write(
        rt,
        letter_of(l.state),
        [
            bits(l.created_at),
            seen.map_or(0, bits),
            counted.map_or(0, bits),
            (l.observation_times as u64) + flags,
        ],
    )
}

// The sensor at i, or 2^32 past the end.
fn sensor_at(s: Sensors, i: usize) -> u64 {
    if i < s.count && i < 16 {
        s.ids[i] as u64
    } else {
        4294967296
    }
}

fn write_sensors(rt: &impl Print, s: Sensors) -> io::Result<()> {
    for i in [0, 4, 8, 12] {
        let four = [
            sensor_at(s, i),
            sensor_at(s, i + 1),
            sensor_at(s, i + 2),
            sensor_at(s, i + 3),
        ];
        wire::write(rt, b'S', four)?;
    }
    Ok(())
}

fn with_life(rt: &impl Print, r: Lives, life: TrackLifecycle) -> io::Result<Lives> {
    write_life(rt, life)?;
    Ok(Lives { life, ..r })
}

fn with_sensors(rt: &impl Print, r: Lives, sensors: Sensors, limit: usize) -> io::Result<Lives> {
    write_sensors(rt, sensors)?;
    Ok(Lives {
        sensors,
        limit,
        ..r
    })
}

// One call on the life.
fn run_life(rt: &impl Print, r: Lives, letter: u8, first: u64) -> io::Result<Lives> {
    let life = match letter {
        b'N' => TrackLifecycle::new(signed(first)),
        b'R' => lifecycle::registered(r.life, signed(first), r.config),
        b'C' => lifecycle::credited(r.life, low_half(first), r.config),
        _ => lifecycle::aged(r.life, signed(first), r.config).lifecycle,
    };
    with_life(rt, r, life)
}

// One call: see main.rt.
pub fn run(rt: &impl Print, r: Lives, line: Line) -> io::Result<Lives> {
    let [first, second, third, fourth] = line.numbers;
    match line.letter {
        b'G' => {
            let config = LifecycleConfig {
                confirm_min_observation_times: low_half(fourth),
                tentative_timeout_ns: signed(first),
                confirmed_to_lost_ns: signed(second),
                lost_to_delete_ns: signed(third),
            };
            Ok(Lives { config, ..r })
        }
        b'L' => {
            let empty = Sensors {
                ids: [0; 16],
                count: 0,
            };
            with_sensors(rt, r, empty, first as usize)
        }
        b'S' => {
            let more = r.sensors.record_sensor(low_half(first), r.limit);
            with_sensors(rt, r, more, r.limit)
        }
        _ => run_life(rt, r, line.letter, first),
    }
}
