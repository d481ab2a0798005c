// Kalman filters, by calls.
ghost use Rattle.std.specs.Prelude.{◌+◌, ◌≤◌};

use super::pairs::Seen;
use detections::PlanarVelocity;
use filter::KalmanFilter;
use math::linalg::Refusal;
use std::io;
use wire::Line;
use wire::floats::{bits_of, number_of};

// A filter, and numbers that calls take: 6 of a state, 36 of its covariance, 3 of a position, 9 of its covariance, 2 of a velocity and 1 where there is one.
#[derive(Clone, Copy)]
pub struct Filters {
    filter: KalmanFilter,
    numbers: [f64; 57],
}

pub fn new() -> Filters {
    let filter = KalmanFilter {
        state: [0.0; 6],
        covariance: [0.0; 36],
    };
    Filters {
        filter,
        numbers: [0.0; 57],
    }
}

pub fn code_of(why: Refusal) -> u64 {
    u64::from(u32::from(why))
}

// Some of the numbers, from `from` on.
fn part<const N: usize>(numbers: &[f64; 57], from: usize) -> [f64; N]
    requires { from + N ≤ 57 }
{
    let mut part = [0.0; N];
    part.copy_from_slice(&numbers[from..from + N]);
    part
}

// The last three.
fn velocity_of(numbers: [f64; 57]) -> Option<PlanarVelocity> {
    (numbers[56] > 0.0).then_some(PlanarVelocity {
        x: numbers[54],
        y: numbers[55],
    })
}

// Writes a filter in eleven lines: its state, its covariance, zeros after them.
fn write_filter(rt: &impl Print, f: KalmanFilter) -> io::Result<()> {
    let mut numbers = [0; 44];
    for (place, x) in numbers.iter_mut().zip(f.state.iter().chain(&f.covariance)) {
        *place = bits_of(*x);
    }
    let (lines, _) = numbers.as_slice().as_chunks::<4>();
    for line in lines {
        wire::write(rt, b'V', *line)?;
    }
    Ok(())
}

// Writes what a call answers, and the filter after it: the one before, where it is refused.
fn with_answer(
    rt: &impl Print,
    r: Filters,
    answer: Result<KalmanFilter, Refusal>,
) -> io::Result<Filters> {
    let code = answer.err().map_or(0, code_of);
    let filter = answer.unwrap_or(r.filter);
    wire::write(rt, b'F', [code, 0, 0, 0])?;
    write_filter(rt, filter)?;
    Ok(Filters { filter, ..r })
}

fn write_distance(rt: &impl Print, d: Result<f64, Refusal>) -> io::Result<()> {
    match d {
        Ok(x) => wire::write(rt, b'E', [0, bits_of(x), 0, 0]),
        Err(why) => wire::write(rt, b'E', [code_of(why), 0, 0, 0]),
    }
}

// Three numbers into the places from `place` on.
fn load(mut r: Filters, line: Line) -> Filters {
    let [place, a, b, c] = line.numbers;
    let i = (place % 55) as usize;
    r.numbers[i] = number_of(a);
    r.numbers[i + 1] = number_of(b);
    r.numbers[i + 2] = number_of(c);
    r
}

// A filter of the numbers. One that is refused is loaded all the same, so that the other calls are tried on such a filter too.
fn create(rt: &impl Print, r: Filters) -> io::Result<Filters> {
    let state = part(&r.numbers, 0);
    let covariance = part(&r.numbers, 6);
    let filter = KalmanFilter { state, covariance };
    with_answer(
        rt,
        Filters { filter, ..r },
        filter::create(state, covariance),
    )
}

// One call: see main.rt.
pub fn run(rt: &impl Print, r: Filters, line: Line) -> io::Result<Filters> {
    let [first, second, third, _] = line.numbers;
    let a = number_of(first);
    let b = number_of(second);
    let c = number_of(third);
    let position = part(&r.numbers, 42);
    let noise = part(&r.numbers, 45);
    match line.letter {
        b'V' => Ok(load(r, line)),
        b'K' => create(rt, r),
        b'P' => with_answer(rt, r, filter::predict(r.filter, a, b)),
        b'U' => with_answer(rt, r, filter::update_position(r.filter, position, noise)),
        b'W' => with_answer(rt, r, filter::update_velocity(r.filter, [a, b], c)),
        b'D' => {
            write_distance(rt, filter::squared_mahalanobis(r.filter, position, noise))?;
            Ok(r)
        }
        _ => {
            let seen = Seen {
                position,
                covariance: noise,
                velocity: velocity_of(r.numbers),
            };
            super::pairs::run(rt, r.filter, seen, line)?;
            Ok(r)
        }
    }
}
