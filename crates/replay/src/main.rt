// Runs calls read from standard input and writes what each answers or leaves, so that recorded answers can be held to ours.
// A line, read or written, is a letter and four numbers of 16 hexadecimal digits, each after a blank, and a newline. Calls that are read:
//   Q four numbers, by their bits: their roots. Answers Q and the roots' bits; a refusal's number, which is no root's bits, where one is refused.
//   G timeouts for Tentative, Confirmed and Lost, and the confirm count. Answers nothing.
//   N created_at; R time; C count; A time: a new life, an observation, a credit, time moving on. Each answers the life as it is left: its state's letter, or D
//     where the track is dropped, created_at, the last observation and the last counted time (0 where there is none), and the count, with 2^32 more where there
//     is a last observation and 2^33 more where there is a last counted time.
//   L limit: a list with no sensors. S sensor: one more. Each answers four lines: S and four of the sensors, 2^32 where the list has ended.
//   V place and three numbers, by their bits: into the numbers that calls on a filter take, from that place on: 6 of a state, 36 of its covariance, 3 of a position, 9
//     of its covariance, 2 of a velocity and 1 where there is one. Answers nothing.
//   K: a filter of the state and covariance. P dt, density: a prediction. U: an update by the position. W two velocities and their deviation: an update by them. Each
//     answers F and 0 or the refusal's number, then the filter in eleven lines V of four numbers, zeros after the last. D: the squared distance of the position; answers
//     E, 0 and the distance, or the refusal's number.
//   T place and three numbers: into the numbers that settings are made of, from that place on: each field's, in the order of the struct, but that the frame is its length and
//     four numbers of eight bytes. Answers nothing. X: the check of these settings, with which optional fields are set, a binary digit each, the first the lowest; answers X
//     and the number of the first bad field, 0 where there is none. Z: answers the default settings in six lines Z: the numbers, and which are set.
//   o: the check of a detection with that position, covariance and velocity; answers o and 0 or the refusal's number. p gate, penalty, confidence, labels: its pair with a
//     track of the filter, where it passes its check; answers p, the refusal's number, or 0 and what forbids the pair (1 classes, 2 gate, 3 cost), or 0, 0 and the cost.
//     The labels of the track, its prior and the detection are 21 bits each, from the lowest: 0 where there is none, else one more than the label. b score, threshold,
//     radius, 1 where there is a score: answers b, 1 where the score is below, the distance from the filter's position, and 1 where that is nearer.
//   B four costs, by their bits: loaded behind those that are loaded. M count, cost: one cost so many times. Each answers nothing.
//   H length, rows times 2^32 and columns, row cost and column cost by their bits: the assignment of the first costs; none is loaded then. Answers H, the
//     refusal's number or 0, and how many pairs, rows and columns that are left there are; then lines of J and four of these: the pairs as row times 2^32 and
//     column, the rows that are left, the columns that are left, and 2^64 - 1 where they have ended.
//   I four numbers: 32 bytes of a line of `assign`, eight to a number, the highest first, loaded behind those that are loaded. Answers nothing.
//   Y length: the line of the first bytes; none is loaded then. Answers Y and how many bytes answer it; then these in lines of I, zeros after the last.
#![tactic(auto)]

mod checks;
mod filters;
mod lines;
mod lives;
mod pairs;
mod roots;
mod tables;

use checks::Loaded;
use filters::Filters;
use lines::Input;
use lives::Lives;
use std::io;
use tables::Costs;
use wire::Line;

// What the calls leave, but for what is loaded of tables and lines.
#[derive(Clone, Copy)]
struct State {
    lives: Lives,
    filters: Filters,
    checks: Loaded,
}

// Runs a call on a life, on sensors, on a filter or on settings.
fn run(rt: &impl Print, state: &mut State, line: Line) -> io::Result<()> {
    match line.letter {
        b'V' | b'K' | b'P' | b'U' | b'W' | b'D' | b'o' | b'p' | b'b' => {
            state.filters = filters::run(rt, state.filters, line)?;
        }
        b'T' | b'X' | b'Z' => state.checks = checks::run(rt, state.checks, line)?,
        _ => state.lives = lives::run(rt, state.lives, line)?,
    }
    Ok(())
}

fn main(rt: HostRuntime) -> io::Result<()> {
    let mut stdin = rt.stdin();
    let mut state = State {
        lives: lives::new(),
        filters: filters::new(),
        checks: checks::new(),
    };
    let mut costs = Costs::new();
    let mut input = Input::new();
    // Far more lines than an input has: a loop has to end.
    for _ in 0..1099511627776u64 {
        let Some(line) = wire::read(&mut stdin)? else {
            break;
        };
        match line.letter {
            b'B' | b'M' | b'H' => tables::run(&rt, &mut costs, line)?,
            b'I' | b'Y' => lines::run(&rt, &mut input, line)?,
            b'Q' => roots::write(&rt, line)?,
            _ => run(&rt, &mut state, line)?,
        }
    }
    Ok(())
}
