// The calls on a tracker, and what is written of each. Each gives the tracker as it is left.
use super::loads::Loads;
use super::report::report_of;
use super::state::state_of;
use batch_records::PkBatch;
use records::config::PkSettings;
use records::tracker::PkTracker;
use std::io;
use wire::floats::number_of;
use wire::signs::signed;
use wire::{Line, low_half};

// The digest of a state has the third place.
fn write(rt: &impl Print, letter: u8, code: u32, report: u64, t: &PkTracker) -> io::Result<()> {
    wire::write(
        rt,
        letter,
        [u64::from(code), report, state_of(t).digest(), 0],
    )
}

fn write_state(rt: &impl Print, t: &PkTracker) -> io::Result<()> {
    let words = state_of(t);
    wire::write(rt, b'e', [words.len() as u64, 0, 0, 0])?;
    words.write(rt, b'w')
}

// Where a field is bad, no digest is written.
fn new(rt: &impl Print, t: PkTracker, s: PkSettings) -> io::Result<PkTracker> {
    let field = c_tracker::settings_check(s);
    let answer = c_tracker::new(t, s);
    let after = answer.tracker;
    if field == 0 {
        write(rt, b'n', 0, 0, &after)?;
    } else {
        wire::write(rt, b'n', [u64::from(field), 0, 0, 0])?;
    }
    Ok(after)
}

fn process_batch(rt: &impl Print, t: PkTracker, b: PkBatch) -> io::Result<PkTracker> {
    let processed = c_tracker::process_batch(t, b);
    let after = processed.tracker;
    let report = processed.report;
    write(rt, b'b', report.code, report_of(&report).digest(), &after)?;
    Ok(after)
}

fn predict_to(rt: &impl Print, t: PkTracker, time: i64) -> io::Result<PkTracker> {
    let answer = c_tracker::predict_to(t, time);
    let after = answer.tracker;
    write(rt, b'm', answer.code, 0, &after)?;
    Ok(after)
}

fn set_class_prior(
    rt: &impl Print,
    t: PkTracker,
    id: u64,
    label: u32,
    confidence: f64,
) -> io::Result<PkTracker> {
    let answer = c_tracker::set_class_prior(t, id, label, confidence);
    let after = answer.tracker;
    write(rt, b'c', answer.code, 0, &after)?;
    Ok(after)
}

// A line n, b, m, c or e; any other is passed over.
pub fn run(rt: &impl Print, t: PkTracker, l: &Loads, line: Line) -> io::Result<PkTracker> {
    let [first, second, third, _] = line.numbers;
    match line.letter {
        b'n' => new(rt, t, super::config::settings_of(l.settings.all())),
        b'b' => process_batch(rt, t, super::batch::batch_of(l, line)),
        b'm' => predict_to(rt, t, signed(first)),
        b'c' => set_class_prior(rt, t, first, low_half(second), number_of(third)),
        b'e' => {
            write_state(rt, &t)?;
            Ok(t)
        }
        _ => Ok(t),
    }
}
