// Runs sequences of calls on a tracker, read from standard input, and writes what each answers and leaves, so that recorded answers can be held to ours: those
// of the calls that ship to C programs, over their records. Lines are those of crate wire; oracle/replay/src/calls.rs says what stands in each. Calls that are read:
//   s four words of settings. n: a new tracker under the settings that are loaded. Answers n, 0 or the first bad field, 0, and the digest of the state.
//   m time: predict_to. c track, label, confidence: set_class_prior. Each answers its letter, 0 or the refusal's number, 0, and the digest of the state.
//   d four words of a detection. f four numbers: a frame's name. b sensor, sequence, time, sizes: the batch of what is loaded. Answers b, 0 or the refusal's number, the
//     report's digest, and the state's.
//   e: the state. Answers e and how many words it has; then these in lines w of four.
#![tactic(auto)]

mod batch;
mod config;
mod loads;
mod report;
mod runs;
mod state;
mod track;
mod words;

use std::io;

fn main(rt: HostRuntime) -> io::Result<()> {
    let mut stdin = rt.stdin();
    let mut tracker = records::tracker::fresh(c_tracker::settings_default());
    let mut loads = loads::nothing();
    // Far more lines than an input has: a loop has to end.
    for _ in 0..1099511627776u64 {
        let Some(line) = wire::read(&mut stdin)? else {
            break;
        };
        if loads::is_load(line.letter) {
            loads::load(&mut loads, line);
            continue;
        }
        tracker = runs::run(&rt, tracker, &loads, line)?;
        loads::after(&mut loads, line.letter);
    }
    Ok(())
}
