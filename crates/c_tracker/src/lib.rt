// The tracker's calls over the records that a C program holds, by value: each answers 01's number, and beside it the record as it is after the call.
#![tactic(auto)]

ghost use Rattle.std.specs.Prelude.{◌≡◌};
ghost use Rattle.number.specs.Reply.{code_of};
ghost use Rattle.settings.specs.Settings.{default_settings, settings_reply};
ghost use Rattle.settings.specs.Settings as settings;
ghost use Rattle.types.specs.Refusals.{reply_of};
ghost use Rattle.records.specs.Configs.{settings_of, settings_to};
ghost use Rattle.c_tracker.specs.Calls.{Heeded, check_answer, new_answer, predict_on, predict_answer, prior_on, prior_answer, batch_on, batch_answer, settled};

use batch_records::{PkBatch, PkReport};
use records::config::PkSettings;
use records::tracker::PkTracker;
use settings::Cartesian3DTrackerConfig;
use settings::bad_field::BadField;
use types::refusal::Refusal;
use types::tracker::Cartesian3DTracker;

// The tracker after a call, and 0 or the number of the refusal. No `Result`, since a C program gets the record back either way (01: "state by value, the old one given back").
#[derive(Clone, Copy)]
pub struct Answer {
    pub tracker: PkTracker,
    pub code: u32,
}

// The tracker after a batch, and the report, with the number in it.
#[derive(Clone, Copy)]
pub struct Processed {
    pub tracker: PkTracker,
    pub report: PkReport,
}

// 0, or the number of the refusal.
fn code_of(outcome: Result<(), Refusal>) -> u32
    ensures { result ≡ code_of (reply_of outcome) }
{
    outcome.err().map_or(0, u32::from)
}

// What the C program holds after a call that left u: where it was refused, what it held before.
fn settle(t: PkTracker, outcome: Result<(), Refusal>, u: Cartesian3DTracker) -> PkTracker
    ensures { result ≡ settled t outcome u }
{
    match outcome {
        Ok(()) => records::tracker::lay_over(t, u),
        Err(_) => t,
    }
}

// The settings that hold where nothing is set.
pub fn settings_default() -> PkSettings
    ensures { result ≡ settings_to default_settings }
{
    records::config::settings_to(Cartesian3DTrackerConfig::default())
}

fn validate(s: PkSettings) -> Result<(), BadField>
    ensures { settings.reply_of result ≡ settings_reply (settings_of s) }
{
    records::config::settings_of(s).validate()
}

// The number of the first bad field, or 0.
pub fn settings_check(s: PkSettings) -> u32
    ensures { result ≡ check_answer s }
{
    validate(s).err().map_or(0, u32::from)
}

// A tracker that has seen nothing, where the settings may be used.
pub fn new(t: PkTracker, s: PkSettings) -> Answer
    ensures { result ≡ new_answer t s }
{
    match validate(s) {
        Ok(()) => Answer {
            tracker: records::tracker::fresh(s),
            code: 0,
        },
        Err(_) => Answer {
            tracker: t,
            code: 1,
        },
    }
}

// The tracker at a time.
pub fn predict_to(t: PkTracker, at: i64) -> Answer
    ensures { (result ≡ predict_answer t at) × Heeded (predict_on t at) }
{
    match owner::predict_to(t, at) {
        Ok(tracker) => Answer { tracker, code: 0 },
        Err(why) => Answer {
            tracker: t,
            code: u32::from(why),
        },
    }
}

// The prior of the track of a number.
pub fn set_class_prior(t: PkTracker, id: u64, label: u32, confidence: f64) -> Answer
    ensures { (result ≡ prior_answer t id label confidence) × Heeded (prior_on t id label confidence) }
{
    let answer = tracker::set_class_prior(records::tracker::tracker_of(t), id, label, confidence);
    let outcome = answer.outcome;
    Answer {
        tracker: settle(t, outcome, answer.tracker),
        code: code_of(outcome),
    }
}

// A sensor's batch.
pub fn process_batch(t: PkTracker, b: PkBatch) -> Processed
    ensures { (result ≡ batch_answer t b) × Heeded (batch_on t b) }
{
    match owner::batch::process_batch(t, batch_records::batch_of(b)) {
        Ok(ran) => Processed {
            tracker: ran.tracker,
            report: batch_records::report_to(0, ran.report),
        },
        Err(why) => Processed {
            tracker: t,
            report: batch_records::report_to(u32::from(why), stages::blank_report()),
        },
    }
}
