// The tracker for C programs: the calls of `c_tracker` over records that are lent.
ghost use Rattle.std.specs.Prelude.{◌≡◌};
ghost use Rattle.settings.specs.Settings.{default_settings};
ghost use Rattle.records.specs.Configs.{settings_to};
ghost use Rattle.c_tracker.specs.Calls.{Heeded, check_answer, new_answer, predict_on, predict_answer, prior_on, prior_answer, batch_on, batch_answer};

use batch_records::{PkBatch, PkReport};
use records::config::PkSettings;
use records::tracker::PkTracker;

// The settings that hold where nothing is set.
#[unsafe(no_mangle)]
pub extern "C" fn pk_settings_default() -> PkSettings
    ensures { result ≡ settings_to default_settings }
{
    c_tracker::settings_default()
}

// The number of the first bad field, or 0.
#[unsafe(no_mangle)]
pub extern "C" fn pk_settings_check(s: PkSettings) -> u32
    ensures { result ≡ check_answer s }
{
    c_tracker::settings_check(s)
}

// A tracker that has seen nothing, where the settings may be used.
#[unsafe(no_mangle)]
pub extern "C" fn pk_tracker_new(t: &mut PkTracker, s: PkSettings) -> u32
    ensures { (t.new ≡ (new_answer t.old s).tracker) × (result ≡ (new_answer t.old s).code) }
{
    let a = c_tracker::new(*t, s);
    *t = a.tracker;
    a.code
}

// The tracker at a time.
#[unsafe(no_mangle)]
pub extern "C" fn pk_predict_to(t: &mut PkTracker, at: i64) -> u32
    ensures { (t.new ≡ (predict_answer t.old at).tracker) × (result ≡ (predict_answer t.old at).code)
        × Heeded (predict_on t.old at) }
{
    let a = c_tracker::predict_to(*t, at);
    *t = a.tracker;
    a.code
}

// The prior of the track of a number.
#[unsafe(no_mangle)]
pub extern "C" fn pk_set_class_prior(t: &mut PkTracker, id: u64, label: u32, confidence: f64) -> u32
    ensures { (t.new ≡ (prior_answer t.old id label confidence).tracker) × (result ≡ (prior_answer t.old id label confidence).code)
        × Heeded (prior_on t.old id label confidence) }
{
    let a = c_tracker::set_class_prior(*t, id, label, confidence);
    *t = a.tracker;
    a.code
}

// A sensor's batch.
#[unsafe(no_mangle)]
pub extern "C" fn pk_process_batch(t: &mut PkTracker, b: &PkBatch) -> PkReport
    ensures { (t.new ≡ (batch_answer t.old b.now).tracker)
        × (result ≡ (batch_answer t.old b.now).report)
        × Heeded (batch_on t.old b.now) }
{
    let a = c_tracker::process_batch(*t, *b);
    *t = a.tracker;
    a.report
}
