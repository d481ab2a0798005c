// The life of a track, by elapsed time and distinct observation times alone, and the sensors that contributed to it.
#![tactic(auto)]

ghost use Rattle.std.specs.Prelude.{◌≡◌};
ghost use Rattle.lifecycle.specs.Lifecycle.{new_of, counted_of, matured, observed, registered_of, credited_of, reference_of, settled, verdict_of, aged_of, advanced_of};

pub mod sensors;

#[derive(Clone, Copy)]
pub enum TrackLifecycleState {
    Tentative,
    Confirmed,
    Lost,
    Deleted,
}

#[derive(Clone, Copy)]
pub struct TrackLifecycle {
    pub state: TrackLifecycleState,
    pub created_at: i64,
    pub last_observation: Option<i64>,
    pub last_counted: Option<i64>,
    pub observation_times: u32,
}

// What of the tracker's settings a life depends on.
#[repr(C)]
#[derive(Clone, Copy)]
pub struct LifecycleConfig {
    pub confirm_min_observation_times: u32,
    pub tentative_timeout_ns: i64,
    pub confirmed_to_lost_ns: i64,
    pub lost_to_delete_ns: i64,
}

#[derive(Clone, Copy)]
pub enum Verdict {
    Kept,
    Dropped,
}

// A life as a time leaves it, and whether it goes on, which its state tells by one rule that is asked once (`verdict_of`). No Option: the life as it is left is told of one that is dropped too.
#[derive(Clone, Copy)]
pub struct AgedLifecycle {
    pub lifecycle: TrackLifecycle,
    pub verdict: Verdict,
}

impl TrackLifecycle {
    // A tentative life that was never observed.
    pub fn new(created_at: i64) -> Self
        ensures { result ≡ new_of created_at }
    {
        TrackLifecycle {
            state: TrackLifecycleState::Tentative,
            created_at,
            last_observation: None,
            last_counted: None,
            observation_times: 0,
        }
    }
}

// The count after an observation at `time`.
#[tactic(auto, unfolding(crate::specs::Lifecycle::counted_of))]
fn counted(last: Option<i64>, time: i64, count: u32) -> u32
    ensures { result ≡ counted_of last time count }
{
    match last {
        Some(t) if t == time => count,
        _ => number::time::next_count(count),
    }
}

// A tentative life that was seen often enough is confirmed.
fn mature(state: TrackLifecycleState, count: u32, enough: u32) -> TrackLifecycleState
    ensures { result ≡ matured state count enough }
{
    match state {
        TrackLifecycleState::Tentative => {
            if enough <= count {
                TrackLifecycleState::Confirmed
            } else {
                state
            }
        }
        other => other,
    }
}

// A lost life that is seen again is confirmed.
fn observe(state: TrackLifecycleState, count: u32, enough: u32) -> TrackLifecycleState
    ensures { result ≡ observed state count enough }
{
    match state {
        TrackLifecycleState::Tentative => mature(state, count, enough),
        TrackLifecycleState::Lost => TrackLifecycleState::Confirmed,
        other => other,
    }
}

// The life after an observation at `time`.
pub fn registered(l: TrackLifecycle, time: i64, config: LifecycleConfig) -> TrackLifecycle
    ensures { result ≡ registered_of l time config }
{
    let count = counted(l.last_counted, time, l.observation_times);
    TrackLifecycle {
        state: observe(l.state, count, config.confirm_min_observation_times),
        last_observation: Some(time),
        last_counted: Some(time),
        observation_times: count,
        ..l
    }
}

// The life after `count` earlier observation times are credited to it.
pub fn credited(l: TrackLifecycle, count: u32, config: LifecycleConfig) -> TrackLifecycle
    ensures { result ≡ credited_of l count config }
{
    let times = l.observation_times.max(count);
    TrackLifecycle {
        state: mature(l.state, times, config.confirm_min_observation_times),
        observation_times: times,
        ..l
    }
}

// The time that ages count from.
fn reference(l: TrackLifecycle) -> i64
    ensures { result ≡ reference_of l }
{
    l.last_observation.unwrap_or(l.created_at)
}

// The state after every step that is due at this age. Nested, and no guards: with guards the last arm isn't told which states it has, so that the proof doesn't close (tried).
fn settle(state: TrackLifecycleState, age: i64, config: LifecycleConfig) -> TrackLifecycleState
    ensures { result ≡ settled config age state }
{
    match state {
        TrackLifecycleState::Tentative => {
            if config.tentative_timeout_ns < age {
                TrackLifecycleState::Deleted
            } else {
                state
            }
        }
        TrackLifecycleState::Confirmed => {
            if config.confirmed_to_lost_ns < age {
                settle_lost(age, config)
            } else {
                state
            }
        }
        TrackLifecycleState::Lost => settle_lost(age, config),
        TrackLifecycleState::Deleted => state,
    }
}

fn settle_lost(age: i64, config: LifecycleConfig) -> TrackLifecycleState
    ensures { result ≡ settled config age TrackLifecycleState.Lost }
{
    if config.lost_to_delete_ns < age {
        TrackLifecycleState::Deleted
    } else {
        TrackLifecycleState::Lost
    }
}

fn verdict_of(state: TrackLifecycleState) -> Verdict
    ensures { result ≡ verdict_of state }
{
    match state {
        TrackLifecycleState::Deleted => Verdict::Dropped,
        _ => Verdict::Kept,
    }
}

// The life at the time `now`, and whether it goes on.
pub fn aged(l: TrackLifecycle, now: i64, config: LifecycleConfig) -> AgedLifecycle
    ensures { result ≡ aged_of l now config }
{
    let state = settle(l.state, number::time::age(now, reference(l)), config);
    AgedLifecycle {
        lifecycle: TrackLifecycle { state, ..l },
        verdict: verdict_of(state),
    }
}

// The life at the time `now`, if it goes on.
pub fn advanced(l: TrackLifecycle, now: i64, config: LifecycleConfig) -> Option<TrackLifecycle>
    ensures { result ≡ advanced_of l now config }
{
    let a = aged(l, now, config);
    let lifecycle = a.lifecycle;
    let verdict = a.verdict;
    match verdict {
        Verdict::Kept => Some(lifecycle),
        Verdict::Dropped => None,
    }
}

// An observation at `time`, registered where the track keeps its life.
pub fn register_observation(l: &mut TrackLifecycle, time: i64, config: LifecycleConfig)
    ensures { l.new ≡ registered_of l.old time config }
{
    *l = registered(*l, time, config);
}

// Time moved on to `at` where the track keeps its life, and whether it goes on.
pub fn advance(l: &mut TrackLifecycle, at: i64, config: LifecycleConfig) -> Verdict
    ensures { (l.new ≡ (aged_of l.old at config).lifecycle) × (result ≡ (aged_of l.old at config).verdict) }
{
    let s = aged(*l, at, config);
    *l = s.lifecycle;
    s.verdict
}
