// Times and durations in nanoseconds, and the count of observation times.
ghost use Rattle.std.specs.Prelude.{◌≡◌, ◌+◌, ◌-◌, ◌^◌, min};
ghost use Rattle.number.specs.Time.{seconds_of, duration_reply, reply_of_duration, age_of};

// Nanoseconds as seconds.
pub fn seconds(nanoseconds: i64) -> f64
    ensures { result ≡ seconds_of nanoseconds }
{
    std::num::nearest_i64_to_f64(nanoseconds) / 1000000000.0
}

// now - earlier, where an i64 holds it.
#[tactic(auto, using(crate::proofs::Durations::checked))]
pub fn checked_duration_since(now: i64, earlier: i64) -> Option<i64>
    ensures { reply_of_duration result ≡ duration_reply now earlier }
{
    now.checked_sub(earlier)
}

// How long ago `since` was at `now`; 0 where it lies ahead or the difference overflows.
#[tactic(auto, unfolding(crate::specs::Time::age_of))]
pub fn age(now: i64, since: i64) -> i64
    ensures { result ≡ age_of now since }
{
    checked_duration_since(now, since).map_or(0, |d| d.max(0))
}

// One more, and the largest count stays as it is.
pub fn next_count(count: u32) -> u32
    ensures { result ≡ min (count + 1) (2 ^ 32 - 1) }
{
    count.saturating_add(1)
}
