// The words of a track.
use super::words::Words;
use filter::KalmanFilter;
use lifecycle::sensors::Sensors;
use records::tracks::PkTrack;
use wire::floats::bits_of;
use wire::signs::bits;

fn push_filter(words: &mut Words, f: &KalmanFilter) {
    for x in f.state.iter().chain(&f.covariance) {
        words.push(bits_of(*x));
    }
}

// All places for sensors, 0 where there is none, and how many there are.
fn push_sensors(words: &mut Words, s: &Sensors) {
    for (i, id) in s.ids.iter().enumerate() {
        words.push(if i < s.count { u64::from(*id) } else { 0 });
    }
    words.push(s.count as u64);
}

// The numbers up to the sensors.
fn push_times(words: &mut Words, t: &PkTrack) {
    words.push(bits(t.created_at));
    words.push(bits(t.last_observation));
    words.push(bits(t.last_counted));
    words.push(bits(t.state_timestamp));
    words.push(bits_of(t.prior_confidence));
}

// The numbers behind the sensors.
fn push_flags(words: &mut Words, t: &PkTrack) {
    words.push(u64::from(t.lifecycle));
    words.push(u64::from(t.has_last_observation));
    words.push(u64::from(t.has_last_counted));
    words.push(u64::from(t.observation_times));
    words.push(u64::from(t.has_class));
    words.push(u64::from(t.class_label));
    words.push(u64::from(t.has_prior));
    words.push(u64::from(t.prior_label));
    words.push(u64::from(t.has_last_sensor));
    words.push(u64::from(t.last_sensor));
    words.push(u64::from(t.updated));
}

pub fn push_track(words: &mut Words, t: &PkTrack) {
    words.push(t.id);
    push_filter(words, &t.filter);
    push_times(words, t);
    push_sensors(words, &t.sensors);
    push_flags(words, t);
}
