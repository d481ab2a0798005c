// The words of a state: the places of the tracker that are taken, without the settings.
use super::words::Words;
use records::tracker::PkTracker;
use types::tracker::BirthCandidate;
use wire::floats::bits_of;
use wire::signs::bits;

fn push_sequences(words: &mut Words, t: &PkTracker) {
    for x in t.sequences.iter().take(t.sequence_count) {
        words.push(u64::from(x.sensor));
        words.push(x.sequence);
    }
}

fn push_candidate(words: &mut Words, c: &BirthCandidate) {
    for x in &c.position {
        words.push(bits_of(*x));
    }
    words.push(bits(c.last_seen));
    words.push(u64::from(c.sightings));
}

// All words of a state.
pub fn state_of(t: &PkTracker) -> Words {
    let mut words = Words::new(0);
    for x in t.tracks.iter().take(t.track_count) {
        super::track::push_track(&mut words, x);
    }
    words.push(t.track_count as u64);
    words.push(t.next_track_id);
    words.push(bits(t.last_time));
    push_sequences(&mut words, t);
    words.push(t.sequence_count as u64);
    for c in t.candidates.iter().take(t.candidate_count) {
        push_candidate(&mut words, c);
    }
    words.push(t.candidate_count as u64);
    words.push(u64::from(t.has_last_time));
    words
}
