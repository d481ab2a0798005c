// The words of a report.
use super::words::Words;
use batch_records::{PkAssociation, PkReport};
use wire::floats::bits_of;
use wire::signs::bits;

fn push_association(words: &mut Words, a: &PkAssociation) {
    words.push(a.observation_index as u64);
    words.push(a.track_id);
    words.push(bits_of(a.cost));
    words.push(u64::from(a.outcome));
    words.push(u64::from(a.has_track));
    words.push(u64::from(a.has_cost));
}

// All words of a report.
pub fn report_of(r: &PkReport) -> Words {
    let mut words = Words::new(0);
    words.push(u64::from(r.code));
    words.push(u64::from(r.sensor_id));
    words.push(bits(r.timestamp));
    words.push(r.association_count as u64);
    words.push(r.unmatched_track_count as u64);
    for a in r.associations.iter().take(r.association_count) {
        push_association(&mut words, a);
    }
    for id in r.unmatched_track_ids.iter().take(r.unmatched_track_count) {
        words.push(*id);
    }
    words
}
