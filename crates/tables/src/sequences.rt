// The table of sensors with their latest sequence numbers, ascending by sensor.
ghost use Rattle.std.specs.Prelude.{◌≡◌, ◌≤◌, min, take};
ghost use Rattle.lists.specs.First.{first_at};
ghost use Rattle.types.specs.States.{sequences_of, over_sequences};
ghost use Rattle.tables.specs.Sequences.{not_before, last_of, over, room_for, inserted_in, noted_in};

use types::MAX_SEQUENCES;
use types::tracker::{Cartesian3DTracker, SensorSequence};

// The table by itself, for whoever holds it in another state. An array and a count, since there is no heap (01: "fixed arrays with a length").
#[derive(Clone, Copy)]
pub struct Sequences {
    pub entries: [SensorSequence; MAX_SEQUENCES],
    pub count: usize,
}

impl Sequences {
    // Where the first sensor stands that isn't before this one. Not by halves: the table may be anything, and only calls keep it ascending.
    fn seat_of(&self, sensor: u32) -> Option<usize>
        ensures { result ≡ first_at (not_before sensor) (take self.now.count self.now.entries) }
    {
        let n = super::taken(self.count, MAX_SEQUENCES);
        self.entries[..n].iter().position(|e| sensor <= e.sensor)
    }

    // The sensor's latest sequence number.
    pub fn last(&self, sensor: u32) -> Option<u64>
        ensures { result ≡ last_of sensor (take self.now.count self.now.entries) }
    {
        let e = self.entries[self.seat_of(sensor)?];
        (e.sensor == sensor).then_some(e.sequence)
    }

    // Whether the sensor has a place, or there is one left for it.
    pub fn has_room_for(&self, sensor: u32) -> bool
        ensures { result ≡ room_for 32 sensor (take self.now.count self.now.entries) }
    {
        self.last(sensor).is_some() || self.count < MAX_SEQUENCES
    }

    // The entry at `at`, those from there on one place up, where there is room for one more. `note` meets what it asks: a place of a search, or the one behind the last.
    fn insert(self, at: usize, entry: SensorSequence) -> Sequences
        requires { at ≤ min self.count 32 }
        ensures { result ≡ over self (inserted_in 32 at entry (take self.count self.entries)) }
    {
        let n = super::taken(self.count, MAX_SEQUENCES);
        let mut entries = self.entries;
        if n == MAX_SEQUENCES {
            return Sequences { entries, count: n };
        }
        entries.copy_within(at..n, at + 1);
        entries[at] = entry;
        Sequences {
            entries,
            count: n + 1,
        }
    }

    // The sensor's latest sequence number is this one; nothing changes where there is no room for the sensor.
    pub fn note(self, sensor: u32, sequence: u64) -> Sequences
        ensures { result ≡ over self (noted_in 32 sensor sequence (take self.count self.entries)) }
    {
        let n = super::taken(self.count, MAX_SEQUENCES);
        let mut entries = self.entries;
        let entry = SensorSequence { sensor, sequence };
        match self.seat_of(sensor) {
            None => self.insert(n, entry),
            Some(i) => {
                if entries[i].sensor == sensor {
                    entries[i] = entry;
                    Sequences { entries, count: n }
                } else {
                    self.insert(i, entry)
                }
            }
        }
    }
}

// The same in the state of a tracker.
pub fn note_sequence(mut s: Cartesian3DTracker, sensor: u32, sequence: u64) -> Cartesian3DTracker
    ensures { result ≡ over_sequences s (noted_in 32 sensor sequence (sequences_of s)) }
{
    let entries = s.sequences;
    let held = Sequences {
        entries,
        count: s.sequence_count,
    };
    let noted = held.note(sensor, sequence);
    let sequences = noted.entries;
    s.sequences = sequences;
    s.sequence_count = noted.count;
    s
}
