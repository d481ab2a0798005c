// The sensors that contributed to a track: without repeats, the oldest first, at most a limit of them, in fixed room, as there is no heap.
ghost use Rattle.std.specs.Prelude.{◌≡◌, List, [], ◌∷◌, ◌++◌, ℕ, ◌+◌, ◌-◌, ◌≤◌, ◌<◌, min, length, take, drop, set};
ghost use Rattle.lists.specs.First.{any};
ghost use Rattle.lists.specs.Lay.{lay};
ghost use Rattle.lifecycle.specs.Sensors.{is, bound_of, sensors_of, over, recorded_of};

#[repr(C)]
#[derive(Clone, Copy)]
pub struct Sensors {
    pub ids: [u32; 16],
    pub count: usize,
}

// The limit that holds: one from 1 to 16 itself, 16 for any other.
fn bound(limit: usize) -> usize
    ensures { result ≡ bound_of limit }
{
    match limit {
        1..=15 => limit,
        _ => 16,
    }
}

impl Sensors {
    // A sensor that is new goes last; where the limit is reached the oldest is forgotten and the others are moved down.
    pub fn record_sensor(self, sensor: u32, limit: usize) -> Self
        ensures { result ≡ over self (recorded_of (sensors_of self) sensor limit) }
    {
        let mut ids = self.ids;
        // How many of the places are taken, whatever the count says.
        let n = self.count.min(16);
        let known = ids[..n].contains(&sensor);
        if known {
            Sensors { ids, count: n }
        } else if bound(limit) <= n {
            ids.copy_within(1..n, 0);
            ids[n - 1] = sensor;
            Sensors { ids, count: n }
        } else {
            ids[n] = sensor;
            Sensors { ids, count: n + 1 }
        }
    }
}
