// What the births and the report are told of the pairing.
#![tactic(auto)]

ghost use Rattle.std.specs.Prelude.{◌≡◌, [], ◌≤◌, length, replicate};
ghost use Rattle.association.specs.Told.{mate_of, alone, PairsTold, unmatched_of, Listed};

use types::{MAX_OBSERVATIONS, MAX_TRACKS};

// The track that took a detection, and at what cost.
#[derive(Clone, Copy)]
pub struct Pair {
    pub track: u64,
    pub cost: f64,
}

// Numbers of tracks in the front of an array: a list of fixed room, as there is no heap.
#[derive(Clone, Copy)]
pub struct Unmatched {
    pub ids: [u64; MAX_TRACKS],
    pub count: usize,
}

// No detection is taken.
pub fn no_pairs() -> [Option<Pair>; MAX_OBSERVATIONS]
    ensures { result ≡ replicate 64 alone }
{
    [None; MAX_OBSERVATIONS]
}

// The pair of each column, where its taker is the place of a track.
// A leaf: the pairing stage lends no more tracks and columns than there are places.
pub fn pairs_of(
    ids: &[u64],
    takers: &[usize],
    costs: &[f64; 4096],
) -> [Option<Pair>; MAX_OBSERVATIONS]
    requires { (length ids.now ≤ 64) × (length takers.now ≤ 64) }
    ensures { PairsTold ids.now (length ids.now) (length takers.now) costs.now takers.now (length takers.now) result }
{
    let m = takers.len();
    let mut pairs = no_pairs();
    for (j, &i) in takers.iter().enumerate() {
        if i < ids.len() {
            let pair = Pair {
                track: ids[i],
                cost: costs[i * m + j],
            };
            pairs[j] = Some(pair);
        }
    }
    pairs
}

// The numbers of the tracks that took no detection, in track order.
// A leaf, as above.
pub fn unmatched_of(ids: &[u64], mates: &[usize; 64]) -> Unmatched
    requires { length ids.now ≤ 64 }
    ensures { Listed (unmatched_of (mate_of mates.now []) 0 ids.now) result.ids result.count }
{
    let mut left = [0u64; MAX_TRACKS];
    let mut count: usize = 0;
    for (i, id) in ids.iter().enumerate() {
        if mates[i] < MAX_OBSERVATIONS {
            continue;
        }
        left[count] = *id;
        count += 1;
    }
    Unmatched { ids: left, count }
}
