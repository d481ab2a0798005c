// Birth candidates by themselves, so that what stands behind their count in the state is left alone.
#![tactic(auto)]

ghost use Rattle.std.specs.Prelude.{◌≡◌, [], ◌∷◌, ◌++◌, ℕ, ◌≤◌, ◌<◌, Float, length, set, get_or, Option, None, Some};
ghost use Rattle.number.specs.Reply.{given, reply_by};
ghost use Rattle.lists.specs.Table.{swap_remove};
ghost use Rattle.types.specs.Refusals.{number_of};
ghost use Rattle.calls.specs.Births.{Nearest, stays, remaining, considered, nearest_from, continued_at, seen_again, sighted_by, sighted_for};
ghost use Rattle.birth_candidates.specs.Candidates.{near_of, list_of, over, no_candidate, after_aging, after_sighting, seen_in};

use detections::Detection;
use settings::Cartesian3DTrackerConfig;
use types::MAX_CANDIDATES;
use types::refusal::Refusal;
use types::tracker::BirthCandidate;

// An array with a count, as the state has it, which may be anything.
#[derive(Clone, Copy)]
pub struct Candidates {
    pub items: [BirthCandidate; MAX_CANDIDATES],
    pub count: usize,
}

// What a sighting makes of the candidates: how many sightings begin a track, once they are enough, and the candidates after it.
#[derive(Clone, Copy)]
pub struct Sighted {
    pub begins: Option<u32>,
    pub candidates: Candidates,
}

// Where the nearest candidate stands, and how far it is.
#[derive(Clone, Copy)]
struct Near {
    at: usize,
    distance: f64,
}

// Whether a candidate was seen within the timeout; refused where its age is one that an i64 does not hold.
fn judge(x: BirthCandidate, now: i64, timeout: i64) -> Result<bool, Refusal>
    ensures { reply_by number_of result ≡ stays timeout now x }
{
    let since = number::time::checked_duration_since(now, x.last_seen);
    let age = since.ok_or(Refusal::TimestampOverflow)?;
    Ok(age <= timeout)
}

// The nearer of the nearest so far and one candidate.
fn nearer(
    best: Option<Near>,
    at: usize,
    x: BirthCandidate,
    d: Detection,
    time: i64,
    radius: f64,
) -> Option<Near>
    ensures { (o : Option Nearest) → best ≡ near_of o → result ≡ near_of (considered radius time d at x o) }
{
    if x.last_seen == time {
        return best;
    }
    let distance = detections::births::distance(x.position, d.position);
    if distance < radius && best.is_none_or(|b| distance < b.distance) {
        Some(Near { at, distance })
    } else {
        best
    }
}

impl Candidates {
    // How many there are, of the places that there are.
    pub fn len(&self) -> usize
        ensures { (result ≡ length (list_of self.now)) × (result ≤ 64) }
    {
        tables::taken(self.count, MAX_CANDIDATES)
    }

    // Candidates not seen for longer than the timeout are gone.
    pub fn age(&self, now: i64, timeout: i64) -> Result<Candidates, Refusal>
        ensures { reply_by number_of result ≡ after_aging self.now (remaining timeout now (list_of self.now)) }
    {
        let mut items = self.items;
        let mut kept: usize = 0;
        for x in &self.items[..self.len()] {
            let stays = judge(*x, now, timeout)?;
            if stays {
                items[kept] = *x;
                kept += 1;
            }
        }
        Ok(Candidates { items, count: kept })
    }

    // The same by the timeout of the settings.
    pub fn age_by(&self, now: i64, config: Cartesian3DTrackerConfig) -> Result<Candidates, Refusal>
        ensures { reply_by number_of result ≡ after_aging self.now (remaining config.birth_candidate_timeout_ns now (list_of self.now)) }
    {
        self.age(now, config.birth_candidate_timeout_ns)
    }

    // The nearest candidate within the radius that was not seen at this time, the earlier on a tie.
    fn nearest(&self, d: Detection, time: i64, radius: f64) -> Option<Near>
        ensures { result ≡ near_of (nearest_from radius time d 0 None (list_of self.now)) }
    {
        let mut best = None;
        for (i, x) in self.items[..self.len()].iter().enumerate() {
            best = nearer(best, i, *x, d, time, radius);
        }
        best
    }

    // x in the place of the one at k.
    fn replace(&mut self, k: usize, x: BirthCandidate)
        requires { k < length (list_of self.old) }
        ensures { self.new ≡ over self.old (set (list_of self.old) k x) }
    {
        self.count = self.len();
        self.items[k] = x;
    }

    // The one at k is out, and the last one in its place.
    fn remove(&mut self, k: usize)
        requires { k < length (list_of self.old) }
        ensures { self.new ≡ over self.old (swap_remove k (list_of self.old)) }
    {
        let last = self.len() - 1;
        self.items[k] = self.items[last];
        self.count = last;
    }

    // x behind the others.
    fn push(&mut self, x: BirthCandidate)
        requires { length (list_of self.old) < 64 }
        ensures { self.new ≡ over self.old (list_of self.old ++ (x ∷ [])) }
    {
        let n = self.len();
        self.items[n] = x;
        self.count = n + 1;
    }

    // The candidate at k is seen again: often enough it leaves, else it takes the detection's place and time.
    fn proceed(&self, k: usize, d: Detection, time: i64, required: u32) -> Sighted
        requires { k < length (list_of self.now) }
        ensures { (radius : Float) → result ≡ seen_in self.now (continued_at required (list_of self.now) k (seen_again radius time d (get_or self.now.items k no_candidate))) }
    {
        let mut candidates = *self;
        let sightings = number::time::next_count(self.items[k].sightings);
        if required <= sightings {
            candidates.remove(k);
            return Sighted {
                begins: Some(sightings),
                candidates,
            };
        }
        let position = d.position;
        let x = BirthCandidate {
            position,
            last_seen: time,
            sightings,
        };
        candidates.replace(k, x);
        Sighted {
            begins: None,
            candidates,
        }
    }

    // A detection that no candidate is near, seen for the first time, where there is room for one more.
    fn begin(&self, d: Detection, time: i64) -> Result<Sighted, Refusal>
        ensures { (radius : Float) (required : ℕ) → reply_by number_of result ≡ after_sighting self.now (sighted_by radius time d required (list_of self.now) None) }
    {
        if self.len() == MAX_CANDIDATES {
            return Err(Refusal::TooMany);
        }
        let mut candidates = *self;
        let position = d.position;
        let x = BirthCandidate {
            position,
            last_seen: time,
            sightings: 1,
        };
        candidates.push(x);
        Ok(Sighted {
            begins: None,
            candidates,
        })
    }

    // A detection near a confirmed track, seen among the candidates.
    pub fn sight(
        &self,
        d: Detection,
        time: i64,
        radius: f64,
        required: u32,
    ) -> Result<Sighted, Refusal>
        ensures { reply_by number_of result ≡ after_sighting self.now (sighted_for radius time d (Some required) (list_of self.now)) }
    {
        match self.nearest(d, time, radius) {
            Some(near) => Ok(self.proceed(near.at, d, time, required)),
            None => self.begin(d, time),
        }
    }

    // The candidates as they are; the count is of places.
    pub fn settled(&self) -> Candidates
        ensures { result ≡ over self.now (list_of self.now) }
    {
        let mut candidates = *self;
        candidates.count = self.len();
        candidates
    }

    // The candidates that are kept, in the first places; those behind them are as they were.
    pub fn laid(&self, kept: &Candidates) -> Candidates
        ensures { result ≡ over self.now (list_of kept.now) }
    {
        let mut items = self.items;
        let n = kept.len();
        items[..n].copy_from_slice(&kept.items[..n]);
        Candidates { items, count: n }
    }
}
