// The table of birth candidates. Its order shows: the earlier of two that are as near wins.
ghost use Rattle.std.specs.Prelude.{◌≡◌, set};
ghost use Rattle.lists.specs.Table.{pushed, swap_remove};
ghost use Rattle.types.specs.States.{candidates_of, over_candidates};

use types::MAX_CANDIDATES;
use types::tracker::{BirthCandidate, Cartesian3DTracker};

// The candidate behind the others, where there is room for one more.
pub fn push_candidate(mut s: Cartesian3DTracker, candidate: BirthCandidate) -> Cartesian3DTracker
    ensures { result ≡ over_candidates s (pushed 64 candidate (candidates_of s)) }
{
    let n = super::taken(s.candidate_count, MAX_CANDIDATES);
    if n < MAX_CANDIDATES {
        s.candidates[n] = candidate;
        s.candidate_count = n + 1;
    } else {
        s.candidate_count = n;
    }
    s
}

// The candidate in the place of the one at i, where there is one.
pub fn replace_candidate(
    mut s: Cartesian3DTracker,
    i: usize,
    candidate: BirthCandidate,
) -> Cartesian3DTracker
    ensures { result ≡ over_candidates s (set (candidates_of s) i candidate) }
{
    let n = super::taken(s.candidate_count, MAX_CANDIDATES);
    s.candidate_count = n;
    if i < n {
        s.candidates[i] = candidate;
    }
    s
}

// The candidate at i is out, and the last one in its place.
pub fn swap_remove_candidate(mut s: Cartesian3DTracker, i: usize) -> Cartesian3DTracker
    ensures { result ≡ over_candidates s (swap_remove i (candidates_of s)) }
{
    let n = super::taken(s.candidate_count, MAX_CANDIDATES);
    if i < n {
        let last = s.candidates[n - 1];
        s.candidates[i] = last;
        s.candidate_count = n - 1;
    } else {
        s.candidate_count = n;
    }
    s
}
