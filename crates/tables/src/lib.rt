// The tables of a tracker: each operation equals one on lists. Those of tracks and candidates take the whole state by value and change it in place; sensors are noted in their table by itself as well.
#![tactic(auto)]

ghost use Rattle.std.specs.Prelude.{◌≡◌, min};

pub mod candidates;
pub mod sequences;
pub mod tracks;

// How many places of a table are taken, whatever its count says.
pub fn taken(count: usize, most: usize) -> usize
    ensures { result ≡ min count most }
{
    count.min(most)
}
