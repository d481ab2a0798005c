// Disjoint sets of up to 128 items, by parents and ranks: path halving, union by rank.
// Seen by this crate alone: `joining` begins with every item alone, and keeps the ranks rising.
// That they rise is asked by each method, and is no fact of the type: a union may raise the highest rank, so that the room above it has to be counted by the caller.
ghost use Rattle.std.specs.Prelude.{◌≡◌, ◌<◌, replicate};
ghost use Rattle.assignment.specs.Forest.{Found, Ranked, United};
ghost use Rattle.assignment.specs.Labelling.{Alone};

#[derive(Clone, Copy)]
pub struct Forest {
    pub parent: [usize; 128],
    pub rank: [usize; 128],
}

impl Forest {
    // Each of 128 items its own parent.
    pub fn new() -> Forest
        ensures { Alone result.parent × (result.rank ≡ replicate 128 0) }
    {
        Forest {
            parent: std::array::from_fn(|x| x),
            rank: [0; 128],
        }
    }

    // The root of x's tree; each second place on the way up is pointed further up. The ranks, which rise on it, say that it ends.
    pub fn find(&mut self, x: usize) -> usize
        requires { (x < 128) × Ranked self.old.parent self.old.rank }
        ensures { Found self.old.parent self.old.rank self.new.parent x result × (self.new.rank ≡ self.old.rank) }
    {
        let mut y = x;
        // The way up a tree: no index is counted.
        while self.parent[y] != y {
            let p = self.parent[y];
            let g = self.parent[p];
            self.parent[y] = g;
            y = g;
        }
        y
    }

    // Joins the sets of a and b: the root of lower rank goes below the other, and of two equal ranks the one that stays rises.
    pub fn union(&mut self, a: usize, b: usize)
        requires { (a < 128) × (b < 128) × Ranked self.old.parent self.old.rank }
        ensures { United self.old.parent self.old.rank self.new.parent self.new.rank a b }
    {
        let ra = self.find(a);
        let rb = self.find(b);
        if ra == rb {
            return;
        }
        if self.rank[ra] < self.rank[rb] {
            self.parent[ra] = rb;
            return;
        }
        self.parent[rb] = ra;
        if self.rank[ra] == self.rank[rb] {
            self.rank[ra] = self.rank[ra] + 1;
        }
    }
}
