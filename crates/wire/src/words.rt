// Words that are written or told apart together, one behind the other: so many at most, and how many are taken. What finds no room is passed over.
ghost use Rattle.std.specs.Prelude.{◌≡◌, ◌+◌, ◌≤◌, min, replicate, set, take};
ghost use Rattle.wire.specs.Digest.{digest_of};

use crate::digests;
use std::io;

#[derive(Drop)]
pub struct Words<const N: usize> {
    words: [u64; N],
    len: usize,
    ghost within: { len ≤ N },
}

impl<const N: usize> Words<N> {
    // No word is taken; `rest` stands in each place.
    pub fn new(rest: u64) -> Self
        ensures { (result.words ≡ replicate N rest) × (result.len ≡ 0) }
    {
        Words {
            words: [rest; N],
            len: 0,
        }
    }

    pub fn len(&self) -> usize
        ensures { result ≡ self.now.len }
    {
        self.len
    }

    // What stands in each place, taken or not.
    pub fn all(&self) -> &[u64; N]
        ensures { result.now ≡ self.now.words }
    {
        &self.words
    }

    // No word is taken any more; each stands where it stood.
    pub fn clear(&mut self)
        ensures { (self.new.words ≡ self.old.words) × (self.new.len ≡ 0) }
    {
        self.len = 0;
    }

    // One word more, if there is room.
    pub fn push(&mut self, word: u64)
        ensures { (self.new.words ≡ set self.old.words self.old.len word) × (self.new.len ≡ min (self.old.len + 1) N) }
    {
        if self.len < N {
            self.words[self.len] = word;
            self.len += 1;
        }
    }

    // The digest of the words that are taken.
    pub fn digest(&self) -> u64
        ensures { result ≡ digest_of (take self.now.len self.now.words) }
    {
        digests::digest_all(&self.words[..self.len])
    }

    // Writes the words that are taken, four to a line, with what stands in the rest of the last line.
    pub fn write(&self, rt: &impl Print, letter: u8) -> io::Result<()> {
        let (lines, _) = self.words[..].as_chunks::<4>();
        for line in lines.iter().take(self.len.div_ceil(4)) {
            crate::write(rt, letter, *line)?;
        }
        Ok(())
    }
}
