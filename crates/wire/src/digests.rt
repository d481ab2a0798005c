// The digest of words, by which recorded states and reports are compared. It stays below its modulus, so that no step of it leaves 64 bits.
ghost use Rattle.std.specs.Prelude.{◌≡◌, ◌<◌, take};
ghost use Rattle.wire.specs.Digest.{modulus, mixed, mixed_word, digest_of};

// One half of a word.
fn mix(digest: u64, half: u64) -> u64
    requires { (digest < modulus) × (half < 4294967296) }
    ensures { (result ≡ mixed digest half) × (result < modulus) }
{
    (digest * 1000003 + half) % 4294967291
}

fn mix_word(digest: u64, word: u64) -> u64
    requires { digest < modulus }
    ensures { (result ≡ mixed_word digest word) × (result < modulus) }
{
    mix(mix(digest, word / 4294967296), word % 4294967296)
}

// The digest of words.
pub fn digest_all(words: &[u64]) -> u64
    ensures { result ≡ digest_of words.now }
{
    let mut value = 0;
    for word in words {
        value = mix_word(value, *word);
    }
    value
}

// The digest of the first n words.
pub fn digest_of(words: &[u64], n: usize) -> u64
    ensures { result ≡ digest_of (take n words.now) }
{
    digest_all(&words[..n.min(words.len())])
}
