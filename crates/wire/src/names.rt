// Names of 32 bytes as four numbers of eight, the first byte the highest.
ghost use Rattle.std.specs.Prelude.{◌≡◌, ◌≤◌, [], ◌∷◌};
ghost use Rattle.wire.specs.Names.{word_in};

pub fn bytes_of(words: [u64; 4]) -> [u8; 32] {
    let [first, second, third, fourth] = words;
    let mut bytes = [0; 32];
    bytes[..8].copy_from_slice(&first.to_be_bytes());
    bytes[8..16].copy_from_slice(&second.to_be_bytes());
    bytes[16..24].copy_from_slice(&third.to_be_bytes());
    bytes[24..].copy_from_slice(&fourth.to_be_bytes());
    bytes
}

// The number of eight bytes from `at` on.
fn word_at(bytes: &[u8; 32], at: usize) -> u64
    requires { at ≤ 24 }
    ensures { result ≡ word_in bytes.now at }
{
    let mut word = [0; 8];
    word.copy_from_slice(&bytes[at..at + 8]);
    u64::from_be_bytes(word)
}

pub fn words_of(bytes: &[u8; 32]) -> [u64; 4]
    ensures { result ≡ word_in bytes.now 0 ∷ word_in bytes.now 8 ∷ word_in bytes.now 16 ∷ word_in bytes.now 24 ∷ [] }
{
    [
        word_at(bytes, 0),
        word_at(bytes, 8),
        word_at(bytes, 16),
        word_at(bytes, 24),
    ]
}
