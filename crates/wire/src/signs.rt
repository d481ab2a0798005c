// Signed numbers by their bits, as two's complement.

// The signed number with these bits.
pub fn signed(b: u64) -> i64 {
    i64::from_be_bytes(b.to_be_bytes())
}

// The bits of a signed number.
pub fn bits(n: i64) -> u64 {
    u64::from_be_bytes(n.to_be_bytes())
}
