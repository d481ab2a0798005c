// Floats by their bits. Every NaN pattern is one NaN.

pub fn number_of(b: u64) -> f64 {
    if 0x7ff0_0000_0000_0000 < b % 9223372036854775808 {
        f64::NAN
    } else {
        f64::from_bits(b)
    }
}

pub fn bits_of(x: f64) -> u64 {
    if x.is_nan() {
        0x7ff8_0000_0000_0000
    } else {
        x.to_bits()
    }
}
