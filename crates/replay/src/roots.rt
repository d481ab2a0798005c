// Roots of numbers given by their bits.
use std::io;
use wire::Line;
use wire::floats::{bits_of, number_of};

// The bits of the root of the number with the bits b, or the refusal's number.
fn answer(b: u64) -> u64 {
    square_root::root(number_of(b)).map_or(9, bits_of)
}

// Writes the roots of a line's four numbers.
pub fn write(rt: &impl Print, line: Line) -> io::Result<()> {
    wire::write(rt, b'Q', line.numbers.map(answer))
}
