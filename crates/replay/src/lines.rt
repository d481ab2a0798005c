// Lines of the program `assign`, loaded by some calls, and their answers.
use std::io;
use wire::{Line, names};

// The bytes that are loaded, and how many. The costs of `tables` are kept alike: one struct for both would hold an array of a type parameter, for which the check asks more of each caller.
#[derive(Drop)]
pub struct Input {
    bytes: [u8; 16416],
    len: usize,
}

impl Input {
    pub fn new() -> Input {
        Input {
            bytes: [0; 16416],
            len: 0,
        }
    }

    // One number's eight bytes, the highest first, as far as there is room.
    fn push(&mut self, number: u64) {
        for byte in number.to_be_bytes() {
            if let Some(place) = self.bytes.get_mut(self.len) {
                *place = byte;
                self.len += 1;
            }
        }
    }
}

// Writes the first n bytes, 32 to a line. The array comes whole, since its zeros fill the last line.
fn write_bytes(rt: &impl Print, output: &[u8; 1024], n: usize) -> io::Result<()> {
    let (lines, _) = output.as_slice().as_chunks::<32>();
    for line in lines.iter().take(n.div_ceil(32)) {
        wire::write(rt, b'I', names::words_of(line))?;
    }
    Ok(())
}

// The answer to the line of the first bytes, as many as `length` says.
fn answer(rt: &impl Print, input: &[u8], length: u64) -> io::Result<()> {
    let end = wire::at_most(length, input.len());
    let mut output = [0; 1024];
    let n = line::answer(&input[..end], &mut output);
    wire::write(rt, b'Y', [n as u64, 0, 0, 0])?;
    write_bytes(rt, &output, n)
}

// One call: see main.rt.
pub fn run(rt: &impl Print, input: &mut Input, line: Line) -> io::Result<()> {
    if line.letter == b'I' {
        for number in line.numbers {
            input.push(number);
        }
        return Ok(());
    }
    input.len = 0;
    answer(rt, &input.bytes, line.numbers[0])
}
