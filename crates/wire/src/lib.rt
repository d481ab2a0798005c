// Lines of a letter and four numbers of 16 hexadecimal digits, each after a blank, with a newline at the end: what programs that replay recorded
// calls read and write.
#![tactic(auto)]

ghost use Rattle.std.specs.Prelude.{◌≡◌, ◌<◌, ◌≤◌, ◌%◌};

pub mod digests;
pub mod floats;
pub mod names;
pub mod signs;
pub mod words;

use std::io;
use std::io::{ErrorKind, Read};

#[derive(Clone, Copy)]
pub struct Line {
    pub letter: u8,
    pub numbers: [u64; 4],
}

// The value of a hexadecimal digit; 0 for any other byte.
fn digit(c: u8) -> u64
    ensures { result < 16 }
{
    match c {
        b'0'..=b'9' => u64::from(c - b'0'),
        b'A'..=b'F' => u64::from(c - b'A' + 10),
        _ => 0,
    }
}

fn glyph(d: u64) -> u8
    requires { d < 16 }
{
    b"0123456789ABCDEF"[d as usize]
}

// The number whose digits begin at `at`.
fn number(l: &[u8; 70], at: usize) -> u64
    requires { at ≤ 54 }
{
    l[at..at + 16]
        .iter()
        .fold(0, |value, c| value % 1152921504606846976 * 16 + digit(*c))
}

fn line_of(l: &[u8; 70]) -> Line {
    Line {
        letter: l[0],
        numbers: [number(l, 2), number(l, 19), number(l, 36), number(l, 53)],
    }
}

// The next line, if there is a whole one. It has no clause, since none can say what a reader gives.
pub fn read<R: Read>(reader: &mut R) -> io::Result<Option<Line>> {
    let mut l = [0; 70];
    match reader.read_exact(&mut l) {
        Ok(()) => Ok(Some(line_of(&l))),
        Err(e) if e.kind() == ErrorKind::UnexpectedEof => Ok(None),
        Err(e) => Err(e),
    }
}

// Puts a number's digits at `at`.
fn put(l: &mut [u8; 70], at: usize, value: u64)
    requires { at ≤ 54 }
{
    let mut rest = value;
    for place in l[at..at + 16].iter_mut().rev() {
        *place = glyph(rest % 16);
        rest /= 16;
    }
}

// Writes a line.
pub fn write(rt: &impl Print, letter: u8, numbers: [u64; 4]) -> io::Result<()> {
    let [first, second, third, fourth] = numbers;
    let mut l = [b' '; 70];
    l[0] = letter;
    put(&mut l, 2, first);
    put(&mut l, 19, second);
    put(&mut l, 36, third);
    put(&mut l, 53, fourth);
    l[69] = b'\n';
    rt.write_all(&l)
}

// A number, or the limit where it is above it.
pub fn at_most(n: u64, limit: usize) -> usize
    ensures { result ≤ limit }
{
    n.min(limit as u64) as usize
}

// A number of 32 bits, the lower ones of a word.
pub fn low_half(n: u64) -> u32
    ensures { result ≡ n % 4294967296 }
{
    (n % 4294967296) as u32
}
