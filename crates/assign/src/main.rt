// Reads one line from standard input, and writes the line that answers it.
#![tactic(auto)]

ghost use Rattle.std.specs.Prelude.{◌<◌, ◌≤◌, length, take, IfOk, IfSome, OnOk};
ghost use Rattle.std.specs.Io.KnownBytes.{Appends, Consumes, IsAtEnd};
ghost use Rattle.line.specs.Line.{answer_of};

use std::io;
use std::io::{Read, Write};

// Reads until the buffer is full or the reader is at its end, and gives how many bytes were read.
fn read_full<R: Read>(reader: &mut R, buf: &mut [u8]) -> io::Result<usize>
    ensures within { IfOk result (λ n. n ≤ length buf.new) }
    ensures bytes { IfOk result (λ n. Consumes (R.remaining reader.old) (R.remaining reader.new) (take n buf.new)) }
    ensures end { IfOk result (λ n. n < length buf.new → IsAtEnd (R.remaining reader.new)) }
{
    let mut at = 0;
    // A loop of its own: `read_exact` says nothing of how much stood before an early end, and `read_to_end` allocates.
    while at < buf.len() {
        let n = reader.read(&mut buf[at..])?;
        if n == 0 {
            return Ok(at);
        }
        at += n;
    }
    Ok(at)
}

// Writes what answers the line that the reader has.
fn answer_line<R: Read, W: Write>(reader: &mut R, writer: &mut W) -> io::Result<()>
    ensures { OnOk result (IfSome (R.remaining reader.old)
        (λ l. Appends (W.contents writer.old) (W.contents writer.new) (answer_of l))) }
{
    // One byte more than a line may have: what stands behind it changes no answer (`front_enough` in `line`), so nothing waits for it.
    let mut input = [0u8; 16385];
    let n = read_full(reader, &mut input)?;
    let mut output = [0u8; 1024];
    let length = line::answer(&input[..n], &mut output);
    writer.write_all(&output[..length])
}

fn main(rt: HostRuntime) -> io::Result<()> {
    answer_line(&mut rt.stdin(), &mut rt.stdout())
}
