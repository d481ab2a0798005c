// The line of the program `assign`, from the input's bytes to the output's.
#![tactic(auto)]

ghost use Rattle.std.specs.Prelude.{◌≡◌, ◌≤◌, ◌*◌, length, take};
ghost use Rattle.std.specs.Float.{binary64};
ghost use Rattle.std.specs.Float.Ieee.{of_bits};
ghost use Rattle.kuhn_munkres.specs.Assignment.{assignment_reply};
ghost use Rattle.request.specs.Request.{request_of};
ghost use Rattle.text.specs.Text.{Wrote, text_of, roomed};
ghost use Rattle.line.specs.Line.{formed, decided, answer_of};

// A line has no more bytes, with its newline.
const LONGEST: usize = 16384;

// A form nests no deeper.
const DEEPEST: usize = 4;

// No more rows, and no more columns, are paired.
const MOST: u32 = 64;

// Why a line is refused before it comes to the assignment. The number of each is what is written.
enum Refusal {
    NoPairing = 10,
    TooMany = 11,
    NoRequest = 13,
}

// Whether the bytes are a form, a newline and no more, and not too many.
fn is_formed(input: &[u8]) -> bool
    ensures { result ≡ formed input.now }
{
    if input.len() > LONGEST {
        return false;
    }
    match forms::form(input, 0, DEEPEST) {
        None => false,
        Some(end) => &input[end..] == b"\n".as_slice(),
    }
}

// Pairs the rows with the columns, and writes who is paired and who is left.
fn pair(costs: &[f64], rows: usize, columns: usize, cost: f64, out: &mut [u8]) -> usize
    requires { (rows ≤ 64) × (columns ≤ 64) × (length costs.now ≡ 4096) }
    ensures { Wrote (roomed (length out.old) (text_of (assignment_reply (take (rows * columns) costs.now) rows columns cost (of_bits binary64 0)))) out.old result out.new }
{
    let n = rows * columns;
    match assignment::linear_assignment(&costs[..n], rows, columns, cost, 0.0) {
        Ok(found) => text::write_answer(out, found),
        Err(why) => text::write_refusal(out, u32::from(why) as usize),
    }
}

// Answers a line that is a form, by what it asks.
fn decide(input: &[u8], out: &mut [u8]) -> usize
    ensures { Wrote (roomed (length out.old) (text_of (decided (request_of input.now)))) out.old result out.new }
{
    let Some(asked) = request::read_request(input) else {
        return text::write_refusal(out, Refusal::NoRequest as usize);
    };
    if asked.rows > MOST || asked.columns > MOST {
        return text::write_refusal(out, Refusal::TooMany as usize);
    }
    if !asked.shaped {
        return text::write_refusal(out, Refusal::NoPairing as usize);
    }
    pair(
        &asked.costs,
        asked.rows as usize,
        asked.columns as usize,
        asked.cost,
        out,
    )
}

// Writes the answer to a line into the front of `out`, which has room for 1,024 bytes, and gives its length. A shorter `out` gets nothing.
pub fn answer(input: &[u8], out: &mut [u8]) -> usize
    ensures { Wrote (roomed (length out.old) (answer_of input.now)) out.old result out.new }
{
    if is_formed(input) {
        decide(input, out)
    } else {
        text::write_refusal(out, Refusal::NoRequest as usize)
    }
}
