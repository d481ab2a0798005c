// Words: a number, or an entry of the table.
// Seen by this crate alone: the reader never goes past the end of the line that it is lent.
ghost use Rattle.std.specs.Prelude.{◌≡◌, ◌≤◌, length, drop};
ghost use Rattle.request.specs.Request.{argument_of, count_of, cost_in, cost_answer, entry_of, found_of};

// What stands somewhere in the line, and the place behind it.
#[derive(Clone, Copy)]
pub struct Found<T> {
    pub value: T,
    pub end: usize,
}

// A number and a blank.
pub fn argument(s: &[u8], at: usize) -> Option<Found<i32>>
    requires { at ≤ length s.now }
    ensures { result ≡ found_of s.now (argument_of (drop at s.now)) }
{
    let end = forms::past_word(s, at);
    if *s.get(end)? != b' ' {
        return None;
    }
    let value = forms::decimal::number(&s[at..end])?;
    Some(Found {
        value,
        end: end + 1,
    })
}

// The same of a number that is not below zero.
pub fn count(s: &[u8], at: usize) -> Option<Found<u32>>
    requires { at ≤ length s.now }
    ensures { result ≡ found_of s.now (count_of (drop at s.now)) }
{
    let number = argument(s, at)?;
    let value = u32::try_from(number.value).ok()?;
    Some(Found {
        value,
        end: number.end,
    })
}

// What a word of the table costs; a forbidden pair's cost is +infinity.
fn cost(w: &[u8]) -> Option<f64>
    ensures { result ≡ cost_answer (cost_in w.now) }
{
    if w == b"-".as_slice() {
        return Some(f64::INFINITY);
    }
    Some(f64::from(forms::decimal::number(w)?))
}

// An entry of the table.
pub fn entry(s: &[u8], at: usize) -> Option<Found<f64>>
    requires { at ≤ length s.now }
    ensures { result ≡ found_of s.now (entry_of (drop at s.now)) }
{
    let end = forms::past_word(s, at);
    let value = cost(&s[at..end])?;
    Some(Found { value, end })
}
