// The shape of a line: a form reader and a list reader that call each other. Decimal numbers are in `decimal`.
#![tactic(auto)]

pub mod decimal;

ghost use Rattle.std.specs.Prelude.{◌≡◌, drop, length, take_while};
ghost use Rattle.forms.specs.Shape.{word_byte, word_end, form_of, list_of, place_reply, reply_of_read};

// Whether a word may have the byte.
fn word_byte(b: u8) -> bool
    ensures { result ≡ word_byte b }
{
    !matches!(b, b' ' | b'\n' | b'(' | b')')
}

// How many bytes of a word stand in front.
fn word_length(s: &[u8]) -> usize
    ensures { result ≡ length (take_while word_byte s.now) }
{
    s.iter().take_while(|b| word_byte(**b)).count()
}

// The first place at or behind `from` that has no byte of a word; a place past the end is left as it is.
pub fn past_word(s: &[u8], from: usize) -> usize
    ensures { result ≡ word_end s.now from }
{
    match s.get(from..) {
        Some(rest) => from + word_length(rest),
        None => from,
    }
}

// The place behind a form that starts at `at`, at most `depth` brackets deep; none where no form stands there.
#[cycle(form_list)]
pub fn form(s: &[u8], at: usize, depth: usize) -> Option<usize>
    ensures { reply_of_read result ≡ place_reply s.now (form_of depth (drop at s.now)) }
{
    let b = *s.get(at)?;
    if b == b'(' {
        if depth == 0 {
            return None;
        }
        if *s.get(at + 1)? == b')' {
            return Some(at + 2);
        }
        list(s, at + 1, depth - 1)
    } else if word_byte(b) {
        Some(past_word(s, at + 1))
    } else {
        None
    }
}

// The place behind one form or more from `at` on, single blanks between them, and the closing bracket.
#[cycle(form_list)]
pub fn list(s: &[u8], at: usize, depth: usize) -> Option<usize>
    ensures { reply_of_read result ≡ place_reply s.now (list_of depth (drop at s.now)) }
{
    let mut i = at;
    loop {
        let end = form(s, i, depth)?;
        match *s.get(end)? {
            b')' => return Some(end + 1),
            b' ' => i = end + 1,
            _ => return None,
        }
    }
}
