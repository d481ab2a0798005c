// Decimal numbers from -1,000,000 to 1,000,000, read from a word's bytes.
ghost use Rattle.std.specs.Prelude.{◌≡◌};
ghost use Rattle.forms.specs.Decimal.{value_of, limited, natural_of, natural_reply, reply_of_natural, decimal_of, decimal_reply, reply_of_decimal};

const LARGEST: u32 = 1000000;

// Digits, to at most `LARGEST`.
fn value(w: &[u8]) -> Option<u32>
    ensures { reply_of_natural result ≡ natural_reply (limited (value_of 0 w.now)) }
{
    let mut v = 0;
    for b in w {
        if !b.is_ascii_digit() {
            return None;
        }
        v = v * 10 + u32::from(*b - b'0');
        if v > LARGEST {
            return None;
        }
    }
    Some(v)
}

// The same with no leading zero.
pub fn count(w: &[u8]) -> Option<u32>
    ensures { reply_of_natural result ≡ natural_reply (natural_of w.now) }
{
    match w {
        [] | [b'0', _, ..] => None,
        _ => value(w),
    }
}

// A number with its sign; there is no `-0`.
pub fn number(w: &[u8]) -> Option<i32>
    ensures { reply_of_decimal result ≡ decimal_reply (decimal_of w.now) }
{
    match w {
        [b'-', digits @ ..] => match count(digits)? {
            0 => None,
            n => Some(-(n as i32)),
        },
        _ => Some(count(w)? as i32),
    }
}
