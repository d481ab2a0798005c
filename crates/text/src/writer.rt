// How a text grows.
// Seen by this crate alone: the writers of an answer have room for what they put, and the methods ask for it.
ghost use Rattle.std.specs.Prelude.{◌≡◌, ◌+◌, ◌%◌, ◌≤◌, length, take};
ghost use Rattle.assignment.specs.Listing.{pair_of};
ghost use Rattle.text.specs.Text.{Puts, Wrote, written, digits_of, item_text, pair_text};

use crate::bytes::Text;

impl Text {
    pub fn new() -> Text
        ensures { (result.len ≡ 0) × (length result.bytes ≡ 1024) }
    {
        Text {
            bytes: [0; 1024],
            len: 0,
        }
    }

    // Puts bytes.
    pub fn put(&mut self, text: &[u8])
        requires { self.old.len + length text.now ≤ 1024 }
        ensures { Puts text.now self.old self.new }
    {
        let end = self.len + text.len();
        self.bytes[self.len..end].copy_from_slice(text);
        self.len = end;
    }

    // Puts a number below 100.
    pub fn put_number(&mut self, n: usize)
        requires { self.old.len + 2 ≤ 1024 }
        ensures { Puts (digits_of n) self.old self.new × (self.new.len ≤ self.old.len + 2) }
    {
        if n < 10 {
            return self.put(&[digit(n)]);
        }
        self.put(&[digit(n / 10), digit(n)]);
    }

    // Puts a blank and a number.
    pub fn put_item(&mut self, n: usize)
        requires { self.old.len + 3 ≤ 1024 }
        ensures { Puts (item_text n) self.old self.new × (self.new.len ≤ self.old.len + 3) }
    {
        self.put(b" ");
        self.put_number(n);
    }

    // Puts a blank, and row and column in brackets.
    pub fn put_pair(&mut self, row: usize, column: usize)
        requires { self.old.len + 8 ≤ 1024 }
        ensures { Puts (pair_text (pair_of row column)) self.old self.new × (self.new.len ≤ self.old.len + 8) }
    {
        self.put(b" (");
        self.put_number(row);
        self.put_item(column);
        self.put(b")");
    }

    // Copies what is put into the front of `out`, and gives its length.
    pub fn write(&self, out: &mut [u8]) -> usize
        requires { self.now.len ≤ length out.old }
        ensures { Wrote (written self.now) out.old result out.new }
    {
        out[..self.len].copy_from_slice(&self.bytes[..self.len]);
        self.len
    }
}

// The last digit of a number.
fn digit(n: usize) -> u8
    ensures { result ≡ 48 + n % 10 }
{
    b'0' + (n % 10) as u8
}
