// What the program `assign` writes: an answer or a refusal, put together as a text, which is then copied into a lent buffer.
#![tactic(auto)]

mod bytes;
mod writer;

ghost use Rattle.std.specs.Prelude.{◌≡◌, ◌+◌, ◌≤◌, length, take};
ghost use Rattle.lists.specs.Masks.{zipped};
ghost use Rattle.assignment.specs.Listing.{pair_of, pairs_in};
ghost use Rattle.text.specs.Text.{Puts, Wrote, Written, list_text, pairs_text, unmatched_text, refused_text, answer_text, roomed};

use assignment::Assignment;
use bytes::Text;

// Puts a list's numbers.
fn put_list(text: &mut Text, list: &[usize])
    requires { (text.old.len + 192 ≤ 1024) × (length list.now ≤ 64) }
    ensures { Puts (list_text list.now) text.old text.new × (text.new.len ≤ text.old.len + 192) }
{
    for n in list {
        text.put_item(*n);
    }
}

// Puts the pairs.
fn put_pairs(text: &mut Text, rows: &[usize], columns: &[usize])
    requires { (text.old.len + 512 ≤ 1024) × (length rows.now ≤ 64) × (length columns.now ≡ length rows.now) }
    ensures { Puts (pairs_text (zipped pair_of rows.now columns.now)) text.old text.new × (text.new.len ≤ text.old.len + 512) }
{
    for (row, column) in rows.iter().zip(columns) {
        text.put_pair(*row, *column);
    }
}

// Puts the unmatched rows and columns, and the end.
fn put_unmatched(text: &mut Text, rows: &[usize], columns: &[usize])
    requires { (text.old.len + 404 ≤ 1024) × (length rows.now ≤ 64) × (length columns.now ≤ 64) }
    ensures { Puts (unmatched_text rows.now columns.now) text.old text.new × (text.new.len ≤ text.old.len + 404) }
{
    text.put(b") (rows");
    put_list(text, rows);
    text.put(b") (columns");
    put_list(text, columns);
    text.put(b"))\n");
}

// The first of an array of an `Assignment`, as many as there are. The array's type says that there are at most 64.
fn first(list: &[usize; 64], count: usize) -> &[usize]
    ensures { (result.now ≡ take count list.now) × (length result.now ≤ 64) }
{
    &list[..count.min(64)]
}

// The text of an answer.
fn answer(a: Assignment) -> Text
    ensures { Written (answer_text (pairs_in a)) result }
{
    let mut text = Text::new();
    text.put(b"(answer (pairs");
    put_pairs(
        &mut text,
        first(&a.pair_rows, a.pair_count),
        first(&a.pair_columns, a.pair_count),
    );
    put_unmatched(
        &mut text,
        first(&a.unmatched_rows, a.unmatched_row_count),
        first(&a.unmatched_columns, a.unmatched_column_count),
    );
    text
}

// The text of a refusal.
fn refusal(n: usize) -> Text
    ensures { Written (refused_text n) result }
{
    let mut text = Text::new();
    text.put(b"(refused ");
    text.put_number(n);
    text.put(b")\n");
    text
}

// Writes an answer into the front of `out`, which has room for 1,024 bytes, and gives its length. A shorter `out` gets nothing.
pub fn write_answer(out: &mut [u8], a: Assignment) -> usize
    ensures { Wrote (roomed (length out.old) (answer_text (pairs_in a))) out.old result out.new }
{
    if out.len() < 1024 {
        return 0;
    }
    answer(a).write(out)
}

// Writes a refusal in the same way.
pub fn write_refusal(out: &mut [u8], n: usize) -> usize
    ensures { Wrote (roomed (length out.old) (refused_text n)) out.old result out.new }
{
    if out.len() < 1024 {
        return 0;
    }
    refusal(n).write(out)
}
