// What a line of the program `assign` asks: its head, its table, and the end of the line.
// A place in the line is a clause where it is asked: a cursor over the line would say it in a ghost field, but each reader gives back an end that its caller may drop.
#![tactic(auto)]

mod head;
mod table;
mod words;

ghost use Rattle.std.specs.Prelude.{◌≡◌, ◌≤◌, length, drop};
ghost use Rattle.request.specs.Request.{closing, request_of};
ghost use Rattle.request.specs.Asking.{ReadingAnswer};

// Rows, columns and row cost, whether the table has the stated rows, each of the stated columns, and the table's costs, row after row, with zeros after
// them. Costs that have no place are left out: such a table is refused.
#[derive(Clone, Copy)]
pub struct Reading {
    pub rows: u32,
    pub columns: u32,
    pub cost: f64,
    pub shaped: bool,
    pub costs: [f64; 4096],
}

// Whether `)`, the newline and no more stand at `at`.
fn closes(s: &[u8], at: usize) -> bool
    requires { at ≤ length s.now }
    ensures { result ≡ closing (drop at s.now) }
{
    &s[at..] == b")\n".as_slice()
}

// Reads the request of a line; none where the line asks nothing.
pub fn read_request(s: &[u8]) -> Option<Reading>
    ensures { ReadingAnswer (request_of s.now) result }
{
    let mut costs = [0.0; 4096];
    let head = head::read_head(s)?;
    let stated = head.value;
    let table = table::read_table(s, head.end, stated.columns as usize, &mut costs)?;
    if !closes(s, table.end) {
        return None;
    }
    Some(Reading {
        rows: stated.rows,
        columns: stated.columns,
        cost: stated.cost,
        shaped: (table.value.count == stated.rows as usize) & table.value.even,
        costs,
    })
}
