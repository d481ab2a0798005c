// The head of the line: `(assign`, the rows, the columns and the row cost.
ghost use Rattle.std.specs.Prelude.{◌≡◌};
ghost use Rattle.request.specs.Request.{head_of, head_answer};

use crate::words::{Found, argument, count};

// How many rows and columns, and what an unmatched row costs.
#[derive(Clone, Copy)]
pub struct Head {
    pub rows: u32,
    pub columns: u32,
    pub cost: f64,
}

// The head, where it stands at the beginning of the line.
pub fn read_head(s: &[u8]) -> Option<Found<Head>>
    ensures { result ≡ head_answer s.now (head_of s.now) }
{
    if !s.starts_with(b"(assign ") {
        return None;
    }
    let rows = count(s, 8)?;
    let columns = count(s, rows.end)?;
    let cost = argument(s, columns.end)?;
    let value = Head {
        rows: rows.value,
        columns: columns.value,
        cost: f64::from(cost.value),
    };
    Some(Found {
        value,
        end: cost.end,
    })
}
