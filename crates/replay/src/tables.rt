// Cost tables, loaded by some lines, and their assignments.
use assignment::{Assignment, AssignmentError};
use std::io;
use wire::Line;
use wire::floats::number_of;
use wire::words::Words;

// The costs that are loaded, and how many.
#[derive(Drop)]
pub struct Costs {
    values: [f64; 4096],
    len: usize,
}

impl Costs {
    pub fn new() -> Costs {
        Costs {
            values: [0.0; 4096],
            len: 0,
        }
    }

    // One cost, if there is room.
    fn push(&mut self, bits: u64) {
        if let Some(place) = self.values.get_mut(self.len) {
            *place = number_of(bits);
            self.len += 1;
        }
    }
}

fn code_of(why: AssignmentError) -> u64 {
    u64::from(u32::from(why))
}

// The first pairs, as row times 2^32 and column. Here and below `take` asks nothing of the count, of which a slice would ask that it is at most 64.
fn push_pairs(items: &mut Words<192>, rows: &[usize; 64], columns: &[usize; 64], count: usize) {
    for (row, column) in rows.iter().zip(columns).take(count) {
        items.push((row % 4294967296 * 4294967296 + column % 4294967296) as u64);
    }
}

// The first of a list.
fn push_list(items: &mut Words<192>, list: &[usize; 64], count: usize) {
    for item in list.iter().take(count) {
        items.push(*item as u64);
    }
}

fn write_assignment(rt: &impl Print, a: Assignment) -> io::Result<()> {
    wire::write(
        rt,
        b'H',
        [
            0,
            a.pair_count as u64,
            a.unmatched_row_count as u64,
            a.unmatched_column_count as u64,
        ],
    )?;
    let mut items = Words::new(18446744073709551615);
    push_pairs(&mut items, &a.pair_rows, &a.pair_columns, a.pair_count);
    push_list(&mut items, &a.unmatched_rows, a.unmatched_row_count);
    push_list(&mut items, &a.unmatched_columns, a.unmatched_column_count);
    items.write(rt, b'J')
}

// The assignment of the first costs: a line's numbers are how many, rows times 2^32 and columns, row cost and column cost.
fn pair(rt: &impl Print, costs: &[f64], line: Line) -> io::Result<()> {
    let [length, sides, row_cost, column_cost] = line.numbers;
    let end = wire::at_most(length, costs.len());
    match assignment::linear_assignment(
        &costs[..end],
        (sides / 4294967296) as usize,
        (sides % 4294967296) as usize,
        number_of(row_cost),
        number_of(column_cost),
    ) {
        Ok(given) => write_assignment(rt, given),
        Err(why) => wire::write(rt, b'H', [code_of(why), 0, 0, 0]),
    }
}

// One call: see main.rt.
pub fn run(rt: &impl Print, costs: &mut Costs, line: Line) -> io::Result<()> {
    let [first, second, _, _] = line.numbers;
    match line.letter {
        b'B' => {
            for bits in line.numbers {
                costs.push(bits);
            }
            Ok(())
        }
        b'M' => {
            for _ in 0..first.min(4096) {
                costs.push(second);
            }
            Ok(())
        }
        _ => {
            costs.len = 0;
            pair(rt, &costs.values, line)
        }
    }
}
