// RULES 7.3 and 7.4. Rows: at every row slot five numbers on the whole network, written one behind the other into a
// lent buffer.
ghost use Rattle.std.specs.Prelude.{◌≡◌, ◌-◌, nat_lt};
ghost use Rattle.limits.specs.Limits.{row_cells};
ghost use Rattle.engines.specs.Rows.{highest_progress, row_in, row_of, is_due, next_row, due_after, put_row, rows_refused};

use super::node;
use super::node::{Node, StateSets};
use graph::sets;

#[derive(Clone, Copy)]
pub struct Row {
    pub slot: u64,
    pub progress: u64,
    pub listening: u64,
    pub flooding: u64,
    pub sleeping: u64,
}

// The highest progress of the first n positions. (64 places and n, here and below: see node.rt.)
pub fn highest_progress(at: [Node; 64], n: usize) -> u64
    ensures { result ≡ highest_progress n at }
{
    at[..n.min(64)]
        .iter()
        .fold(0, |p, v| p.max(v.progress_count))
}

// The row of positions in these states.
pub fn count_states(slot: u64, progress: u64, s: StateSets) -> Row
    ensures { result ≡ row_in slot progress s }
{
    Row {
        slot,
        progress,
        listening: sets::count_marks(s.listening) as u64,
        flooding: sets::count_marks(s.flooding) as u64,
        sleeping: sets::count_marks(s.sleeping) as u64,
    }
}

// The row of the first n positions, under the slot at which it was due.
#[tactic(auto, unfolding(crate::specs::Rows::row_of))]
pub fn take_snapshot(slot: u64, at: [Node; 64], n: usize) -> Row
    ensures { result ≡ row_of slot n at }
{
    count_states(slot, highest_progress(at, n), node::state_sets(at, n))
}

// Whether a row is due, where the next is due at slot next.
#[tactic(auto, unfolding(crate::specs::Rows::is_due))]
pub fn row_due(next: u64, slot: u64) -> bool
    ensures { result ≡ is_due next slot }
{
    next <= slot
}

// The slot at which the next row is due, once this slot's row is written.
#[tactic(auto, unfolding(crate::specs::Rows::next_row))]
pub fn next_row(next: u64, interval: u64, slot: u64) -> u64
    ensures { result ≡ next_row next interval slot }
{
    if row_due(next, slot) {
        return next.wrapping_add(interval);
    }
    next
}

// How many rows are due once a slot has begun, of which `due` were before it.
#[tactic(auto, unfolding(crate::specs::Rows::due_after))]
pub fn due_after(due: u64, next_row: u64, slot: u64) -> u64
    ensures { result ≡ due_after due next_row slot }
{
    if row_due(next_row, slot) {
        return due.wrapping_add(1);
    }
    due
}

// A row at the start of the part that is lent; a part too short for it stays as it is.
#[tactic(auto, unfolding(crate::specs::Rows::put_row))]
pub fn put_row(part: &mut [u64], r: Row)
    ensures { part.new ≡ put_row part.old r }
{
    if part.len() < limits::ROW {
        return;
    }
    let cells = [r.slot, r.progress, r.listening, r.flooding, r.sleeping];
    part[..limits::ROW].copy_from_slice(&cells);
}

// Whether no row fits behind the first `at` of so many numbers.
pub fn is_full(numbers: usize, at: usize) -> bool
    ensures { result ≡ nat_lt (numbers - at) row_cells }
{
    numbers.saturating_sub(at) < limits::ROW
}

// Refusal 17: more rows are used than the buffer has, or more are due than the rest of it holds whole.
pub fn rows_refused(numbers: usize, used: usize, due: usize) -> bool
    ensures { result ≡ rows_refused numbers used due }
{
    let whole = numbers / 5;
    whole < used || whole - used < due
}
