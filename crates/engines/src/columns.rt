// RULES none. Numbers of positions in a lent table: a column has a place for each position, from its start on. A place
// behind the table's end is none, and nothing is written there.
ghost use Rattle.std.specs.Prelude.{◌≡◌, ℕ};
ghost use Rattle.engines.specs.Columns.{cell_by, raised_by, stored_as};
ghost use Rattle.engines.specs.Marked.{over_marks};

use graph::sets;

// The numbers of a column at the marks of `who`, each changed by f.
fn change<F: Fn(u64) -> u64>(table: &mut [u64], start: usize, who: u64, f: F)
    requires { F.IsAlwaysCallable f }
    ensures { (h : ℕ → ℕ) → ((v w : ℕ) → F.post f v w → w ≡ h v) → table.new ≡ over_marks who (cell_by start h) table.old }
{
    for i in sets::iter(who) {
        let at = start.saturating_add(i);
        if at < table.len() {
            table[at] = f(table[at]);
        }
    }
}

// The numbers of a column at the marks of `who`, higher by k.
pub fn raise(table: &mut [u64], start: usize, who: u64, k: u64)
    ensures { table.new ≡ raised_by start who k table.old }
{
    change(table, start, who, |v| v.wrapping_add(k));
}

// The numbers of a column at the marks of `who`, each x.
pub fn store(table: &mut [u64], start: usize, who: u64, x: u64)
    ensures { table.new ≡ stored_as start who x table.old }
{
    change(table, start, who, |_| x);
}
