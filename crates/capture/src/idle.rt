// RULES none. Stretches of a capture round in which nobody acts: nobody floods, no coin is due, no row is due, and all
// that slots do is raise counts. A round may have four billion such slots, so they are taken at once.
ghost use Rattle.std.specs.Prelude.{◌≡◌, ℕ, ◌+◌, ◌-◌, ◌<◌, ◌≤◌, true, false, List};
ghost use Rattle.marks.specs.Marks.{has};
ghost use Rattle.engines.specs.Columns.{cell};
ghost use Rattle.engines.specs.declared.network.RoundConf.{RoundConf};
ghost use Rattle.capture.specs.declared.capture.CeState.{CeState};
ghost use Rattle.capture.specs.Idle.{Idle};
ghost use Rattle.capture.specs.Boards.{last_at, goal_by, Shown, Goes};

use super::board::{Board, CeFixed, LAST, Phases};
use graph::sets;

// The slots before a coin is due, but no more than `most`.
fn until_due(last: u64, slot: u64, timeout: u64, most: u64) -> u64
    ensures { (result ≤ most) × (0 < result → slot - last + result ≤ timeout) }
{
    timeout.saturating_sub(slot.saturating_sub(last)).min(most)
}

// The slots for which none of the listening positions tosses a coin, but no more than `most`.
fn shortest_wait(listening: u64, table: &[u64; 576], slot: u64, timeout: u64, most: u64) -> u64
    ensures { (result ≤ most) × (0 < result → (i : ℕ) → has listening i ≡ true → slot - cell table.now last_at i + result ≤ timeout) }
{
    let mut wait = most;
    for i in sets::iter(listening) {
        wait = until_due(table[LAST + i], slot, timeout, wait);
    }
    wait
}

// Whether all of the first n positions hold Committed, or all hold Aborted.
pub(crate) fn goal_reached(n: usize, p: Phases) -> bool
    ensures { result ≡ goal_by n p }
{
    if n == 0 {
        return false;
    }
    if limits::POSITIONS < n {
        return false;
    }
    if sets::all_marked(p.committed, n) {
        return true;
    }
    sets::all_marked(sets::difference(p.aborted, p.committed), n)
}

// How many of the next slots nobody acts in, out of those that are left. None where one is not sure: one that can
// sleep would flood in the next slot.
pub(crate) fn idle_slots(f: CeFixed, b: Board, table: &[u64; 576], left: u64) -> u64
    requires { b.ended ≡ false }
    ensures upper_bound { result ≤ left }
    ensures idle { (conf : RoundConf) (base c : CeState) (links : List ℕ) → Goes conf links f → Shown conf.graph.n base b table.now c → 0 < result → Idle conf result c }
{
    if b.next_row <= b.slot {
        return 0;
    }
    if b.states.flooding != 0 {
        return 0;
    }
    if b.can_sleep != 0 {
        return 0;
    }
    if goal_reached(f.voting.n, b.phases) {
        return 0;
    }
    let most = left.min(b.next_row - b.slot);
    shortest_wait(b.states.listening, table, b.slot, f.listen_timeout, most)
}
