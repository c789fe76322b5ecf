// RULES 8.7. The states of a capture round in the next slot, told from what the slot brought each position. Ported
// from ce.rs; what comes from packets comes in as sets of positions.
ghost use Rattle.std.specs.Prelude.{◌≡◌, ℕ, ◌||◌, List};
ghost use Rattle.loops.specs.Pick.{either};
ghost use Rattle.marks.specs.Marks.{has};
ghost use Rattle.capture.specs.Turns.{counted_slot};
ghost use Rattle.capture.specs.Boards.{plan_by, passed_cells, Changed, TurnedBy};

use super::board::{Board, FLOOD, LAST, LISTEN, Phases, SLEEP};
use super::ce::Told;
use super::plan::SlotPlan;
use engines::metrics::MetricsCollector;
use engines::node::StateSets;
use engines::{columns, rows};
use graph::sets;

// The sets of the next slot: who can sleep sleeps if it flooded, and else floods; of the others who progressed
// floods, who slept sleeps on, and the rest listens.
fn change(s: StateSets, progressed: u64, can_sleep: u64) -> StateSets
    ensures { Changed s progressed can_sleep result }
{
    let told = sets::union(progressed, can_sleep);
    let awake = sets::union(s.listening, s.flooding);
    let all = sets::union(awake, s.sleeping);
    let fresh = sets::difference(progressed, can_sleep);
    let again = sets::difference(can_sleep, s.flooding);
    let tired = sets::intersection(can_sleep, s.flooding);
    let still = sets::difference(s.sleeping, told);
    StateSets {
        listening: sets::difference(awake, told),
        flooding: sets::intersection(all, sets::union(fresh, again)),
        sleeping: sets::union(tired, still),
    }
}

// Who has reached its goal: news tells it anew.
fn goals(before: u64, new_info: u64, p: Phases) -> u64
    ensures { (i : ℕ) → has result i ≡ either (has new_info i) (has p.committed i || has p.aborted i) (has before i) }
{
    let decided = sets::union(p.committed, p.aborted);
    sets::union(
        sets::intersection(new_info, decided),
        sets::difference(before, new_info),
    )
}

// What the plan of a slot counted, added to the room's counts.
#[tactic(auto, unfolding(crate::specs::Turns::counted_slot, engines::specs::Metrics::with_frames))]
fn count_slot(m: MetricsCollector, p: SlotPlan) -> MetricsCollector
    ensures { (hears : List ℕ) → result ≡ counted_slot (plan_by p hears) m }
{
    MetricsCollector {
        ce_timeouts: m.ce_timeouts.wrapping_add(p.ce_timeouts),
        ..m.count_frames(p.rx_attempts, p.rx_success)
    }
}

// The counts of k slots in which no state changes: each at the positions in its state.
#[tactic(auto, unfolding(crate::specs::Boards::passed_cells))]
pub(crate) fn pass(s: StateSets, k: u64, table: &mut [u64; 576])
    ensures { table.new ≡ passed_cells s k table.old }
{
    columns::raise(table, LISTEN, s.listening, k);
    columns::raise(table, FLOOD, s.flooding, k);
    columns::raise(table, SLEEP, s.sleeping, k);
}

// A slot's plan and its merges, applied to the states. Recovery and new information are progress.
pub(crate) fn turn(
    b: Board,
    interval: u64,
    p: SlotPlan,
    sent: u64,
    t: Told,
    table: &mut [u64; 576],
) -> Board
    ensures { TurnedBy b interval p sent t table.old result table.new }
{
    let s = b.states;
    let phases = t.phases;
    let progressed = sets::union(p.recovering, t.new_info);
    columns::store(table, LAST, progressed, b.slot);
    let states = change(s, progressed, t.can_sleep);
    Board {
        states,
        goal_reached: goals(b.goal_reached, t.new_info, phases),
        phases,
        can_sleep: t.can_sleep,
        metrics: count_slot(b.metrics, p),
        slot: b.slot.wrapping_add(1),
        next_row: rows::next_row(b.next_row, interval, b.slot),
        bytes_sent: b.bytes_sent.wrapping_add(sent),
        draw: p.draw,
        ended: false,
    }
}
