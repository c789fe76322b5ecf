// RULES 10.7. Logs: ordered lists of outcomes that are only ever added to.
ghost use Rattle.std.specs.Prelude.{◌≡◌};
ghost use Rattle.pipeline.specs.Pending.{logged_of, outcome_of, pushed};

use super::two_pc_pipeline::{LogEntry, TxLog};
use graph::sets;

// The transactions of a log, a mark each.
#[tactic(auto, using(crate::proofs::Turns::turns, engines::proofs::Marking::with_is), unfolding(crate::specs::Pending::logged_of))]
pub fn logged(g: TxLog) -> u64
    ensures { result ≡ logged_of g }
{
    let mut m: u64 = 0;
    for e in &g.entries[..g.len.min(limits::POSITIONS)] {
        m = sets::with_mark(m, e.tx as usize);
    }
    m
}

// The outcome of the first entry with this transaction. (`find` and `is_some_and` are no plainer: two closures in the
// place of one `if`.)
#[tactic(auto, using(crate::proofs::Finding::outcome_first, crate::proofs::Finding::outcome_none))]
pub fn outcome(g: TxLog, t: usize) -> bool
    ensures { result ≡ outcome_of g t }
{
    for e in &g.entries[..g.len.min(limits::POSITIONS)] {
        if e.tx as usize == t {
            return e.committed;
        }
    }
    false
}

// One entry more. A full log stays as it is, and so does one that is to have a number of 64 or more.
#[tactic(auto, unfolding(crate::specs::Pending::pushed))]
pub fn push(g: TxLog, t: usize, committed: bool) -> TxLog
    ensures { result ≡ pushed t committed g }
{
    if g.len >= 64 || t >= 64 {
        return g;
    }
    let mut longer = g;
    longer.entries[g.len] = LogEntry {
        tx: t as u8,
        committed,
    };
    longer.len = g.len + 1;
    longer
}
