// RULES 10.3. prepare_round of sim/two_pc_pipeline.rs: what the initiator does before the flood, and the packet that
// it floods.
ghost use Rattle.std.specs.Prelude.{◌≡◌, ◌<◌, false};
ghost use Rattle.loops.specs.Pick.{either};
ghost use Rattle.engines.specs.Marked.{with_mark};
ghost use Rattle.pipeline.specs.Pending.{vote_of};
ghost use Rattle.pipeline.specs.Pipeline.{record_tx, old_tx, new_tx, begin_tx, record_due, record_judged, abort_of, known_votes, round_packet, prepare_round};

use super::pending::Voter;
use super::process::RoundFacts;
use super::two_pc_pipeline::{NodeTwoPcState, Outcome, Records, RoundPacket, Txs};
use super::{logs, pending};
use engines::words::Draw;
use graph::sets;

// A round whose transaction is chosen: its number, whether it is new, and what that changed.
#[derive(Clone, Copy)]
pub struct Begun {
    pub state: NodeTwoPcState,
    pub txs: Txs,
    pub fresh: bool,
    pub tx: usize,
    pub draw: Draw,
}

// What the initiator leaves: its own state, the room's transactions and records, the packet and the cursor.
#[derive(Clone, Copy)]
pub struct Prepared {
    pub state: NodeTwoPcState,
    pub txs: Txs,
    pub records: Records,
    pub packet: RoundPacket,
    pub draw: Draw,
}

// The outcome of a transaction, unless one is recorded already. A number of 64 or more enters nothing.
#[tactic(auto, using(crate::proofs::Recorded::recorded_out), unfolding(crate::specs::Pipeline::record_tx))]
pub fn record_tx(b: Records, t: usize, committed: bool, slot: u64) -> Records
    ensures { result ≡ record_tx t committed slot b }
{
    if t >= 64 || sets::is_marked(logs::logged(b.log), t) {
        return b;
    }
    let mut ends = b.ends;
    ends[t] = slot;
    Records {
        log: logs::push(b.log, t, committed),
        ends,
    }
}

// The last transaction once more, without data.
fn old_tx(txs: Txs, s: NodeTwoPcState, d: Draw) -> Begun
    ensures { result ≡ old_tx txs s d }
{
    Begun {
        state: s,
        txs,
        fresh: false,
        tx: txs.counter.saturating_sub(1),
        draw: d,
    }
}

// The next transaction, with the initiator's vote on it. That there is room for it is what `begin_tx` has just tested.
fn new_tx(voter: &Voter, facts: RoundFacts, txs: Txs, s: NodeTwoPcState, d: Draw) -> Begun
    requires { txs.counter < 64 }
    ensures { result ≡ new_tx facts.round facts.slot txs s (vote_of voter.now.words.now voter.now.abort_probability voter.now.position 0 false d) }
{
    let t = txs.counter;
    let v = voter.vote(0, false, d);
    let mut starts = txs.starts;
    starts[t] = facts.slot;
    let mut rounds = txs.rounds;
    rounds[t] = facts.round;
    Begun {
        state: pending::open_tx(s, t, v.bits, v.abort),
        txs: Txs {
            counter: t + 1,
            starts,
            rounds,
        },
        fresh: true,
        tx: t,
        draw: v.draw,
    }
}

#[tactic(auto, unfolding(crate::specs::Pipeline::begin_tx, crate::specs::Pipeline::is_fresh))]
fn begin_tx(
    voter: &Voter,
    facts: RoundFacts,
    num_txs: usize,
    txs: Txs,
    s: NodeTwoPcState,
    d: Draw,
) -> Begun
    ensures { result ≡ begin_tx voter.now.words.now voter.now.abort_probability voter.now.position facts.round facts.slot num_txs txs s d }
{
    if txs.counter >= num_txs || txs.counter >= 64 {
        return old_tx(txs, s, d);
    }
    new_tx(voter, facts, txs, s, d)
}

// Transaction t is below 64, as its loop has it.
#[tactic(auto, unfolding(crate::specs::Pipeline::record_due))]
fn record_due(
    facts: RoundFacts,
    rounds: &[u64; 64],
    s: NodeTwoPcState,
    t: usize,
    b: Records,
) -> Records
    requires { t < 64 }
    ensures { result ≡ record_due facts.n facts.round facts.slot rounds.now s t b }
{
    if !pending::is_judged(facts, rounds[t]) {
        return b;
    }
    let committed = pending::check_unanimity(facts.n, s, t);
    record_tx(b, t, committed, facts.slot)
}

// What is judged now is recorded, the lowest first.
fn record_judged(facts: RoundFacts, rounds: &[u64; 64], s: NodeTwoPcState, b: Records) -> Records
    ensures { result ≡ record_judged facts.n facts.round facts.slot rounds.now s b }
{
    let mut c = b;
    for t in sets::iter(s.pending) {
        c = record_due(facts, rounds, s, t, c);
    }
    c
}

#[tactic(auto, unfolding(crate::specs::Pipeline::abort_of))]
fn has_abort(s: NodeTwoPcState, t: usize) -> bool
    ensures { result ≡ abort_of s t }
{
    sets::is_marked(s.pending, t) && sets::is_marked(s.aborts, t)
}

// The votes known of a transaction while it is pending. A number of 64 or more is none.
#[tactic(auto, unfolding(crate::specs::Pipeline::known_votes))]
fn known_votes(s: NodeTwoPcState, t: usize) -> u64
    ensures { result ≡ known_votes s t }
{
    if t < 64 && sets::is_marked(s.pending, t) {
        s.votes[t]
    } else {
        0
    }
}

fn with_unless(abort: bool, m: u64, i: usize) -> u64
    ensures { result ≡ either abort m (with_mark m i) }
{
    if abort { m } else { pending::with(m, i) }
}

#[tactic(auto, unfolding(crate::specs::Pipeline::round_packet))]
fn make_packet(
    i: usize,
    t: usize,
    fresh: bool,
    nack: usize,
    piggyback: Option<Outcome>,
    s: NodeTwoPcState,
) -> RoundPacket
    ensures { result ≡ round_packet i t fresh nack piggyback s }
{
    let abort = has_abort(s, t);
    RoundPacket {
        tx: t,
        bits: with_unless(abort, known_votes(s, t), i),
        abort,
        nack,
        fresh,
        sender: i,
        piggyback,
    }
}

// The gap is looked for first, then comes the new transaction, then what is due is judged, then the packet.
#[tactic(auto, unfolding(crate::specs::Pipeline::prepare_round))]
pub fn prepare_round(
    voter: &Voter,
    facts: RoundFacts,
    num_txs: usize,
    txs: Txs,
    records: Records,
    piggyback: Option<Outcome>,
    s: NodeTwoPcState,
    d: Draw,
) -> Prepared
    ensures { result ≡ prepare_round voter.now.words.now voter.now.abort_probability voter.now.position facts num_txs txs records piggyback s d }
{
    let nack = pending::nack(s, txs.counter);
    let b = begin_tx(voter, facts, num_txs, txs, s, d);
    let own = pending::judge(facts, &b.txs.rounds, b.state);
    Prepared {
        state: own,
        txs: b.txs,
        records: record_judged(facts, &b.txs.rounds, b.state, records),
        packet: make_packet(voter.position, b.tx, b.fresh, nack, piggyback, own),
        draw: b.draw,
    }
}
