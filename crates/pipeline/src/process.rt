// RULES 10.5. process_round of sim/two_pc_pipeline.rs: what the positions that took part do with the flooded packet.
ghost use Rattle.std.specs.Prelude.{◌≡◌, get_or, nat_le};
ghost use Rattle.pipeline.specs.Pipeline.{is_new, hear_new, merge_round, record_aborts, take_up, is_answer, answer_nack, process_one, parts_of, process_all, shortest_log, no_state, progressed, progress_all, stops_at};

use super::pending::Voter;
use super::two_pc_pipeline::{NodeTwoPcState, Outcome, Records, RoundPacket};
use super::{logs, pending, prepare};
use engines::node;
use engines::node::{Change, Node};
use engines::words::Draw;
use graph::sets;

// The number of positions, the round, and the slot at which outcomes of the present step are recorded.
#[derive(Clone, Copy)]
pub struct RoundFacts {
    pub n: usize,
    pub round: u64,
    pub slot: u64,
}

#[derive(Clone, Copy)]
pub struct Learnt {
    pub state: NodeTwoPcState,
    pub draw: Draw,
}

// What processing hands from one position to the next: the cursor, the records, the next round's piggyback, and how
// often it was set.
#[derive(Clone, Copy)]
pub struct Carried {
    pub draw: Draw,
    pub records: Records,
    pub piggyback: Option<Outcome>,
    pub answers: u64,
}

// One position's. (Not one type with the next: its field would be called either `state` or `states`, and be wrong of
// one.)
#[derive(Clone, Copy)]
pub struct Processed {
    pub state: NodeTwoPcState,
    pub carried: Carried,
}

// All positions'.
#[derive(Clone, Copy)]
pub struct AllProcessed {
    pub states: [NodeTwoPcState; 64],
    pub carried: Carried,
}

// The packet brings a transaction that is neither pending nor logged here.
#[tactic(auto, unfolding(crate::specs::Pipeline::is_new))]
fn is_new(q: RoundPacket, s: NodeTwoPcState) -> bool
    ensures { result ≡ is_new q s }
{
    q.fresh && !sets::is_marked(s.pending, q.tx) && !sets::is_marked(logs::logged(s.log), q.tx)
}

#[tactic(auto, unfolding(crate::specs::Pipeline::hear_new))]
fn hear_new(voter: &Voter, q: RoundPacket, s: NodeTwoPcState, d: Draw) -> Learnt
    ensures { result ≡ hear_new voter.now.words.now voter.now.abort_probability voter.now.position q s d }
{
    if !is_new(q, s) {
        return Learnt { state: s, draw: d };
    }
    let v = voter.vote(q.bits, q.abort, d);
    Learnt {
        state: pending::open_tx(s, q.tx, v.bits, v.abort),
        draw: v.draw,
    }
}

// Votes up to the packet's transaction, its abort, and the own vote.
#[tactic(auto, unfolding(crate::specs::Pipeline::merge_round))]
fn merge_round(i: usize, q: RoundPacket, s: NodeTwoPcState) -> NodeTwoPcState
    ensures { result ≡ merge_round i q s }
{
    let a = pending::merge_votes_up_to(s, q.tx, q.bits);
    let b = pending::merge_abort(a, q.tx, q.abort);
    pending::own_vote(b, i, q.tx)
}

fn record_aborts(slot: u64, fast: u64, b: Records) -> Records
    ensures { result ≡ record_aborts slot fast b }
{
    let mut c = b;
    for t in sets::iter(fast) {
        c = prepare::record_tx(c, t, false, slot);
    }
    c
}

#[tactic(auto, unfolding(crate::specs::Pipeline::take_up))]
fn take_up(p: Option<Outcome>, s: NodeTwoPcState) -> NodeTwoPcState
    ensures { result ≡ take_up p s }
{
    match p {
        Some(o) => pending::finalize_tx(s, o.tx, o.committed),
        None => s,
    }
}

// The position has the outcome that was asked for.
#[tactic(auto, unfolding(crate::specs::Pipeline::is_answer))]
fn is_answer(nack: usize, s: NodeTwoPcState) -> bool
    ensures { result ≡ is_answer nack s }
{
    if nack == 0 {
        return false;
    }
    sets::is_marked(logs::logged(s.log), nack)
}

#[tactic(auto, unfolding(crate::specs::Pipeline::answer_nack))]
fn answer_nack(nack: usize, s: NodeTwoPcState, l: Carried) -> Carried
    ensures { result ≡ answer_nack nack s l }
{
    if !is_answer(nack, s) {
        return l;
    }
    Carried {
        piggyback: Some(Outcome {
            tx: nack,
            committed: logs::outcome(s.log, nack),
        }),
        answers: l.answers.wrapping_add(1),
        ..l
    }
}

// What all positions of a round process alike: the packet, the round in which each transaction was generated, and what
// they vote by.
#[derive(Clone, Copy)]
pub struct Hearing<'a> {
    pub words: &'a [u64],
    pub abort_probability: f64,
    pub facts: RoundFacts,
    pub rounds: &'a [u64; 64],
    pub packet: RoundPacket,
}

impl Hearing<'_> {
    // All steps of one position, in the Rust's order. Its own judgements come last and are not recorded.
    #[tactic(auto, unfolding(crate::specs::Pipeline::process_one))]
    fn process_one(&self, i: usize, s: NodeTwoPcState, l: Carried) -> Processed
        ensures { result ≡ process_one self.now.words.now self.now.abort_probability self.now.facts self.now.rounds.now self.now.packet i s l }
    {
        let voter = Voter {
            words: self.words,
            abort_probability: self.abort_probability,
            position: i,
        };
        let heard = hear_new(&voter, self.packet, s, l.draw);
        let merged = merge_round(i, self.packet, heard.state);
        let fast = pending::fast_aborts(merged);
        let taken = take_up(self.packet.piggyback, pending::abort_all(merged, fast));
        let noted = Carried {
            draw: heard.draw,
            records: record_aborts(self.facts.slot, fast, l.records),
            ..l
        };
        Processed {
            state: pending::judge(self.facts, self.rounds, taken),
            carried: answer_nack(self.packet.nack, taken, noted),
        }
    }

    // The positions of this set, the lowest first.
    pub fn process_all(&self, parts: u64, states: [NodeTwoPcState; 64], l: Carried) -> AllProcessed
        ensures { result ≡ process_all self.now.words.now self.now.abort_probability self.now.facts self.now.rounds.now self.now.packet parts (record { states = states; carried = l }) }
    {
        let mut ss = states;
        let mut m = l;
        for i in sets::iter(parts) {
            let x = self.process_one(i, ss[i], m);
            ss[i] = x.state;
            m = x.carried;
        }
        AllProcessed {
            states: ss,
            carried: m,
        }
    }
}

// The initiator takes part, and whoever sleeps.
pub fn parts(n: usize, initiator: usize, sleeping: u64) -> u64
    ensures { result ≡ parts_of n initiator sleeping }
{
    let all = pending::with(sleeping, initiator);
    sets::intersection(all, sets::first_marks(n))
}

// The length of the shortest log of the first n.
#[tactic(auto, using(crate::proofs::Turns::turns), unfolding(crate::specs::Pipeline::shorter_at, crate::specs::Pipeline::shortest_log))]
pub fn shortest_log(states: [NodeTwoPcState; 64], n: usize) -> usize
    ensures { result ≡ shortest_log n states }
{
    let mut shortest: usize = 64;
    for s in &states[..n.min(limits::POSITIONS)] {
        shortest = shortest.min(s.log.len);
    }
    shortest
}

fn progress(v: Node, done: u64, goal: bool) -> Node
    ensures { result ≡ progressed done goal v }
{
    Node {
        goal_reached: goal,
        progress_count: done,
        ..v
    }
}

// The progress of each, and whether its log is complete.
#[derive(Clone, Copy)]
struct Progressing<'a> {
    num_txs: usize,
    done: usize,
    states: &'a [NodeTwoPcState; 64],
}

impl Change for Progressing<'_> {
    ghost changed = { λ p i v. progressed p.done (nat_le p.num_txs (get_or p.states.now i no_state).log.len) v };

    // No position has such a number, and the law leaves open what is made of it (engines src/node.rt).
    fn change(&self, i: usize, v: Node) -> Node {
        if i >= 64 {
            return v;
        }
        progress(v, self.done as u64, self.num_txs <= self.states[i].log.len)
    }
}

// Everybody's progress, and whether its own log is complete. (64 places and n: see engines src/node.rt.)
pub fn progress_all(
    at: [Node; 64],
    n: usize,
    num_txs: usize,
    done: usize,
    states: [NodeTwoPcState; 64],
) -> [Node; 64]
    ensures { result ≡ progress_all n num_txs done states at }
{
    let change = Progressing {
        num_txs,
        done,
        states: &states,
    };
    node::change_all(at, n, &change)
}

// All have all, and all were generated; or it has idled too long. Written so that no sum can wrap.
#[tactic(auto, unfolding(crate::specs::Pipeline::stops_at))]
pub fn stops(num_txs: usize, done: usize, counter: usize, round: u64) -> bool
    ensures { result ≡ stops_at num_txs done counter round }
{
    let all_done = num_txs <= done && num_txs <= counter;
    all_done || (1000 <= round && (num_txs as u64) < round - 1000)
}
