// RULES 10.1, 10.6 and 10.9. What is pending at one position: votes, judgements, gaps.
ghost use Rattle.std.specs.Prelude.{◌≡◌, ℕ, ◌<◌, ◌&&◌, ◌||◌, ◌==◌, nat_lt};
ghost use Rattle.loops.specs.Pick.{either};
ghost use Rattle.marks.specs.Marks.{has};
ghost use Rattle.engines.specs.Marked.{over_marks, with_mark};
ghost use Rattle.pipeline.specs.Pending.{join_marks, common_marks, without_mark, finalize_tx, unanimous_of, open_tx, votes_at, merge_votes, merge_abort, gap_of, nack_of, vote_of, is_judged, ripe_of, settle_at, judged, fast_of, abort_all, own_vote};

use super::logs;
use super::process::RoundFacts;
use super::two_pc_pipeline::{NodeTwoPcState, Vote};
use engines::words;
use engines::words::Draw;
use graph::sets;

// The set operations, each as the set that its rule names: the contracts of `sets` say of each mark whether it is
// there, and that two words with the same marks are one is shown here once, and not by each caller.
pub fn with(m: u64, i: usize) -> u64
    ensures { result ≡ with_mark m i }
{
    sets::with_mark(m, i)
}

pub fn without(m: u64, i: usize) -> u64
    ensures { result ≡ without_mark m i }
{
    sets::without_mark(m, i)
}

pub fn join(a: u64, b: u64) -> u64
    ensures { result ≡ join_marks a b }
{
    sets::union(a, b)
}

pub fn common(a: u64, b: u64) -> u64
    ensures { result ≡ common_marks a b }
{
    sets::intersection(a, b)
}

// A transaction leaves what is pending for the log, unless the log has it.
#[tactic(auto, unfolding(crate::specs::Pending::finalize_tx))]
pub fn finalize_tx(s: NodeTwoPcState, t: usize, committed: bool) -> NodeTwoPcState
    ensures { result ≡ finalize_tx t committed s }
{
    if sets::is_marked(logs::logged(s.log), t) {
        return s;
    }
    NodeTwoPcState {
        log: logs::push(s.log, t, committed),
        pending: without(s.pending, t),
        ..s
    }
}

// Everybody has voted yes, and nobody no. A number of 64 or more is never pending.
#[tactic(auto, unfolding(crate::specs::Pending::unanimous_of))]
pub fn check_unanimity(n: usize, s: NodeTwoPcState, t: usize) -> bool
    ensures { result ≡ unanimous_of n s t }
{
    if t >= 64 {
        return false;
    }
    if !sets::is_marked(s.pending, t) {
        return false;
    }
    if sets::is_marked(s.aborts, t) {
        return false;
    }
    sets::all_marked(s.votes[t], n)
}

// (Reads as `put` in capture src/board.rt, and promises otherwise: see there.)
fn mark_or_not(m: u64, i: usize, yes: bool) -> u64
    ensures { result ≡ either yes (with_mark m i) (without_mark m i) }
{
    if yes { with(m, i) } else { without(m, i) }
}

// A transaction becomes pending. A number of 64 or more is none.
#[tactic(auto, unfolding(crate::specs::Pending::open_tx))]
pub fn open_tx(s: NodeTwoPcState, t: usize, bits: u64, abort: bool) -> NodeTwoPcState
    ensures { result ≡ open_tx t bits abort s }
{
    if t >= 64 {
        return s;
    }
    let mut votes = s.votes;
    votes[t] = bits;
    NodeTwoPcState {
        pending: with(s.pending, t),
        aborts: mark_or_not(s.aborts, t, abort),
        votes,
        ..s
    }
}

// Transaction t is below 64, as its loop has it: a test would need an answer for what never comes.
#[tactic(auto, unfolding(crate::specs::Pending::votes_at))]
fn join_at(votes: &mut [u64; 64], t: usize, top: usize, bits: u64)
    requires { t < 64 }
    ensures { votes.new ≡ votes_at top bits t votes.old }
{
    if t <= top {
        votes[t] = join(votes[t], bits);
    }
}

fn join_up_to(votes: &mut [u64; 64], pending: u64, top: usize, bits: u64)
    ensures { votes.new ≡ over_marks pending (votes_at top bits) votes.old }
{
    for t in sets::iter(pending) {
        join_at(votes, t, top, bits);
    }
}

// Yes votes go to all that is pending up to the packet's transaction.
#[tactic(auto, unfolding(crate::specs::Pending::merge_votes))]
pub fn merge_votes_up_to(s: NodeTwoPcState, top: usize, bits: u64) -> NodeTwoPcState
    ensures { result ≡ merge_votes top bits s }
{
    let mut votes = s.votes;
    join_up_to(&mut votes, s.pending, top, bits);
    NodeTwoPcState { votes, ..s }
}

// An abort goes to the packet's transaction only.
#[tactic(auto, unfolding(crate::specs::Pending::merge_abort))]
pub fn merge_abort(s: NodeTwoPcState, t: usize, abort: bool) -> NodeTwoPcState
    ensures { result ≡ merge_abort t abort s }
{
    if !abort || !sets::is_marked(s.pending, t) {
        return s;
    }
    NodeTwoPcState {
        aborts: with(s.aborts, t),
        ..s
    }
}

// The own yes, unless the transaction is not pending or has an abort.
#[tactic(auto, unfolding(crate::specs::Pending::own_vote))]
pub fn own_vote(s: NodeTwoPcState, i: usize, top: usize) -> NodeTwoPcState
    ensures { result ≡ own_vote i top s }
{
    if !sets::is_marked(s.pending, top) || sets::is_marked(s.aborts, top) {
        return s;
    }
    merge_votes_up_to(s, top, with(0, i))
}

// The lowest transaction below this one that is neither logged nor pending.
#[tactic(auto, using(loops::specs::Upto::upto_none, crate::proofs::Finding::gap_more, crate::proofs::Finding::gap_found, crate::proofs::Finding::gap_none))]
pub fn detect_gap(s: NodeTwoPcState, current: usize) -> Option<usize>
    ensures { result ≡ gap_of current s }
{
    let known = join(logs::logged(s.log), s.pending);
    for t in 0..current.min(limits::POSITIONS) {
        if !sets::is_marked(known, t) {
            return Some(t);
        }
    }
    None
}

// What a packet asks for: nothing where there is no gap, and nothing where the gap is transaction 0.
#[tactic(auto, unfolding(crate::specs::Pending::nack_of))]
pub fn nack(s: NodeTwoPcState, current: usize) -> usize
    ensures { result ≡ nack_of current s }
{
    detect_gap(s, current).unwrap_or(0)
}

// Whoever votes on a new transaction: the words that it draws from, the probability of a no, and its position.
#[derive(Clone, Copy)]
pub struct Voter<'a> {
    pub words: &'a [u64],
    pub abort_probability: f64,
    pub position: usize,
}

impl Voter<'_> {
    // The own vote. One word is drawn even if no unit lies below the probability.
    #[tactic(auto, unfolding(crate::specs::Pending::vote_of))]
    pub fn vote(&self, bits: u64, abort: bool, d: Draw) -> Vote
        ensures { result ≡ vote_of self.now.words.now self.now.abort_probability self.now.position bits abort d }
    {
        let x = words::next(self.words, d);
        if words::lost(x.word, self.abort_probability) {
            return Vote {
                bits,
                abort: true,
                draw: x.draw,
            };
        }
        Vote {
            bits: with(bits, self.position),
            abort,
            draw: x.draw,
        }
    }
}

// n rounds have passed since the start. Written so that no sum can wrap.
#[tactic(auto, unfolding(crate::specs::Pending::is_judged))]
pub fn is_judged(facts: RoundFacts, start: u64) -> bool
    ensures { result ≡ is_judged facts.n facts.round start }
{
    let rounds = facts.n as u64;
    rounds <= facts.round && start <= facts.round - rounds
}

// (`with_unless` in prepare.rt is told the opposite, and promises an equation on words where this tells marks.)
fn mark_if(m: u64, t: usize, yes: bool) -> u64
    ensures { (k : ℕ) → has result k ≡ (has m k || (yes && (nat_lt k 64 && k == t))) }
{
    if yes { sets::with_mark(m, t) } else { m }
}

// The transactions for which n rounds have passed, pending or not.
#[tactic(auto, using(marks::specs::Sets::grown_none, marks::specs::Sets::grown_turn))]
fn ripe(facts: RoundFacts, rounds: &[u64; 64]) -> u64
    ensures { result ≡ ripe_of facts.n facts.round rounds.now }
{
    let mut m: u64 = 0;
    for t in 0..64 {
        m = mark_if(m, t, is_judged(facts, rounds[t]));
    }
    m
}

#[tactic(auto, unfolding(crate::specs::Pending::settle_at))]
fn judge_at(n: usize, t: usize, s: NodeTwoPcState) -> NodeTwoPcState
    ensures { result ≡ settle_at n t s }
{
    finalize_tx(s, t, check_unanimity(n, s, t))
}

// These are judged, the lowest first.
fn judge_all(n: usize, due: u64, s: NodeTwoPcState) -> NodeTwoPcState
    ensures { result ≡ over_marks due (settle_at n) s }
{
    let mut q = s;
    for t in sets::iter(due) {
        q = judge_at(n, t, q);
    }
    q
}

// What is pending is judged. Which of it is due is found first, by numbers alone: a state is copied only where it
// changes.
#[tactic(auto, using(crate::proofs::Judging::judged_due))]
pub fn judge(facts: RoundFacts, rounds: &[u64; 64], s: NodeTwoPcState) -> NodeTwoPcState
    ensures { result ≡ judged facts.n facts.round rounds.now s }
{
    let due = common(s.pending, ripe(facts, rounds));
    judge_all(facts.n, due, s)
}

// What is pending and has an abort.
#[tactic(auto, unfolding(crate::specs::Pending::fast_of))]
pub fn fast_aborts(s: NodeTwoPcState) -> u64
    ensures { result ≡ fast_of s }
{
    common(s.pending, s.aborts)
}

// All of these logged as aborted, the lowest first.
pub fn abort_all(s: NodeTwoPcState, fast: u64) -> NodeTwoPcState
    ensures { result ≡ abort_all fast s }
{
    let mut q = s;
    for t in sets::iter(fast) {
        q = finalize_tx(q, t, false);
    }
    q
}
