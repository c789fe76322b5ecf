// RULES 6. Proposing and merging the capture rooms' packets, and the tests of what positions hold: the protocol half
// of two_pc_ce.rs, on packets by value. A merge is computed on slips, so that it does not carry the data's 32 bytes
// through every step.
ghost use Rattle.std.specs.Prelude.{◌≡◌, ℕ, ◌+◌, ◌&&◌, nat_lt, eqb};
ghost use Rattle.std.specs.List.{list_all, list_any};
ghost use Rattle.marks.specs.Marks.{has, marks};
ghost use Rattle.merges.specs.Votes.{no_of};
ghost use Rattle.merges.specs.Merging.{entry, filled_of, marked_of, only_of, join_of, join_news, unanimous_of, rank_of, ensure_of, decided_of, acknowledged_of, voiced_of, settled, adopted_of, raised_of, own_of, same_term_of, news_or, without, outdated, heard_of, merge_of, blank, proposal_of, standing_of, goal_of, can_sleep_of, all_hold, any_holds, outcome_of, outcome_number};
ghost use Rattle.merges.specs.Slips.{packet_of, draft_of, whose, HeardBy};
ghost use Rattle.merges.specs.declared.merging.Held.TheVariants.{Packet};
ghost use Rattle.packets.specs.Packets.{proposal_data};
ghost use Rattle.packets.specs.declared.Data.{Data};
ghost use Rattle.packets.specs.declared.TwoPcPhase.TheVariants.{Committed, Aborted};

use crate::votes;
use crate::votes::Voting;
use graph::sets;
use packets::{Bitmap, CeTwoPcPacket, Data, TwoPcPhase, two_pc_ce};
use std::cmp::Ordering;

#[derive(Clone, Copy)]
pub enum ProposalOutcome {
    Committed = 1,
    Aborted = 2,
    TimedOut = 3,
}

// Each outcome's number for C: that of the phase of its name, and 3.
impl From<ProposalOutcome> for u64 {
    ghost from_gives = { λ o n. n ≡ outcome_number o };

    fn from(outcome: ProposalOutcome) -> u64 {
        outcome as u64
    }
}

// What a payload is: nothing, a text that is no packet, or a packet.
#[derive(Clone, Copy)]
pub enum Held {
    Empty,
    Unreadable,
    Packet,
}

// The packet counts only where `held` says that there is one. No enum with the packet in it: C's lists have the numbers
// of a packet behind every payload, and what stands there behind one that is none goes back to C as it came.
#[derive(Clone, Copy)]
pub struct Payload {
    pub held: Held,
    pub packet: CeTwoPcPacket,
}

// A packet without its data, which a merge never looks at: `source` says whose data it has.
#[derive(Clone, Copy)]
pub struct Slip {
    pub term: u64,
    pub phase: TwoPcPhase,
    pub source: u64,
    pub flags_bitmap: Bitmap,
}

// A slip on its way through a merge, and whether anything in it is new. A flag beside it and no Option: a slip without
// news goes through the steps that follow all the same.
#[derive(Clone, Copy)]
pub struct Draft {
    pub slip: Slip,
    pub news: bool,
}

// The marks below len. Whatever is made here goes through this, so that no mark ever stands behind a length.
fn first_of(m: u64, len: usize) -> u64
    ensures { result ≡ marks 64 (λ j. nat_lt j len && has m j) }
{
    sets::intersection(m, sets::first_marks(len))
}

// What is missing up to n is false.
#[tactic(auto, unfolding(crate::specs::Merging::filled_of))]
fn filled(n: usize, b: Bitmap) -> Bitmap
    ensures { result ≡ filled_of n b }
{
    Bitmap {
        len: b.len.max(n),
        marks: first_of(b.marks, b.len),
    }
}

fn marked(b: Bitmap, node_id: usize) -> Bitmap
    ensures { result ≡ marked_of node_id b }
{
    let m = sets::with_mark(b.marks, node_id);
    Bitmap {
        len: b.len,
        marks: first_of(m, b.len),
    }
}

// A bitmap that starts anew.
fn own_mark_only(n: usize, node_id: usize) -> Bitmap
    ensures { result ≡ only_of n node_id }
{
    let m = sets::with_mark(0, node_id);
    Bitmap {
        len: n,
        marks: first_of(m, n),
    }
}

// What b can add to a bitmap: its marks over the first n entries.
fn offered(n: usize, b: Bitmap) -> u64
    ensures { result ≡ marks 64 (λ j. nat_lt j n && entry b j) }
{
    first_of(first_of(b.marks, b.len), n)
}

// Two bitmaps of one phase.
fn joined(n: usize, a: Bitmap, b: Bitmap) -> Bitmap
    ensures { result ≡ join_of n a b }
{
    let both = sets::union(a.marks, offered(n, b));
    Bitmap {
        len: a.len,
        marks: first_of(both, a.len),
    }
}

// Whether that join marks anything new.
fn join_is_news(n: usize, a: Bitmap, b: Bitmap) -> bool
    ensures { result ≡ join_news n a b }
{
    let fresh = sets::difference(first_of(offered(n, b), a.len), a.marks);
    fresh != 0
}

// Everybody has an entry, and no entry is false.
#[tactic(auto, unfolding(crate::specs::Merging::unanimous_of))]
pub fn has_unanimity(n: usize, b: Bitmap) -> bool
    ensures { result ≡ unanimous_of n b }
{
    if b.len < n {
        return false;
    }
    sets::all_marked(b.marks, b.len)
}

#[tactic(auto, unfolding(crate::specs::Merging::ensure_of))]
fn ensure_bitmap_len(n: usize, s: Slip) -> Slip
    ensures { (d : ℕ → Data) → packet_of d result ≡ ensure_of n (packet_of d s) }
{
    Slip {
        flags_bitmap: filled(n, s.flags_bitmap),
        ..s
    }
}

// Whoever decides starts a new bitmap, whose marks say who knows the decision. The Rust has escalate_to_commit and
// escalate_to_abort, which differ in the phase alone.
#[tactic(auto, unfolding(crate::specs::Merging::decided_of))]
fn escalate_to(phase: TwoPcPhase, n: usize, s: Slip, node_id: usize) -> Slip
    ensures { (d : ℕ → Data) → packet_of d result ≡ decided_of phase n node_id (packet_of d s) }
{
    Slip {
        phase,
        flags_bitmap: own_mark_only(n, node_id),
        ..s
    }
}

// The own mark, where the bitmap has an entry for it.
#[tactic(auto, unfolding(crate::specs::Merging::acknowledged_of))]
fn acknowledge(s: Slip, node_id: usize) -> Slip
    ensures { (d : ℕ → Data) → packet_of d result ≡ acknowledged_of node_id (packet_of d s) }
{
    Slip {
        flags_bitmap: marked(s.flags_bitmap, node_id),
        ..s
    }
}

// The own entry: in Prepare the vote, later that the decision is known here.
// Here and below `voting` and `node_id` stay apart: a caller has one Voting for a whole room, and takes its positions
// one after the other. A struct of both would be made anew at each call, and each rule asks for its parts one by one.
#[tactic(auto, unfolding(crate::specs::Merging::voiced_of))]
fn voice(voting: Voting, s: Slip, node_id: usize) -> Slip
    ensures { (d : ℕ → Data) → packet_of d result ≡ voiced_of (no_of voting) voting.n node_id (packet_of d s) s.phase }
{
    match s.phase {
        TwoPcPhase::Prepare if votes::should_abort_app(voting, s.term, node_id) => {
            escalate_to(TwoPcPhase::Aborted, voting.n, s, node_id)
        }
        TwoPcPhase::Prepare | TwoPcPhase::Committed | TwoPcPhase::Aborted => {
            acknowledge(s, node_id)
        }
    }
}

// Votes that are complete commit, also where this merge brought none of them.
#[tactic(auto, unfolding(crate::specs::Merging::settled_of))]
fn settle(n: usize, x: Draft, node_id: usize) -> Draft
    ensures { (d : ℕ → Data) → draft_of d result ≡ settled n node_id (draft_of d x) }
{
    match x.slip.phase {
        TwoPcPhase::Prepare if has_unanimity(n, x.slip.flags_bitmap) => Draft {
            slip: escalate_to(TwoPcPhase::Committed, n, x.slip, node_id),
            news: true,
        },
        TwoPcPhase::Prepare | TwoPcPhase::Committed | TwoPcPhase::Aborted => x,
    }
}

// Whoever adopts a packet votes on it, even where its own entry is marked already.
fn adopt_with_local_vote(voting: Voting, s: Slip, node_id: usize) -> Slip
    ensures { (d : ℕ → Data) → packet_of d result ≡ adopted_of (no_of voting) voting.n node_id (packet_of d s) }
{
    let filled = ensure_bitmap_len(voting.n, s);
    let x = Draft {
        slip: voice(voting, filled, node_id),
        news: true,
    };
    settle(voting.n, x, node_id).slip
}

// The phase that outranks the other stays, with its bitmap. The data never moves.
fn raise(n: usize, l: Slip, r: Slip) -> Draft
    ensures { (d : ℕ → Data) → draft_of d result ≡ raised_of n (packet_of d l) (packet_of d r) }
{
    let a = l.flags_bitmap;
    let b = r.flags_bitmap;
    match l.phase.cmp(&r.phase) {
        Ordering::Less => Draft {
            slip: Slip {
                phase: r.phase,
                flags_bitmap: b,
                ..l
            },
            news: true,
        },
        Ordering::Equal => Draft {
            slip: Slip {
                flags_bitmap: joined(n, a, b),
                ..l
            },
            news: join_is_news(n, a, b),
        },
        Ordering::Greater => Draft {
            slip: l,
            news: false,
        },
    }
}

// Where the own entry is there and unmarked, this position has yet to speak.
#[tactic(auto, unfolding(crate::specs::Merging::own_of))]
fn own(voting: Voting, x: Draft, node_id: usize) -> Draft
    ensures { (d : ℕ → Data) → draft_of d result ≡ own_of (no_of voting) voting.n node_id (draft_of d x) }
{
    let b = x.slip.flags_bitmap;
    if node_id >= b.len || sets::is_marked(b.marks, node_id) {
        return x;
    }
    Draft {
        slip: voice(voting, x.slip, node_id),
        news: true,
    }
}

// Both bitmaps are filled before either is used.
fn merge_same_term(voting: Voting, l: Slip, r: Slip, node_id: usize) -> Draft
    ensures { (d : ℕ → Data) → draft_of d result ≡ same_term_of (no_of voting) voting.n node_id (packet_of d l) (packet_of d r) }
{
    let ours = ensure_bitmap_len(voting.n, l);
    let theirs = ensure_bitmap_len(voting.n, r);
    let x = raise(voting.n, ours, theirs);
    let y = own(voting, x, node_id);
    settle(voting.n, y, node_id)
}

// What is left of an earlier proposal must not count for this one.
#[tactic(auto, unfolding(crate::specs::Merging::outdated))]
fn is_outdated(term: u64, held: u64) -> bool
    ensures { result ≡ outdated term held }
{
    term < held
}

// Two packets meet: the higher term is adopted, the lower left.
fn hear_packet(voting: Voting, local: Slip, received: Slip, node_id: usize) -> Option<Slip>
    ensures { HeardBy (no_of voting) voting.n node_id Packet local received result }
{
    if local.term < received.term {
        return Some(adopt_with_local_vote(voting, received, node_id));
    }
    if is_outdated(received.term, local.term) {
        return None;
    }
    let x = merge_same_term(voting, local, received, node_id);
    if x.news { Some(x.slip) } else { None }
}

// What is new to position node_id in a packet, by what it holds: an empty one takes it. Without news the local stays as
// it came, a short bitmap too.
#[tactic(auto, unfolding(crate::specs::Merging::heard_of))]
pub fn hear(voting: Voting, held: Held, local: Slip, received: Slip, node_id: usize) -> Option<Slip>
    ensures { HeardBy (no_of voting) voting.n node_id held local received result }
{
    match held {
        Held::Empty => Some(adopt_with_local_vote(voting, received, node_id)),
        Held::Unreadable => None,
        Held::Packet => hear_packet(voting, local, received, node_id),
    }
}

impl Payload {
    // What is no packet: one of zeros in its place.
    pub fn without(held: Held) -> Payload
        ensures { result ≡ without held }
    {
        Payload {
            held,
            packet: CeTwoPcPacket {
                term: 0,
                phase: TwoPcPhase::Prepare,
                proposal_data: Data {
                    len: 0,
                    bytes: [0u8; 32],
                },
                flags_bitmap: Bitmap { len: 0, marks: 0 },
            },
        }
    }
}

impl Slip {
    // The slip of a packet, which leaves its data behind, under the number `source`.
    fn of(p: CeTwoPcPacket, source: u64) -> Slip
        ensures { (d : ℕ → Data) → d source ≡ p.proposal_data → packet_of d result ≡ p }
    {
        Slip {
            term: p.term,
            phase: p.phase,
            source,
            flags_bitmap: p.flags_bitmap,
        }
    }

    // A packet again.
    pub fn with_data(self, proposal_data: Data) -> CeTwoPcPacket
        ensures { result ≡ packet_of (λ _. proposal_data) self }
    {
        CeTwoPcPacket {
            term: self.term,
            phase: self.phase,
            proposal_data,
            flags_bitmap: self.flags_bitmap,
        }
    }
}

fn data_of(source: u64, ours: Data, theirs: Data) -> Data
    ensures { result ≡ whose ours theirs source }
{
    if source == 0 { ours } else { theirs }
}

// A packet was received. The data stays out of the merge: the local's is number 0, the received one number 1.
fn merge_packet(
    voting: Voting,
    local: Payload,
    p: CeTwoPcPacket,
    node_id: usize,
) -> Option<CeTwoPcPacket>
    ensures { news_or local result ≡ heard_of (no_of voting) voting.n node_id local p local.held }
{
    let l = local.packet;
    let slip = hear(voting, local.held, Slip::of(l, 0), Slip::of(p, 1), node_id)?;
    let data = data_of(slip.source, l.proposal_data, p.proposal_data);
    Some(slip.with_data(data))
}

// The packet that position node_id holds after a received payload, if that was news: without news the local payload
// stays as it came. In the Rust these are NewInfo and Redundant, and the local payload is changed in place.
#[tactic(auto, unfolding(crate::specs::Merging::merge_of, crate::specs::Merging::merged_by))]
pub fn merge(
    voting: Voting,
    local: Payload,
    received: Payload,
    node_id: usize,
) -> Option<CeTwoPcPacket>
    ensures { news_or local result ≡ merge_of (no_of voting) voting.n node_id local received }
{
    match received.held {
        Held::Empty | Held::Unreadable => None,
        Held::Packet => merge_packet(voting, local, received.packet, node_id),
    }
}

// A proposal that nobody has voted on; its data is number 0.
fn blank_slip(n: usize, term: u64) -> Slip
    ensures { (d : ℕ → Data) → d 0 ≡ proposal_data term → packet_of d result ≡ blank n term }
{
    Slip {
        term,
        phase: TwoPcPhase::Prepare,
        source: 0,
        flags_bitmap: Bitmap { len: n, marks: 0 },
    }
}

// The packet of the term after `term`, with the initiator's own vote. That there is such a term, and that the
// initiator is one of the positions, is for the room to say.
pub fn init_proposal(voting: Voting, term: u64, initiator: usize) -> CeTwoPcPacket
    ensures { result ≡ proposal_of (no_of voting) voting.n initiator term }
{
    let next = term.wrapping_add(1);
    let s = adopt_with_local_vote(voting, blank_slip(voting.n, next), initiator);
    s.with_data(two_pc_ce::proposal_data(next))
}

// A packet of this phase is held.
#[tactic(auto, unfolding(crate::specs::Merging::standing_by, crate::specs::Merging::rank_of))]
fn holds(payload: &Payload, phase: TwoPcPhase) -> bool
    ensures { result ≡ eqb (standing_of payload.now) (rank_of phase + 1) }
{
    match payload.held {
        Held::Packet => payload.packet.phase == phase,
        Held::Empty => false,
        Held::Unreadable => false,
    }
}

// A decision is held.
#[tactic(auto, using(crate::proofs::Outcomes::goal_by_phases), unfolding(crate::specs::Merging::rank_of))]
pub fn node_goal_reached(payload: Payload) -> bool
    ensures { result ≡ goal_of payload }
{
    holds(&payload, TwoPcPhase::Committed) || holds(&payload, TwoPcPhase::Aborted)
}

// A decision is held, and its bitmap says that all hold it.
#[tactic(auto, unfolding(crate::specs::Merging::can_sleep_of))]
pub fn node_can_sleep(n: usize, payload: Payload) -> bool
    ensures { result ≡ can_sleep_of n payload }
{
    node_goal_reached(payload) && has_unanimity(n, payload.packet.flags_bitmap)
}

// Every one of the first n positions holds a packet of this phase, and there is one at least.
#[tactic(auto, unfolding(crate::specs::Merging::all_hold))]
fn all_hold(payloads: &[Payload; 64], n: usize, phase: TwoPcPhase) -> bool
    ensures { result ≡ all_hold n (rank_of phase + 1) payloads.now }
{
    if n == 0 || n > limits::POSITIONS {
        return false;
    }
    every(&payloads[..n], phase)
}

fn every(payloads: &[Payload], phase: TwoPcPhase) -> bool
    ensures { result ≡ list_all (λ l. eqb (standing_of l) (rank_of phase + 1)) payloads.now }
{
    payloads.iter().all(|l| holds(l, phase))
}

// One of the first n positions holds a packet of this phase.
#[tactic(auto, unfolding(crate::specs::Merging::any_holds))]
fn any_holds(payloads: &[Payload; 64], n: usize, phase: TwoPcPhase) -> bool
    ensures { result ≡ any_holds n (rank_of phase + 1) payloads.now }
{
    if n > limits::POSITIONS {
        return false;
    }
    some(&payloads[..n], phase)
}

fn some(payloads: &[Payload], phase: TwoPcPhase) -> bool
    ensures { result ≡ list_any (λ l. eqb (standing_of l) (rank_of phase + 1)) payloads.now }
{
    payloads.iter().any(|l| holds(l, phase))
}

// An abort at one position is an abort, whatever the others hold; what not everybody has committed by then timed out.
#[tactic(auto, unfolding(crate::specs::Merging::outcome_of, crate::specs::Merging::rank_of))]
pub fn proposal_outcome(payloads: [Payload; 64], n: usize) -> ProposalOutcome
    ensures { result ≡ outcome_of n payloads }
{
    if any_holds(&payloads, n, TwoPcPhase::Aborted) {
        return ProposalOutcome::Aborted;
    }
    if all_hold(&payloads, n, TwoPcPhase::Committed) {
        return ProposalOutcome::Committed;
    }
    ProposalOutcome::TimedOut
}
