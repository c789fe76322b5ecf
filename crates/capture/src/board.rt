// RULES none. A capture round inside: sets of positions, a mark each, and a lent table of numbers, a column of 64 for
// each thing that is kept of a position. So a slot copies neither positions nor payloads. One table, and no struct of
// nine lists nor 64 structs: `engines::columns` changes any column by its start, at the marks of a set, and a contract
// says in one equation what becomes of the whole table.
// specs/Boards.antt tells which state of the rules board and table show. A position is a plain number, since it comes
// from marks and counts: each function asks that it be below 64, where a type for it would ask so at each making.
ghost use Rattle.std.specs.Prelude.{◌≡◌, ℕ, ◌<◌, ◌≤◌, true, false, List, length, ◌==◌};
ghost use Rattle.loops.specs.Pick.{either};
ghost use Rattle.marks.specs.Marks.{has};
ghost use Rattle.packets.specs.Writing.{data_len};
ghost use Rattle.merges.specs.Merging.{can_sleep_of};
ghost use Rattle.engines.specs.declared.network.RoundConf.{RoundConf};
ghost use Rattle.capture.specs.Capture.{start_of};
ghost use Rattle.capture.specs.Boards.{from_at, state_by, node_by, nodes_by, holds_by, phase_by, held_by, slip_by, data_in, payload_by, payloads_by, seen_by, Shown, row_for, PutPhase, NotedAt, Taken, FirstStates};
ghost use Rattle.engines.specs.Clamp.{at_most64};
ghost use Rattle.engines.specs.Columns.{cell, row_put};
ghost use Rattle.merges.specs.declared.merging.Payload.{Payload};

use super::capture::CeState;
use engines::metrics::MetricsCollector;
use engines::network::{Network, RoundConf};
use engines::node;
use engines::node::{Change, Node, NodeState, StateSets};
use engines::words::Draw;
use graph::sets;
use merges::merging;
use merges::merging::{Held, Payload, Slip};
use merges::votes::Voting;
use packets::{Bitmap, Data, TwoPcPhase, len};

// Where the columns start: last progress, the three counts, the parts of what is held, and the length of the data's
// text of what was held when the round began.
pub(crate) const LAST: usize = 0;

pub(crate) const LISTEN: usize = 64;

pub(crate) const FLOOD: usize = 128;

pub(crate) const SLEEP: usize = 192;

pub(crate) const TERM: usize = 256;

pub(crate) const LEN: usize = 320;

pub(crate) const MARKS: usize = 384;

pub(crate) const FROM: usize = 448;

pub(crate) const DATA: usize = 512;

// The positions that hold a packet of each phase, and those that hold a text that is none.
#[derive(Clone, Copy)]
pub struct Phases {
    pub prepared: u64,
    pub committed: u64,
    pub aborted: u64,
    pub unreadable: u64,
}

// A round between two slots, but for the table: who is in which state, who has reached its goal, who holds what, who
// can sleep by what it holds; and the numbers of the network, the cursor, and whether the goal test was passed.
#[derive(Clone, Copy)]
pub struct Board {
    pub states: StateSets,
    pub goal_reached: u64,
    pub phases: Phases,
    pub can_sleep: u64,
    pub metrics: MetricsCollector,
    pub slot: u64,
    pub next_row: u64,
    pub bytes_sent: u64,
    pub draw: Draw,
    pub ended: bool,
}

// What a slot goes by, beside the links.
#[derive(Clone, Copy)]
pub struct CeFixed {
    pub voting: Voting,
    pub loss_rate: f64,
    pub listen_timeout: u64,
    pub interval: u64,
}

// ---- one position, read

// Here, in ce.rt and in plan.rt a function on one position asks that its number is below 64, as the loops over marks
// and over the first n have it. A type for such numbers would be made in each loop and taken apart at each place of a
// table, and the check finds the bound without a line of proof.

#[tactic(auto, unfolding(crate::specs::Boards::state_by))]
fn state_by(s: StateSets, i: usize) -> NodeState
    ensures { result ≡ state_by s i }
{
    if sets::is_marked(s.flooding, i) {
        return NodeState::Flood;
    }
    if sets::is_marked(s.sleeping, i) {
        return NodeState::Sleep;
    }
    NodeState::Listen
}

#[tactic(auto, unfolding(crate::specs::Boards::holds_by))]
pub(crate) fn holds(p: Phases, i: usize) -> bool
    ensures { result ≡ holds_by p i }
{
    sets::is_marked(p.prepared, i)
        || sets::is_marked(p.committed, i)
        || sets::is_marked(p.aborted, i)
}

// As state_by, of other sets and values: one function for both would be told all five.
#[tactic(auto, unfolding(crate::specs::Boards::phase_by))]
fn phase_by(p: Phases, i: usize) -> TwoPcPhase
    ensures { result ≡ phase_by p i }
{
    if sets::is_marked(p.committed, i) {
        return TwoPcPhase::Committed;
    }
    if sets::is_marked(p.aborted, i) {
        return TwoPcPhase::Aborted;
    }
    TwoPcPhase::Prepare
}

#[tactic(auto, unfolding(crate::specs::Boards::held_by))]
pub(crate) fn held_by(p: Phases, i: usize) -> Held
    ensures { result ≡ held_by p i }
{
    if holds(p, i) {
        return Held::Packet;
    }
    if sets::is_marked(p.unreadable, i) {
        return Held::Unreadable;
    }
    Held::Empty
}

// What position i holds, if it holds a packet.
#[tactic(auto, unfolding(crate::specs::Boards::slip_by, engines::specs::Columns::cell))]
pub(crate) fn slip_at(p: Phases, table: &[u64; 576], i: usize) -> Slip
    requires { i < 64 }
    ensures { result ≡ slip_by p table.now i }
{
    Slip {
        term: table[TERM + i],
        phase: phase_by(p, i),
        source: table[FROM + i],
        flags_bitmap: Bitmap {
            len: table[LEN + i] as usize,
            marks: table[MARKS + i],
        },
    }
}

// ---- one position, written

// m, with or without mark i. (`mark_or_not` in pipeline src/pending.rt reads alike, but promises an equation on words,
// where this tells the marks: the two share three lines of code and no contract.)
pub(crate) fn put(m: u64, i: usize, yes: bool) -> u64
    requires { i < 64 }
    ensures { (j : ℕ) → has result j ≡ either (j == i) yes (has m j) }
{
    if yes {
        return sets::with_mark(m, i);
    }
    sets::without_mark(m, i)
}

// Position i holds a packet of this phase.
pub(crate) fn put_phase(p: Phases, i: usize, phase: TwoPcPhase) -> Phases
    requires { i < 64 }
    ensures { PutPhase p i phase result }
{
    match phase {
        TwoPcPhase::Prepare => Phases {
            prepared: put(p.prepared, i, true),
            committed: put(p.committed, i, false),
            aborted: put(p.aborted, i, false),
            unreadable: p.unreadable,
        },
        TwoPcPhase::Committed => Phases {
            prepared: put(p.prepared, i, false),
            committed: put(p.committed, i, true),
            aborted: put(p.aborted, i, false),
            unreadable: p.unreadable,
        },
        TwoPcPhase::Aborted => Phases {
            prepared: put(p.prepared, i, false),
            committed: put(p.committed, i, false),
            aborted: put(p.aborted, i, true),
            unreadable: p.unreadable,
        },
    }
}

// ---- in

// The sets that a round starts with, beside those of states.
#[derive(Clone, Copy)]
pub struct Noted {
    pub goal_reached: u64,
    pub phases: Phases,
    pub can_sleep: u64,
}

// The numbers of position i when the round begins: its last progress is the round's start, and its data are its own.
#[tactic(auto, unfolding(engines::specs::Columns::row_put))]
fn take_position(table: &mut [u64; 576], i: usize, slot: u64, v: Node, l: Payload)
    requires { i < 64 }
    ensures table_after { table.new ≡ row_put 0 i (row_for slot i v l) table.old }
    ensures proposal_data_bound { data_len l.packet.proposal_data ≤ 129 }
{
    let p = l.packet;
    let d = p.proposal_data;
    let b = p.flags_bitmap;
    table[LAST + i] = slot;
    table[LISTEN + i] = v.slots_listen;
    table[FLOOD + i] = v.slots_flood;
    table[SLEEP + i] = v.slots_sleep;
    table[TERM + i] = p.term;
    table[LEN + i] = b.len as u64;
    table[MARKS + i] = b.marks;
    table[FROM + i] = i as u64;
    table[DATA + i] = len::data_text_len(d) as u64;
}

fn note_phases(p: Phases, i: usize, held: Held, phase: TwoPcPhase) -> Phases
    requires { i < 64 }
    ensures { NotedAt p i held phase result }
{
    match held {
        Held::Empty => p,
        Held::Unreadable => Phases {
            unreadable: put(p.unreadable, i, true),
            ..p
        },
        Held::Packet => put_phase(p, i, phase),
    }
}

// Position i entered into the sets of what it is and holds.
fn note(n: usize, s: Noted, i: usize, v: Node, l: Payload) -> Noted
    requires { i < 64 }
    ensures by_index { (j : ℕ) → has result.goal_reached j ≡ either (j == i) v.goal_reached (has s.goal_reached j) }
    ensures by_index_2 { (j : ℕ) → has result.can_sleep j ≡ either (j == i) (can_sleep_of n l) (has s.can_sleep j) }
    ensures noted_at { NotedAt s.phases i l.held l.packet.phase result.phases }
{
    Noted {
        goal_reached: put(s.goal_reached, i, v.goal_reached),
        phases: note_phases(s.phases, i, l.held, l.packet.phase),
        can_sleep: put(s.can_sleep, i, merging::node_can_sleep(n, l)),
    }
}

// The first n positions into table and sets.
fn take_all(n: usize, c: CeState, table: &mut [u64; 576]) -> Noted
    ensures { length table.old ≡ 576 → Taken n (at_most64 n) c result table.new }
{
    let w = c.network;
    let mut s = Noted {
        goal_reached: 0,
        phases: Phases {
            prepared: 0,
            committed: 0,
            aborted: 0,
            unreadable: 0,
        },
        can_sleep: 0,
    };
    for i in 0..n.min(64) {
        let v = w.nodes[i];
        let l = c.held[i];
        take_position(table, i, w.slot, v, l);
        s = note(n, s, i, v, l);
    }
    s
}

// The initiator floods, all others listen.
fn first_states(n: usize, initiator: usize) -> StateSets
    ensures { FirstStates n initiator result }
{
    let all = sets::first_marks(n);
    let first = sets::with_mark(0, initiator);
    StateSets {
        listening: sets::difference(all, first),
        flooding: sets::intersection(all, first),
        sleeping: 0,
    }
}

// Board and table at the start of a round.
pub(crate) fn unpack(
    n: usize,
    c: CeState,
    initiator: usize,
    cursor: usize,
    table: &mut [u64; 576],
) -> Board
    ensures { length table.old ≡ 576 → (conf : RoundConf) → conf.graph.n ≡ n → Shown n c result table.new (start_of conf initiator cursor c) }
{
    let s = take_all(n, c, table);
    let w = c.network;
    Board {
        states: first_states(n, initiator),
        goal_reached: s.goal_reached,
        phases: s.phases,
        can_sleep: s.can_sleep,
        metrics: w.metrics,
        slot: w.slot,
        next_row: w.next_row,
        bytes_sent: w.bytes_sent,
        draw: Draw {
            at: cursor,
            short: false,
        },
        ended: false,
    }
}

// ---- out

#[tactic(auto, unfolding(crate::specs::Boards::node_by, engines::specs::Columns::cell))]
fn node_by(s: StateSets, goal_reached: u64, table: &[u64; 576], i: usize, v: Node) -> Node
    requires { i < 64 }
    ensures { result ≡ node_by s goal_reached table.now i v }
{
    Node {
        state: state_by(s, i),
        goal_reached: sets::is_marked(goal_reached, i),
        flood_remaining: 0,
        last_progress_slot: table[LAST + i],
        progress_count: v.progress_count,
        slots_listen: table[LISTEN + i],
        slots_flood: table[FLOOD + i],
        slots_sleep: table[SLEEP + i],
    }
}

// Each position from its columns and sets.
#[derive(Clone, Copy)]
struct Packing<'a> {
    states: StateSets,
    goal_reached: u64,
    table: &'a [u64; 576],
}

impl Change for Packing<'_> {
    ghost changed = { λ p i v. node_by p.states p.goal_reached p.table.now i v };

    // No position has such a number, and the law leaves open what is made of it (engines src/node.rt).
    fn change(&self, i: usize, v: Node) -> Node {
        if i >= 64 {
            return v;
        }
        node_by(self.states, self.goal_reached, self.table, i, v)
    }
}

fn pack_nodes(
    nodes: [Node; 64],
    n: usize,
    s: StateSets,
    goal_reached: u64,
    table: &[u64; 576],
) -> [Node; 64]
    ensures { result ≡ nodes_by n nodes s goal_reached table.now }
{
    let change = Packing {
        states: s,
        goal_reached,
        table,
    };
    node::change_all(nodes, n, &change)
}

#[tactic(auto, unfolding(crate::specs::Boards::payload_by, crate::specs::Boards::slip_by))]
fn payload_by(p: Phases, table: &[u64; 576], i: usize, proposal_data: Data, v: Payload) -> Payload
    requires { i < 64 }
    ensures { (base : List Payload) → proposal_data ≡ data_in base (cell table.now from_at i) → result ≡ payload_by base p table.now i v }
{
    if !holds(p, i) {
        return v;
    }
    let s = slip_at(p, table, i);
    Payload {
        held: Held::Packet,
        packet: s.with_data(proposal_data),
    }
}

fn pack_held(held: [Payload; 64], n: usize, p: Phases, table: &[u64; 576]) -> [Payload; 64]
    ensures { result ≡ payloads_by n held p table.now }
{
    let mut a = held;
    for i in 0..n.min(64) {
        let from = (table[FROM + i] % 64) as usize;
        a[i] = payload_by(p, table, i, held[from].packet.proposal_data, a[i]);
    }
    a
}

// The state that board and table show, in a round that began with c.
#[tactic(auto, unfolding(crate::specs::Boards::seen_by))]
pub(crate) fn pack(n: usize, c: CeState, b: Board, table: &[u64; 576]) -> CeState
    ensures { result ≡ seen_by n c b table.now }
{
    CeState {
        network: Network {
            nodes: pack_nodes(c.network.nodes, n, b.states, b.goal_reached, table),
            metrics: b.metrics,
            slot: b.slot,
            next_row: b.next_row,
            bytes_sent: b.bytes_sent,
        },
        held: pack_held(c.held, n, b.phases, table),
        draw: b.draw,
        ended: b.ended,
    }
}
