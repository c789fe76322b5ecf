// RULES 11.5 and 11.6. What the calls of a capture room do to the parts that they move: the network, and what the room
// has of its own. A room's calls are thin over these.
ghost use Rattle.std.specs.Prelude.{◌≡◌, ◌<◌, length, replicate};
ghost use Rattle.room.specs.Capturing.{empty_payload, new_capture, proposer, propose_test, propose_part, capture_test, ce_state, raised, raised_all, network_after, part_after, capture_part, capture_rows};

use super::room::{RoomConf, RoomKind};
use capture::capture as engine;
use capture::capture::CeState;
use engines::network::Network;
use engines::node::{Change, Node};
use engines::words::Draw;
use engines::{network, node};
use graph::network::{check_position, check_size};
use limits::refusals::Refusal;
use merges::merging;
use merges::merging::{Held, Payload};

// What a capture room has of its own: the present term, who proposed in it if anybody has, whether the progress was
// raised for it, and what each position holds.
#[derive(Clone, Copy)]
pub struct CapturePart {
    pub term: u64,
    pub initiator: Option<usize>,
    pub raised: bool,
    pub held: [Payload; 64],
}

// ---- opening

// Nobody holds anything.
fn empty_payloads() -> [Payload; 64]
    ensures { result ≡ replicate 64 empty_payload }
{
    [Payload::without(Held::Empty); 64]
}

impl CapturePart {
    // As opened: nobody has proposed, and nobody holds anything.
    pub fn new(term: u64) -> CapturePart
        ensures { result ≡ new_capture term }
    {
        let held = empty_payloads();
        CapturePart {
            term,
            initiator: None,
            raised: false,
            held,
        }
    }
}

impl CapturePart {
    // Who proposed last; 0 while nobody has, when every round is refused. A number, as C is told one, and the rule of a
    // round has no case for what is refused before.
    pub fn proposer(&self) -> usize
        ensures { result ≡ proposer self.now }
    {
        self.initiator.unwrap_or(0)
    }
}

// ---- propose

#[tactic(auto, unfolding(crate::specs::Capturing::propose_test))]
fn check_propose(conf: RoomConf, term: u64, v: usize) -> Result<(), Refusal>
    ensures { result ≡ propose_test conf term v }
{
    check_position(conf.round.graph.n, v)?;
    conf.kind.check(RoomKind::Capture)?;
    if term == limits::LAST_TERM {
        return Err(Refusal::NoTerm);
    }
    Ok(())
}

// Position v proposes in the next term. A refused proposal changes nothing.
#[tactic(auto, using(crate::proofs::Answers::position_below), unfolding(crate::specs::Capturing::propose_part, crate::specs::Capturing::proposed_in))]
pub fn propose(conf: RoomConf, t: &mut CapturePart, v: usize) -> Result<(), Refusal>
    ensures { record { told = result; part = t.new } ≡ propose_part conf t.old v }
{
    check_propose(conf, t.term, v)?;
    let voting = engine::voting_of(conf.round);
    let packet = merging::init_proposal(voting, t.term, v);
    let mut held = empty_payloads();
    held[v] = Payload {
        held: Held::Packet,
        packet,
    };
    *t = CapturePart {
        term: t.term.wrapping_add(1),
        initiator: Some(v),
        raised: false,
        held,
    };
    Ok(())
}

// ---- a round

// The refusals that are known before a round runs.
#[tactic(auto, unfolding(crate::specs::Capturing::capture_test))]
pub fn check_capture(conf: RoomConf, proposed: bool, slot: u64) -> Result<(), Refusal>
    ensures { result ≡ capture_test conf proposed slot }
{
    check_size(conf.round.graph.n)?;
    conf.kind.check(RoomKind::Capture)?;
    if !proposed {
        return Err(Refusal::NoProposal);
    }
    network::check_length(conf.round, slot)
}

// The state that a round starts from.
fn ce_state(w: Network, t: CapturePart) -> CeState
    ensures { result ≡ ce_state w t }
{
    let held = t.held;
    CeState {
        network: w,
        held,
        draw: Draw {
            at: 0,
            short: false,
        },
        ended: false,
    }
}

#[tactic(auto, unfolding(crate::specs::Capturing::raised))]
fn raise(v: Node) -> Node
    ensures { result ≡ raised v }
{
    Node {
        progress_count: v.progress_count.wrapping_add(1),
        ..v
    }
}

#[derive(Clone, Copy)]
struct Raising;

impl Change for Raising {
    ghost changed = { λ _ _ v. raised v };

    fn change(&self, _: usize, v: Node) -> Node {
        raise(v)
    }
}

// The progress of the first n positions, one higher. (64 places and n: see engines src/node.rt.)
fn raise_all(at: [Node; 64], n: usize) -> [Node; 64]
    ensures { result ≡ raised_all n at }
{
    node::change_all(at, n, &Raising)
}

// Progress rises by one for everybody, once for each term: when a round meets the goal for the first time.
fn settle(conf: RoomConf, t: CapturePart, c: CeState) -> Network
    ensures { result ≡ network_after conf t c }
{
    let w = c.network;
    if !c.ended {
        return w;
    }
    if t.raised {
        return w;
    }
    let nodes = w.nodes;
    let mut v = w;
    let higher = raise_all(nodes, conf.round.graph.n);
    v.nodes = higher;
    v
}

fn keep(t: CapturePart, c: CeState) -> CapturePart
    ensures { result ≡ part_after t c }
{
    let held = c.held;
    CapturePart {
        term: t.term,
        initiator: t.initiator,
        raised: t.raised || c.ended,
        held,
    }
}

// One capture round with the words from the cursor on; its rows are written behind the rows already used. A refused
// round changes nothing.
#[tactic(auto, using(capture::proofs::Settling::refused_used), unfolding(crate::specs::Capturing::capture_part, crate::specs::Capturing::capture_rows, crate::specs::Capturing::captured_by))]
pub fn capture_round(
    words: &[u64],
    cursor: &mut usize,
    rows: &mut [u64],
    used: &mut usize,
    conf: RoomConf,
    w: &mut Network,
    t: &mut CapturePart,
) -> Result<(), Refusal>
    ensures value { record { told = result; cursor = cursor.new; used = used.new; network = w.new; part = t.new } ≡ capture_part words.now (length rows.old) used.old conf w.old t.old cursor.old }
    ensures rows_after { rows.new ≡ capture_rows words.now rows.old used.old conf w.old t.old cursor.old }
{
    check_capture(conf, t.initiator.is_some(), w.slot)?;
    let mut c = ce_state(*w, *t);
    let initiator = t.proposer();
    engine::run_ce_round(words, rows, used, conf.round, &mut c, initiator, *cursor)?;
    *cursor = c.draw.at;
    *w = settle(conf, *t, c);
    *t = keep(*t, c);
    Ok(())
}
