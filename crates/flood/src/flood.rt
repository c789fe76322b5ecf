// RULES 9. Ported from phy/ci.rs: the identical flood, slot by slot. What is flooded is the same for everybody, so
// only its length counts here. Words are lent for one call and the cursor stays between slots, so both are passed.
ghost use Rattle.std.specs.Prelude.{◌≡◌, ◌<◌};
ghost use Rattle.marks.specs.Marks.{has};
ghost use Rattle.engines.specs.Marked.{over_marks};
ghost use Rattle.engines.specs.Nodes.{reset_round};
ghost use Rattle.engines.specs.Rounds.{placed, Surveyed};
ghost use Rattle.flood.specs.Flood.{flood_length, framed, hear_at, hearers_of, flood_plan, in_state, after_flood, after_listen, next_node, turned_all, nobody_floods, sent_by, flood_slot, is_over, reset_all, flood_start, flood_rows, flooded_of};

use engines::network::{Network, RoundConf, Survey};
use engines::node::{Change, Node, NodeState, StateSets};
use engines::words::Draw;
use engines::{network, node, rows, words};
use graph::sets;

// Who receives in a slot, and what that draws and counts.
#[derive(Clone, Copy)]
pub struct FloodPlan {
    pub received: u64,
    pub draw: Draw,
    pub attempts: u64,
    pub success: u64,
}

// A round between two slots: the network, the cursor, and whether nobody will flood. That is no Option of a run: where
// a run has come to is read when it is over.
#[derive(Clone, Copy)]
pub struct FloodRun {
    pub network: Network,
    pub draw: Draw,
    pub over: bool,
}

// How many slots a round may take. A diameter lies below 64, and a longer one is taken for 64: so the product cannot
// wrap. (Slots and whether they are given are two, as the settings and C's numbers hold them: an Option would be made
// by each caller, to be taken apart in the first line.)
#[tactic(auto, using(crate::proofs::Flooding::length_fits), unfolding(crate::specs::Flood::flood_length))]
pub fn flood_length(given: bool, slots: u64, diameter: usize, repeats: u32) -> u64
    ensures { result ≡ flood_length given slots diameter repeats }
{
    if given {
        return slots;
    }
    let d = diameter.min(64);
    let long = (d as u64 + 2) * (repeats as u64);
    long.max(3)
}

// A frame for neighbour j that arrives or is gone.
#[tactic(auto, unfolding(crate::specs::Flood::framed))]
fn frame(p: FloodPlan, j: usize, gone: bool, d: Draw) -> FloodPlan
    ensures { result ≡ framed j gone d p }
{
    let attempts = p.attempts.wrapping_add(1);
    if gone {
        return FloodPlan {
            draw: d,
            attempts,
            ..p
        };
    }
    FloodPlan {
        received: sets::with_mark(p.received, j),
        draw: d,
        attempts,
        success: p.success.wrapping_add(1),
    }
}

// A frame for neighbour j, with its draw unless the loss is 0.
#[tactic(auto, unfolding(crate::specs::Flood::hear_at))]
fn hear(words: &[u64], loss: f64, j: usize, p: FloodPlan) -> FloodPlan
    ensures { result ≡ hear_at words.now loss j p }
{
    if loss == 0.0 {
        return frame(p, j, false, p.draw);
    }
    let x = words::next(words, p.draw);
    frame(p, j, words::lost(x.word, loss), x.draw)
}

pub(crate) fn find_hearers(row: u64, listening: u64) -> u64
    ensures { result ≡ hearers_of row listening }
{
    sets::intersection(row, listening)
}

// What one flooder sends to its hearers, the lowest first.
fn send(words: &[u64], loss: f64, hearers: u64, p: FloodPlan) -> FloodPlan
    ensures { result ≡ over_marks hearers (hear_at words.now loss) p }
{
    let mut q = p;
    for j in sets::iter(hearers) {
        q = hear(words, loss, j, q);
    }
    q
}

// The plan of a slot: all flooders, the lowest first. It takes every word that the slot takes.
fn plan_flood(words: &[u64], loss: f64, links: &[u64; 64], s: StateSets, d: Draw) -> FloodPlan
    ensures { result ≡ flood_plan words.now loss links.now s d }
{
    let mut p = FloodPlan {
        received: 0,
        draw: d,
        attempts: 0,
        success: 0,
    };
    for i in sets::iter(s.flooding) {
        p = send(words, loss, find_hearers(links[i], s.listening), p);
    }
    p
}

fn with_state(v: Node, state: NodeState, flood_remaining: u32) -> Node
    ensures { result ≡ in_state v state flood_remaining }
{
    Node {
        state,
        flood_remaining,
        ..v
    }
}

// A flooder's next state. Where none is left, which only repeats 0 leads to, it sleeps as well: the count cannot fall
// below 0.
#[tactic(auto, unfolding(crate::specs::Flood::after_flood))]
fn after_flood(v: Node) -> Node
    ensures { result ≡ after_flood v }
{
    if v.flood_remaining <= 1 {
        return with_state(v, NodeState::Sleep, 0);
    }
    with_state(v, NodeState::Flood, v.flood_remaining - 1)
}

#[tactic(auto, unfolding(crate::specs::Flood::after_listen))]
fn after_listen(v: Node, heard: bool, repeats: u32) -> Node
    ensures { result ≡ after_listen repeats heard v }
{
    if heard {
        return with_state(v, NodeState::Flood, repeats);
    }
    v
}

#[tactic(auto, unfolding(crate::specs::Flood::next_node))]
fn turn(v: Node, heard: bool, repeats: u32) -> Node
    ensures { result ≡ next_node repeats heard v }
{
    match v.state {
        NodeState::Listen => after_listen(v, heard, repeats),
        NodeState::Flood => after_flood(v),
        NodeState::Sleep => v,
    }
}

// The next state of each, by who received.
#[derive(Clone, Copy)]
struct Turning {
    received: u64,
    repeats: u32,
}

impl Change for Turning {
    ghost changed = { λ t i v. next_node t.repeats (has t.received i) v };

    fn change(&self, i: usize, v: Node) -> Node {
        turn(v, sets::is_marked(self.received, i), self.repeats)
    }
}

// The next states of the first n positions. (Here and below 64 places and n: see engines src/node.rt.)
fn turn_all(at: [Node; 64], n: usize, received: u64, repeats: u32) -> [Node; 64]
    ensures { result ≡ turned_all n repeats received at }
{
    node::change_all(at, n, &Turning { received, repeats })
}

#[tactic(auto, unfolding(crate::specs::Flood::nobody_floods))]
fn nobody_floods(at: [Node; 64], n: usize) -> bool
    ensures { result ≡ nobody_floods n at }
{
    node::state_sets(at, n).flooding == 0
}

// The bytes that the flooders send in a slot: each a header and the packet.
pub(crate) fn sent_by(flooding: u64, bytes: u64) -> u64
    ensures { result ≡ sent_by flooding bytes }
{
    (sets::count_marks(flooding) as u64).wrapping_mul(network::on_air(bytes))
}

// What the slots of a round go by: the words, what no round changes, and how many bytes a packet's text has.
#[derive(Clone, Copy)]
pub(crate) struct Slots<'a> {
    pub words: &'a [u64],
    pub conf: RoundConf,
    pub bytes: u64,
}

impl Slots<'_> {
    // One slot of a round.
    #[tactic(auto, unfolding(crate::specs::Flood::flood_slot, crate::specs::Flood::sent_after, engines::specs::Network::ticking))]
    pub(crate) fn flood_slot(&self, f: FloodRun) -> FloodRun
        ensures { result ≡ flood_slot self.now.words.now self.now.conf self.now.bytes f }
    {
        let w = network::tick(self.conf, f.network);
        let g = self.conf.graph;
        let s = node::state_sets(w.nodes, g.n);
        let p = plan_flood(self.words, self.conf.settings.loss_rate, &g.adj, s, f.draw);
        let nodes = turn_all(w.nodes, g.n, p.received, self.conf.settings.flood_repeats);
        FloodRun {
            network: Network {
                nodes,
                metrics: w.metrics.count_frames(p.attempts, p.success),
                slot: w.slot.wrapping_add(1),
                next_row: rows::next_row(w.next_row, self.conf.interval, w.slot),
                bytes_sent: w.bytes_sent.wrapping_add(sent_by(s.flooding, self.bytes)),
            },
            draw: p.draw,
            over: nobody_floods(nodes, g.n),
        }
    }

    // ---- a run of slots: two loops, which a capture round has too. Why not once: see capture src/capture.rt.

    // The slots of a round, without its rows. Once words have run short the rest is not run: there may be four billion
    // slots, and a lack stays noted.
    fn survey(&self, f: FloodRun) -> Survey<FloodRun>
        ensures { Surveyed (λ g. g.network) is_over (flood_slot self.now.words.now self.now.conf self.now.bytes) self.now.conf (λ g. g.draw) self.now.conf.length f result.run result.due }
    {
        let mut run = f;
        let mut due: u64 = 0;
        let mut left = self.conf.length;
        // No `for`: a step takes one slot or many.
        while 0 < left {
            if run.over {
                return Survey { run, due };
            }
            if run.draw.short {
                return Survey { run, due };
            }
            due = rows::due_after(due, run.network.next_row, run.network.slot);
            let step = self.advance(run, left);
            run = step.run;
            left = step.left;
        }
        Survey { run, due }
    }

    // The slots of a round once more, for its rows alone: as many as the part that is lent holds whole.
    fn record_run(&self, part: &mut [u64], f: FloodRun)
        ensures { part.new ≡ placed part.old 0 (flood_rows self.now.words.now self.now.conf self.now.bytes f) }
    {
        let mut run = f;
        let mut at: usize = 0;
        let mut left = self.conf.length;
        // No `for`: a step takes one slot or many.
        while 0 < left {
            if run.over {
                return;
            }
            if rows::is_full(part.len(), at) {
                return;
            }
            at = network::write_row(part, at, self.conf, run.network);
            let step = self.advance(run, left);
            run = step.run;
            left = step.left;
        }
    }
}

// A round without its rows; none if words ran short.
pub fn flood_identical_round(
    words: &[u64],
    conf: RoundConf,
    bytes: u64,
    f: FloodRun,
) -> Option<Survey<FloodRun>>
    ensures { result ≡ flooded_of words.now conf bytes f }
{
    let slots = Slots { words, conf, bytes };
    let s = slots.survey(f);
    if s.run.draw.short {
        return None;
    }
    Some(s)
}

#[derive(Clone, Copy)]
struct Resetting;

impl Change for Resetting {
    ghost changed = { λ _ _ v. reset_round v };

    fn change(&self, _: usize, v: Node) -> Node {
        v.reset_round()
    }
}

fn reset_all(at: [Node; 64], n: usize) -> [Node; 64]
    ensures { result ≡ reset_all n at }
{
    node::change_all(at, n, &Resetting)
}

// Everybody listens but the initiator.
#[tactic(auto, unfolding(crate::specs::Flood::flood_start))]
pub fn start_flood(at: [Node; 64], n: usize, initiator: usize, repeats: u32) -> [Node; 64]
    ensures { result ≡ flood_start n initiator repeats at }
{
    let mut a = reset_all(at, n);
    if initiator >= 64 {
        return a;
    }
    a[initiator] = with_state(a[initiator], NodeState::Flood, repeats);
    a
}

// The rows of a round, into a part of their length.
pub fn write_rows(words: &[u64], conf: RoundConf, bytes: u64, part: &mut [u64], f: FloodRun)
    ensures { part.new ≡ placed part.old 0 (flood_rows words.now conf bytes f) }
{
    let slots = Slots { words, conf, bytes };
    slots.record_run(part, f);
}
