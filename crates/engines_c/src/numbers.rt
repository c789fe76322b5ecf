// RULES 17. State as a lent list of 64-bit numbers, for entries that can be lent numbers and nothing else. A place
// past the end reads as 0, and nothing is put there, so that no call has to be refused for the length of its list. C
// lends one list, of any length, for all of a state, so list and place are passed on: a part of it from a place on can
// be lent only where the list is known to reach that far.
ghost use Rattle.std.specs.Prelude.{◌≡◌, ◌+◌, ◌≤◌, get_or, set};
ghost use Rattle.std.proofs.lemmas.List.Edits.{sets};
ghost use Rattle.engines_c.specs.Numbers.{cell, words_at, node_at, nodes_at, node_numbers, put_nodes, metrics_at, metrics_numbers, network_at, put_network};

use engines::metrics::MetricsCollector;
use engines::network::Network;
use engines::node::{Node, NodeState};

// `get` with 0 behind the end, by a name: fifty places read a list so.
pub fn number(xs: &[u64], i: usize) -> u64
    ensures { result ≡ get_or xs.now i 0 }
{
    xs.get(i).copied().unwrap_or(0)
}

// Of numbers and of floats.
pub fn put<T: Copy>(xs: &mut [T], i: usize, v: T)
    ensures { xs.new ≡ set xs.old i v }
{
    if i < xs.len() {
        xs[i] = v;
    }
}

// The number k places behind at. No list is as long as the highest number, at which the sum stops.
pub fn number_behind(xs: &[u64], at: usize, k: usize) -> u64
    ensures { result ≡ cell xs.now at k }
{
    number(xs, at.saturating_add(k))
}

// The 64 numbers from a place on.
pub fn words_of(xs: &[u64], at: usize) -> [u64; 64]
    ensures { result ≡ words_at xs.now at }
{
    std::array::from_fn(|i| number_behind(xs, at, i))
}

// All values, one behind the other, from k places behind at on.
pub fn put_run(xs: &mut [u64], at: usize, k: usize, values: &[u64])
    ensures { xs.new ≡ sets xs.old (at + k) values.now }
{
    if xs.len().saturating_sub(at) <= k {
        return;
    }
    for (i, &v) in values.iter().enumerate() {
        put(xs, at + k + i, v);
    }
}

// ---- a node: 8 numbers

// The node whose numbers start k places behind at. (The bound keeps k + 7 from wrapping; with a first place at which
// the sum stops, as in `number_behind`, the proof of this and of payloads.rt did not close.)
#[tactic(auto, unfolding(crate::specs::Numbers::node_at))]
fn node_of(xs: &[u64], at: usize, k: usize) -> Node
    requires { k ≤ 504 }
    ensures { result ≡ node_at xs.now at k }
{
    Node {
        state: NodeState::from(number_behind(xs, at, k)),
        flood_remaining: (number_behind(xs, at, k + 1) % 4294967296) as u32,
        last_progress_slot: number_behind(xs, at, k + 2),
        goal_reached: number_behind(xs, at, k + 3) != 0,
        progress_count: number_behind(xs, at, k + 4),
        slots_listen: number_behind(xs, at, k + 5),
        slots_flood: number_behind(xs, at, k + 6),
        slots_sleep: number_behind(xs, at, k + 7),
    }
}

pub fn node_numbers(v: Node) -> [u64; 8]
    ensures { result ≡ node_numbers v }
{
    [
        u64::from(v.state),
        v.flood_remaining as u64,
        v.last_progress_slot,
        v.goal_reached as u64,
        v.progress_count,
        v.slots_listen,
        v.slots_flood,
        v.slots_sleep,
    ]
}

// The nodes of all positions, whose numbers start at a place, each behind the one before it.
pub fn nodes_of(xs: &[u64], at: usize) -> [Node; limits::POSITIONS]
    ensures { result ≡ nodes_at xs.now at }
{
    std::array::from_fn(|i| node_of(xs, at, i * 8))
}

pub fn put_node(xs: &mut [u64], at: usize, k: usize, v: Node)
    ensures { xs.new ≡ sets xs.old (at + k) (node_numbers v) }
{
    let values = node_numbers(v);
    put_run(xs, at, k, &values);
}

// (payloads.rt puts payloads in the same way: one loop for both would be told how, in no fewer lines.)
pub fn put_nodes(xs: &mut [u64], at: usize, nodes: [Node; limits::POSITIONS])
    ensures { xs.new ≡ put_nodes at nodes xs.old }
{
    for (i, &v) in nodes.iter().enumerate() {
        put_node(xs, at, i * 8, v);
    }
}

// ---- the counts of a room: 8 numbers

#[tactic(auto, unfolding(crate::specs::Numbers::metrics_at))]
pub fn metrics_of(xs: &[u64], at: usize) -> MetricsCollector
    ensures { result ≡ metrics_at xs.now at }
{
    MetricsCollector {
        nacks_sent: number_behind(xs, at, 0),
        piggybacks_sent: number_behind(xs, at, 1),
        ce_timeouts: number_behind(xs, at, 2),
        rx_attempts: number_behind(xs, at, 3),
        rx_success: number_behind(xs, at, 4),
        flood_rounds: number_behind(xs, at, 5),
        flood_nodes_total: number_behind(xs, at, 6),
        flood_nodes_covered: number_behind(xs, at, 7),
    }
}

pub fn put_metrics(xs: &mut [u64], at: usize, m: MetricsCollector)
    ensures { xs.new ≡ sets xs.old at (metrics_numbers m) }
{
    let values = [
        m.nacks_sent,
        m.piggybacks_sent,
        m.ce_timeouts,
        m.rx_attempts,
        m.rx_success,
        m.flood_rounds,
        m.flood_nodes_total,
        m.flood_nodes_covered,
    ];
    put_run(xs, at, 0, &values);
}

// ---- a network: slot and next row slot at 0 and 1, then bytes sent, counts and nodes, each at a place of its own

#[tactic(auto, unfolding(crate::specs::Numbers::network_at))]
pub fn network_of(xs: &[u64], sent: usize, counts: usize, at: usize) -> Network
    ensures { result ≡ network_at xs.now sent counts at }
{
    Network {
        nodes: nodes_of(xs, at),
        metrics: metrics_of(xs, counts),
        slot: number(xs, 0),
        next_row: number(xs, 1),
        bytes_sent: number(xs, sent),
    }
}

pub fn put_network(xs: &mut [u64], sent: usize, counts: usize, at: usize, w: Network)
    ensures { xs.new ≡ put_network sent counts at w xs.old }
{
    put(xs, 0, w.slot);
    put(xs, 1, w.next_row);
    put(xs, sent, w.bytes_sent);
    put_metrics(xs, counts, w.metrics);
    put_nodes(xs, at, w.nodes);
}
