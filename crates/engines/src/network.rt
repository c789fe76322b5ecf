// RULES 7.1, 7.3, 7.4 and 7.5. What both kinds of room have and both kinds of round move, and what a round goes by.
ghost use Rattle.std.specs.Prelude.{◌≡◌, length};
ghost use Rattle.engines.specs.Network.{new_network, ticking, on_air, length_test, late_test, due_row, slot_row, written_at, written_end};

use super::metrics::MetricsCollector;
use super::node::Node;
use super::rows::Row;
use super::settings::Settings;
use super::{node, rows};
use graph::network::NetworkGraph;
use limits::refusals::Refusal;

// The positions, what is counted beside them, the present slot, the slot of the next row, and the bytes sent.
#[derive(Clone, Copy)]
pub struct Network {
    pub nodes: [Node; 64],
    pub metrics: MetricsCollector,
    pub slot: u64,
    pub next_row: u64,
    pub bytes_sent: u64,
}

// What no round changes: who hears whom, the settings, the interval of the rows, and the full length of a round.
#[derive(Clone, Copy)]
pub struct RoundConf {
    pub graph: NetworkGraph,
    pub settings: Settings,
    pub interval: u64,
    pub length: u64,
}

// A round of either kind behind a step, and how many slots it has left.
#[derive(Clone, Copy)]
pub struct Step<R> {
    pub run: R,
    pub left: u64,
}

// A round of either kind run to its end, or to the first word that it lacks, and how many rows are due by then.
#[derive(Clone, Copy)]
pub struct Survey<R> {
    pub run: R,
    pub due: u64,
}

impl Network {
    // As a room is opened: slot 0, and nothing counted.
    #[tactic(auto, unfolding(crate::specs::Network::new_network))]
    pub fn new() -> Network
        ensures { result ≡ new_network }
    {
        Network {
            nodes: [Node::new(); 64],
            metrics: MetricsCollector::new(),
            slot: 0,
            next_row: 0,
            bytes_sent: 0,
        }
    }
}

// The bytes of one transmission, by the length of its payload.
#[tactic(auto, unfolding(crate::specs::Network::on_air))]
pub fn on_air(len: u64) -> u64
    ensures { result ≡ on_air len }
{
    len.wrapping_add(limits::HEADER)
}

// A slot begins: every position is ticked in its state.
#[tactic(auto, unfolding(crate::specs::Network::ticking))]
pub fn tick(conf: RoundConf, w: Network) -> Network
    ensures { result ≡ ticking conf w }
{
    Network {
        nodes: node::tick_all(w.nodes, conf.graph.n),
        ..w
    }
}

// ---- refusals of a round

// The refusal that is known before a round runs: its full length would pass the last slot. A difference stands for
// the sum, which could wrap.
#[tactic(auto, unfolding(crate::specs::Network::length_test))]
pub fn check_length(conf: RoundConf, slot: u64) -> Result<(), Refusal>
    ensures { result ≡ length_test conf slot }
{
    if limits::LAST_SLOT < conf.length {
        return Err(Refusal::TooLong);
    }
    if limits::LAST_SLOT - conf.length < slot {
        return Err(Refusal::TooLong);
    }
    Ok(())
}

// Those that only its run tells: words ran short, or its rows do not fit.
#[tactic(auto, unfolding(crate::specs::Network::late_test))]
pub fn check_late(short: bool, due: u64, numbers: usize, used: usize) -> Result<(), Refusal>
    ensures { result ≡ late_test numbers used short due }
{
    if short {
        return Err(Refusal::WordsShort);
    }
    if rows::rows_refused(numbers, used, due as usize) {
        return Err(Refusal::RowsShort);
    }
    Ok(())
}

// ---- rows

// A row, if it is due and there is place for it behind the first `at` numbers; how many numbers are used then.
pub fn put_due(rows: &mut [u64], at: usize, slot: u64, r: Row) -> usize
    ensures value { result ≡ written_end (length rows.old) at (due_row slot r) }
    ensures rows_after { rows.new ≡ written_at rows.old at (due_row slot r) }
{
    if !rows::row_due(r.slot, slot) {
        return at;
    }
    if rows::is_full(rows.len(), at) {
        return at;
    }
    rows::put_row(&mut rows[at..], r);
    at + limits::ROW
}

// The row of the slot that begins, if one is due and there is place for it behind the first `at` numbers; how many
// numbers are used then. A row shows the positions ticked.
pub fn write_row(rows: &mut [u64], at: usize, conf: RoundConf, w: Network) -> usize
    ensures value { result ≡ written_end (length rows.old) at (slot_row conf w) }
    ensures rows_after { rows.new ≡ written_at rows.old at (slot_row conf w) }
{
    if !rows::row_due(w.next_row, w.slot) {
        return at;
    }
    let shown = node::tick_all(w.nodes, conf.graph.n);
    let r = rows::take_snapshot(w.next_row, shown, conf.graph.n);
    put_due(rows, at, w.slot, r)
}
