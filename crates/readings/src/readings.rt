// RULES 12. The readings of a room: what the Rust's state has, or why it is refused: there is no such position, the
// room is of the other kind, nobody has proposed, or a text does not fit. A reading changes no room.
ghost use Rattle.std.specs.Prelude.{◌≡◌, ◌<◌};
ghost use Rattle.engines.specs.Metrics.{link_pdr_of, flood_coverage_of};
ghost use Rattle.readings.specs.Readings.{term_of, round_of, stopped_of, proposer_of, initiator_now, outcome_read, node_of, of_pipeline, state_at, log_len_of, entry_of, log_entry_of, pending_in, pending_of, record_in, record_of, ce_answer, ce_left, pipe_answer_of, pipe_left, text_of, text_left};

use engines::metrics::MetricsCollector;
use engines::node::Node;
use engines::settings::Settings;
use graph::network::{check_position, check_size};
use graph::sets;
use limits::refusals::Refusal;
use merges::merging;
use merges::merging::{Held, Payload, ProposalOutcome};
use packets::{Data, two_pc_ce, two_pc_pipeline};
use pipeline::packet;
use pipeline::pipeline::PipelinePart;
use pipeline::two_pc_pipeline::{LogEntry, NodeTwoPcState, RoundPacket, TxLog};
use room::room::{Room, RoomKind};

// What is held of a transaction for a position: whether it is pending, whether an abort is known of it, who has said
// yes, the round of its start, and its data if it is pending. If it is not, the round is the room's all the same, and
// abort and votes are as they were last; C is told all of them, and data of no bytes.
#[derive(Clone, Copy)]
pub struct PendingReading {
    pub pending: bool,
    pub abort: bool,
    pub votes: u64,
    pub start: u64,
    pub data: Data,
}

// The record at a place, if there is one: the transaction with its outcome, and the slots at which it was generated and
// recorded. The slots stand beside the Option, because C is told those of transaction 0 where there is no record.
#[derive(Clone, Copy)]
pub struct RecordReading {
    pub entry: Option<LogEntry>,
    pub start: u64,
    pub end: u64,
}

// ---- of the room

pub fn kind(r: &Room) -> RoomKind
    ensures { result ≡ r.now.conf.kind }
{
    r.conf.kind
}

pub fn num_nodes(r: &Room) -> usize
    ensures { result ≡ r.now.conf.round.graph.n }
{
    r.conf.round.graph.n
}

pub fn settings(r: &Room) -> Settings
    ensures { result ≡ r.now.conf.round.settings }
{
    r.conf.round.settings
}

pub fn slot(r: &Room) -> u64
    ensures { result ≡ r.now.network.slot }
{
    r.network.slot
}

pub fn next_row(r: &Room) -> u64
    ensures { result ≡ r.now.network.next_row }
{
    r.network.next_row
}

pub fn bytes_sent(r: &Room) -> u64
    ensures { result ≡ r.now.network.bytes_sent }
{
    r.network.bytes_sent
}

pub fn metrics(r: &Room) -> MetricsCollector
    ensures { result ≡ r.now.network.metrics }
{
    r.network.metrics
}

pub fn link_pdr(r: &Room) -> Option<f64>
    ensures { result ≡ link_pdr_of r.now.network.metrics }
{
    r.network.metrics.link_pdr()
}

pub fn flood_coverage(r: &Room) -> Option<f64>
    ensures { result ≡ flood_coverage_of r.now.network.metrics }
{
    r.network.metrics.flood_coverage()
}

// The next two differ in their test and in their field, which is all that they have: one for both would take closures
// for these, and be longer.
pub fn term(r: &Room) -> Result<u64, Refusal>
    ensures { result ≡ term_of r.now }
{
    r.conf.kind.check(RoomKind::Capture)?;
    Ok(r.capture.term)
}

pub fn round(r: &Room) -> Result<u64, Refusal>
    ensures { result ≡ round_of r.now }
{
    r.conf.kind.check(RoomKind::Pipeline)?;
    Ok(r.pipeline.round)
}

// 1 once a pipeline room has stopped.
pub fn stopped(r: &Room) -> Result<u64, Refusal>
    ensures { result ≡ stopped_of r.now }
{
    r.conf.kind.check(RoomKind::Pipeline)?;
    Ok(u64::from(r.pipeline.stop))
}

// Who proposed last, if anybody has.
fn proposer(initiator: Option<usize>) -> Result<u64, Refusal>
    ensures { result ≡ proposer_of initiator }
{
    initiator.map(|v| v as u64).ok_or(Refusal::NoProposal)
}

// Who floods first in a round of n positions: in a capture room who proposed last, in a pipeline room the positions
// take turns.
#[tactic(auto, using(graph::proofs::Rules::size_parts), unfolding(crate::specs::Readings::initiator_now))]
pub fn initiator(r: &Room) -> Result<u64, Refusal>
    ensures { result ≡ initiator_now r.now }
{
    let n = r.conf.round.graph.n;
    check_size(n)?;
    match r.conf.kind {
        RoomKind::Pipeline => Ok(r.pipeline.round % (n as u64)),
        RoomKind::Capture => proposer(r.capture.initiator),
    }
}

// Aborted if anybody holds it, Committed if everybody does; all else is undecided.
pub fn proposal_outcome(r: &Room) -> Result<ProposalOutcome, Refusal>
    ensures { result ≡ outcome_read r.now }
{
    let n = r.conf.round.graph.n;
    check_size(n)?;
    r.conf.kind.check(RoomKind::Capture)?;
    Ok(merging::proposal_outcome(r.capture.held, n))
}

// ---- of a position

// State, counts, last progress, goal flag and progress.
#[tactic(auto, using(room::proofs::Answers::place_below))]
pub fn node(r: &Room, v: usize) -> Result<Node, Refusal>
    ensures { result ≡ node_of r.now v }
{
    check_position(r.conf.round.graph.n, v)?;
    Ok(r.network.nodes[v])
}

// What is asked of a position of a pipeline room.
#[tactic(auto, unfolding(crate::specs::Readings::of_pipeline))]
fn check_part(r: &Room, v: usize) -> Result<(), Refusal>
    ensures { result ≡ of_pipeline r.now v }
{
    check_position(r.conf.round.graph.n, v)?;
    r.conf.kind.check(RoomKind::Pipeline)
}

#[tactic(auto, using(crate::proofs::Answers::part_below))]
pub fn log_len(r: &Room, v: usize) -> Result<u64, Refusal>
    ensures { result ≡ log_len_of r.now v }
{
    check_part(r, v)?;
    Ok(r.pipeline.states[v].log.len as u64)
}

// Entry k of a log.
#[tactic(auto, unfolding(crate::specs::Readings::entry_of))]
fn entry(log: &TxLog, k: usize) -> Option<LogEntry>
    ensures { result ≡ entry_of log.now k }
{
    if k >= log.len {
        return None;
    }
    log.entries.get(k).copied()
}

// Entry k of a position's log, if there is one.
#[tactic(auto, using(crate::proofs::Answers::part_below))]
pub fn log_entry(r: &Room, v: usize, k: usize) -> Result<Option<LogEntry>, Refusal>
    ensures { result ≡ log_entry_of r.now v k }
{
    check_part(r, v)?;
    Ok(entry(&r.pipeline.states[v].log, k))
}

#[tactic(auto, unfolding(crate::specs::Readings::pending_in))]
fn pending_in(x: &PipelinePart, s: &NodeTwoPcState, t: usize) -> PendingReading
    ensures { result ≡ pending_in x.now s.now t }
{
    let pending = sets::is_marked(s.pending, t);
    PendingReading {
        pending,
        abort: sets::is_marked(s.aborts, t),
        votes: s.votes.get(t).copied().unwrap_or(0),
        start: x.txs.rounds.get(t).copied().unwrap_or(0),
        data: packet::data(pending, t),
    }
}

// What is held of transaction t for position v.
#[tactic(auto, using(crate::proofs::Answers::part_below))]
pub fn pending(r: &Room, v: usize, t: usize) -> Result<PendingReading, Refusal>
    ensures { result ≡ pending_of r.now v t }
{
    check_part(r, v)?;
    Ok(pending_in(&r.pipeline, &r.pipeline.states[v], t))
}

#[tactic(auto, unfolding(crate::specs::Readings::record_in))]
fn record_in(x: &PipelinePart, k: usize) -> RecordReading
    ensures { result ≡ record_in x.now k }
{
    let entry = entry(&x.records.log, k);
    let tx = entry.map_or(0, |e| usize::from(e.tx));
    RecordReading {
        entry,
        start: x.txs.starts.get(tx).copied().unwrap_or(0),
        end: x.records.ends.get(tx).copied().unwrap_or(0),
    }
}

// The record at place k of a pipeline room's records.
pub fn record(r: &Room, k: usize) -> Result<RecordReading, Refusal>
    ensures { result ≡ record_of r.now k }
{
    r.conf.kind.check(RoomKind::Pipeline)?;
    Ok(record_in(&r.pipeline, k))
}

// ---- texts

fn capture_text(l: Payload, out: &mut [u8]) -> Result<usize, Refusal>
    ensures value { result ≡ ce_answer l out.old }
    ensures out_after { out.new ≡ ce_left l out.old }
{
    match l.held {
        Held::Empty | Held::Unreadable => Ok(0),
        Held::Packet => two_pc_ce::write_ce_packet(out, 0, l.packet),
    }
}

// (Whether a packet is held stands beside it, as in the room's part.)
#[tactic(auto, unfolding(crate::specs::Readings::pipe_answer_of, crate::specs::Readings::pipe_left))]
fn pipeline_text(n: usize, holds: bool, q: RoundPacket, out: &mut [u8]) -> Result<usize, Refusal>
    ensures value { result ≡ pipe_answer_of n holds q out.old }
    ensures out_after { out.new ≡ pipe_left n holds q out.old }
{
    if !holds {
        return Ok(0);
    }
    two_pc_pipeline::write_pipeline_packet(out, 0, packet::full_packet(n, q))
}

// The text of what position v holds, written to the start of the buffer, and how long it is; NoFit if it does not fit,
// and then the buffer is as it was. Who holds nothing has a text of no bytes.
#[tactic(auto, using(room::proofs::Answers::place_below))]
pub fn packet_text(r: &Room, v: usize, out: &mut [u8]) -> Result<usize, Refusal>
    ensures value { result ≡ text_of r.now v out.old }
    ensures out_after { out.new ≡ text_left r.now v out.old }
{
    let n = r.conf.round.graph.n;
    check_position(n, v)?;
    match r.conf.kind {
        RoomKind::Pipeline => {
            let holds = sets::is_marked(r.pipeline.holding, v);
            pipeline_text(n, holds, r.pipeline.payloads[v], out)
        }
        RoomKind::Capture => capture_text(r.capture.held[v], out),
    }
}
