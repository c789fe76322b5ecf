// RULES 10.11. A pipeline room, and a call of one round of it, from sim/pipeline.rs: a round that is refused changes
// nothing.
ghost use Rattle.std.specs.Prelude.{◌≡◌, length};
ghost use Rattle.pipeline.specs.Round.{new_part, early_test, round_answer, round_buffer};

use super::round::RoundStart;
use super::two_pc_pipeline::{LogEntry, NodeTwoPcState, Outcome, Records, RoundPacket, TxLog, Txs};
use engines::network;
use engines::network::{Network, RoundConf};
use engines::words::Draw;
use limits::refusals::Refusal;

// What is fixed when a room is opened: what its rounds go by, the number of transactions, and the slot bound.
#[derive(Clone, Copy)]
pub struct PipelineConf {
    pub round: RoundConf,
    pub transactions: usize,
    pub bound: u64,
}

// What a pipeline room has of its own: the round number, whether it has stopped, what each position knows, the
// transactions generated, the outcome to be told besides, the records, and the packets held. A position holds one if
// its mark is in `holding`; C is given back also the packets that it lent at other places, so they are no Option.
// States and packets stand in two arrays, as C lends them: all states, and behind them all packets.
#[derive(Clone, Copy)]
pub struct PipelinePart {
    pub round: u64,
    pub stop: bool,
    pub states: [NodeTwoPcState; 64],
    pub txs: Txs,
    pub piggyback: Option<Outcome>,
    pub records: Records,
    pub payloads: [RoundPacket; 64],
    pub holding: u64,
}

// A round run to its end: the room, and the cursor.
#[derive(Clone, Copy)]
pub struct RoundRun {
    pub network: Network,
    pub part: PipelinePart,
    pub draw: Draw,
}

impl PipelinePart {
    // As a room is opened: logs empty, no transaction generated, and nobody holds a packet.
    #[tactic(auto, unfolding(crate::specs::Round::new_part))]
    pub fn new() -> PipelinePart
        ensures { result ≡ new_part }
    {
        let none = LogEntry {
            tx: 0,
            committed: false,
        };
        let log = TxLog {
            len: 0,
            entries: [none; 64],
        };
        let state = NodeTwoPcState {
            log,
            pending: 0,
            aborts: 0,
            votes: [0; 64],
        };
        let packet = RoundPacket {
            tx: 0,
            bits: 0,
            abort: false,
            nack: 0,
            fresh: false,
            sender: 0,
            piggyback: None,
        };
        PipelinePart {
            round: 0,
            stop: false,
            states: [state; 64],
            txs: Txs {
                counter: 0,
                starts: [0; 64],
                rounds: [0; 64],
            },
            piggyback: None,
            records: Records { log, ends: [0; 64] },
            payloads: [packet; 64],
            holding: 0,
        }
    }
}

// Refusals 2, 14 and 15, for which the round need not be run.
#[tactic(auto, unfolding(crate::specs::Round::early_test))]
pub fn check_early(conf: PipelineConf, slot: u64, stop: bool) -> Result<(), Refusal>
    ensures { result ≡ early_test conf slot stop }
{
    graph::network::check_size(conf.round.graph.n)?;
    if stop || conf.bound <= slot {
        return Err(Refusal::Stopped);
    }
    network::check_length(conf.round, slot)
}

// One pipeline round; a refused one changes nothing. It is run without its rows first, so that whether it is refused
// is known before any number that was lent is touched; and once more only if a row is due. (Words, cursor, rows and
// how many are used stand side by side, as C lends them: a struct of the four would be made at each call and taken
// apart here.)
pub fn pipeline_round(
    words: &[u64],
    cursor: &mut usize,
    rows: &mut [u64],
    used: &mut usize,
    conf: PipelineConf,
    w: &mut Network,
    p: &mut PipelinePart,
) -> Result<(), Refusal>
    ensures value { record { told = result; cursor = cursor.new; used = used.new; network = w.new; part = p.new } ≡ round_answer words.now (length rows.old) used.old conf w.old p.old cursor.old }
    ensures rows_after { rows.new ≡ round_buffer words.now rows.old used.old conf w.old p.old cursor.old }
{
    check_early(conf, w.slot, p.stop)?;
    let start = RoundStart {
        words,
        conf,
        network: *w,
        part: *p,
        draw: Draw {
            at: *cursor,
            short: false,
        },
    };
    let x = start.run();
    let run = x.run;
    network::check_late(run.draw.short, x.due, rows.len(), *used)?;
    let due = x.due as usize;
    start.write_due(rows, *used, due);
    *cursor = run.draw.at;
    *used += due;
    *w = run.network;
    *p = run.part;
    Ok(())
}
