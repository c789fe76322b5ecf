// RULES 10.2 and 10.4. One round of a pipeline room, from sim/pipeline.rs: prepare, flood, process.
ghost use Rattle.std.specs.Prelude.{◌≡◌, ◌+◌, ◌*◌, ◌<◌, ◌≤◌, length, nat_lt};
ghost use Rattle.std.proofs.lemmas.List.Edits.{sets};
ghost use mir.Val.{bool_byte};
ghost use Rattle.loops.specs.Pick.{either};
ghost use Rattle.limits.specs.Limits.{row_cells};
ghost use Rattle.engines.specs.Nodes.{inc};
ghost use Rattle.engines.specs.Rounds.{placed};
ghost use Rattle.pipeline.specs.Round.{deliver_all, covered_of, facts_of, initiator_of, preparing, bytes_of, flood_from, counted_in, processing, close_round, RoundSurveyed, rows_of_round};

use super::pending::Voter;
use super::pipeline::{PipelineConf, PipelinePart, RoundRun};
use super::prepare::Prepared;
use super::process::{AllProcessed, Carried, Hearing, RoundFacts};
use super::two_pc_pipeline::RoundPacket;
use super::{packet, pending, prepare, process};
use engines::metrics::MetricsCollector;
use engines::network::Network;
use engines::node;
use engines::words::Draw;
use flood::flood::FloodRun;
use graph::sets;
use packets::two_pc_pipeline;

// A round before it is run: the words that it draws from, the room, and the cursor.
#[derive(Clone, Copy)]
pub struct RoundStart<'a> {
    pub words: &'a [u64],
    pub conf: PipelineConf,
    pub network: Network,
    pub part: PipelinePart,
    pub draw: Draw,
    ghost has_positions: { (0 < conf.round.graph.n) × (conf.round.graph.n ≤ 64) },
}

// A round run to its end, and how many rows are due.
#[derive(Clone, Copy)]
pub struct RoundSurvey {
    pub run: RoundRun,
    pub due: u64,
}

// Whoever takes part holds the packet from now on.
fn deliver_all(payloads: [RoundPacket; 64], q: RoundPacket, parts: u64) -> [RoundPacket; 64]
    ensures { result ≡ deliver_all q parts payloads }
{
    let mut ps = payloads;
    for i in sets::iter(parts) {
        ps[i] = q;
    }
    ps
}

// How many of the first n hold this packet.
#[tactic(auto, using(crate::proofs::Turns::turns), unfolding(crate::specs::Round::covered_of))]
fn count_covered(q: RoundPacket, n: usize, holding: u64, payloads: [RoundPacket; 64]) -> u64
    ensures { result ≡ covered_of q n holding payloads }
{
    let mut covered: u64 = 0;
    for i in 0..n.min(limits::POSITIONS) {
        if sets::is_marked(holding, i) && payloads[i] == q {
            covered = covered.wrapping_add(1);
        }
    }
    covered
}

// The length of the text that every flooder sends.
#[tactic(auto, unfolding(crate::specs::Round::bytes_of))]
fn packet_bytes(conf: PipelineConf, q: RoundPacket) -> u64
    ensures { result ≡ bytes_of conf q }
{
    let full = packet::full_packet(conf.round.graph.n, q);
    two_pc_pipeline::pipeline_text_len(full) as u64
}

// The flood before its first slot.
#[tactic(auto, unfolding(crate::specs::Round::flood_from))]
fn flood_from(conf: PipelineConf, w: Network, i: usize, d: Draw) -> FloodRun
    ensures { result ≡ flood_from conf w i d }
{
    let repeats = conf.round.settings.flood_repeats;
    FloodRun {
        network: Network {
            nodes: flood::flood::start_flood(w.nodes, conf.round.graph.n, i, repeats),
            ..w
        },
        draw: d,
        over: false,
    }
}

// A round's counts, but for the frames, which the flood has counted.
fn count_round(
    m: MetricsCollector,
    nack: usize,
    answers: u64,
    n: usize,
    covered: u64,
) -> MetricsCollector
    ensures { result ≡ counted_in m (bool_byte (nat_lt 0 nack)) answers n covered }
{
    MetricsCollector {
        nacks_sent: m.nacks_sent.wrapping_add((0 < nack) as u64),
        piggybacks_sent: m.piggybacks_sent.wrapping_add(answers),
        flood_rounds: m.flood_rounds.wrapping_add(1),
        flood_nodes_total: m.flood_nodes_total.wrapping_add(n as u64),
        flood_nodes_covered: m.flood_nodes_covered.wrapping_add(covered),
        ..m
    }
}

// The round number rises by one, unless the room stops.
fn next_round(stop: bool, round: u64) -> u64
    ensures { result ≡ either stop round (inc round) }
{
    if stop { round } else { round.wrapping_add(1) }
}

impl RoundStart<'_> {
    // The positions take turns.
    #[tactic(auto, unfolding(crate::specs::Round::initiator_of))]
    fn initiator(&self) -> usize
        ensures { (result ≡ initiator_of self.now.conf self.now.part) × (result < 64) }
    {
        (self.part.round % (self.conf.round.graph.n as u64)) as usize
    }

    fn facts(&self, slot: u64) -> RoundFacts
        ensures { result ≡ facts_of self.now.conf self.now.part slot }
    {
        RoundFacts {
            n: self.conf.round.graph.n,
            round: self.part.round,
            slot,
        }
    }

    // What the initiator does before the flood.
    #[tactic(auto, unfolding(crate::specs::Round::preparing))]
    fn prepare(&self) -> Prepared
        ensures { result ≡ preparing self.now.words.now self.now.conf self.now.network.slot self.now.part (initiator_of self.now.conf self.now.part) self.now.draw }
    {
        let i = self.initiator();
        let voter = Voter {
            words: self.words,
            abort_probability: self.conf.round.settings.abort_probability,
            position: i,
        };
        prepare::prepare_round(
            &voter,
            self.facts(self.network.slot),
            self.conf.transactions,
            self.part.txs,
            self.part.records,
            self.part.piggyback,
            self.part.states[i],
            self.draw,
        )
    }

    // Whoever takes part processes the packet; the initiator's own state is as it was prepared.
    #[tactic(auto, unfolding(crate::specs::Round::processing))]
    fn process(&self, prep: Prepared, f: FloodRun, parts: u64) -> AllProcessed
        ensures { result ≡ processing self.now.words.now self.now.conf self.now.part (initiator_of self.now.conf self.now.part) prep f parts }
    {
        let mut states = self.part.states;
        states[self.initiator()] = prep.state;
        let start = Carried {
            draw: f.draw,
            records: prep.records,
            piggyback: None,
            answers: 0,
        };
        let hearing = Hearing {
            words: self.words,
            abort_probability: self.conf.round.settings.abort_probability,
            facts: self.facts(f.network.slot),
            rounds: &prep.txs.rounds,
            packet: prep.packet,
        };
        hearing.process_all(parts, states, start)
    }

    // Behind the flood: the packet is delivered, whoever takes part processes it, and the room sees how far everybody
    // is.
    fn close(&self, prep: Prepared, f: FloodRun) -> RoundRun
        ensures { result ≡ close_round self.now.words.now self.now.conf self.now.part (initiator_of self.now.conf self.now.part) prep f }
    {
        let conf = self.conf;
        let n = conf.round.graph.n;
        let w = f.network;
        let s = node::state_sets(w.nodes, n);
        let parts = process::parts(n, self.initiator(), s.sleeping);
        let q = prep.packet;
        let payloads = deliver_all(self.part.payloads, q, parts);
        let holding = pending::join(self.part.holding, parts);
        let covered = count_covered(q, n, holding, payloads);
        let g = self.process(prep, f, parts);
        let states = g.states;
        let done = process::shortest_log(states, n);
        let stop = process::stops(conf.transactions, done, prep.txs.counter, self.part.round);
        let nodes = process::progress_all(w.nodes, n, conf.transactions, done, states);
        let metrics = count_round(w.metrics, q.nack, g.carried.answers, n, covered);
        let round = next_round(stop, self.part.round);
        let part = PipelinePart {
            round,
            stop,
            states,
            txs: prep.txs,
            piggyback: g.carried.piggyback,
            records: g.carried.records,
            payloads,
            holding,
        };
        RoundRun {
            network: Network {
                nodes,
                metrics,
                ..w
            },
            part,
            draw: g.carried.draw,
        }
    }

    // The round as it ends, without its rows. One that lacks words is refused, so it is not closed. (No Result or
    // Option: refusals 16 and 17 are told by one test, which both kinds of rounds share, and which asks whether words
    // ran short.)
    pub fn run(&self) -> RoundSurvey
        ensures { RoundSurveyed self.now.words.now self.now.conf self.now.network self.now.part self.now.draw result.run result.due }
    {
        let prep = self.prepare();
        let bytes = packet_bytes(self.conf, prep.packet);
        let start = flood_from(self.conf, self.network, self.initiator(), prep.draw);
        match flood::flood::flood_identical_round(self.words, self.conf.round, bytes, start) {
            Some(f) => RoundSurvey {
                run: self.close(prep, f.run),
                due: f.due,
            },
            None => RoundSurvey {
                run: RoundRun {
                    network: self.network,
                    part: self.part,
                    draw: Draw {
                        at: self.draw.at,
                        short: true,
                    },
                },
                due: 0,
            },
        }
    }

    // The rows of that round, behind those used. It takes the same draws once more, up to the end of the flood.
    fn write(&self, part: &mut [u64])
        ensures { part.new ≡ placed part.old 0 (rows_of_round self.now.words.now self.now.conf self.now.network self.now.part self.now.draw) }
    {
        let prep = self.prepare();
        let bytes = packet_bytes(self.conf, prep.packet);
        let start = flood_from(self.conf, self.network, self.initiator(), prep.draw);
        flood::flood::write_rows(self.words, self.conf.round, bytes, part, start);
    }

    // The rows of an accepted round, if any is due; that they fit is what the round has just tested. (A struct of the
    // buffer and how much of it is used would be made for this one call, which no other function follows.)
    pub(crate) fn write_due(&self, rows: &mut [u64], used: usize, due: usize)
        requires are_due { due * row_cells ≡ length (rows_of_round self.now.words.now self.now.conf self.now.network self.now.part self.now.draw) }
        requires fit { (used + due) * row_cells ≤ length rows.old }
        ensures { rows.new ≡ sets rows.old (used * row_cells) (rows_of_round self.now.words.now self.now.conf self.now.network self.now.part self.now.draw) }
    {
        if due == 0 {
            return;
        }
        let from = used * limits::ROW;
        let to = (used + due) * limits::ROW;
        self.write(&mut rows[from..to]);
    }
}
