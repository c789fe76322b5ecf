// RULES none. Plays pipeline rooms and prints how they end; the file `stdout` holds what the Rust says of the same
// rooms. A line asks, by numbers in decimal with single blanks between them: topology, positions, argument,
// transactions, repeats, whether the slots are given, slots, loss (over, under, turned round), abort probability (the
// same), interval of the rows, slot bound, seed of the words, words, cursor, numbers in the row buffer, rows used,
// rounds at most.
// The answer: the last round's refusal, rounds, slot, bytes sent, cursor, stopped, listening, flooding and sleeping in
// all, nacks, piggybacks, frames tried and received, covered, one number that depends on all positions, logs, pending
// votes, records and rows, and, for up to 4 positions, each log: how many entries, and each. An entry is its
// transaction, and 256 more if it was committed. A topology that is refused is answered by the refusal alone.
// A line may have any bytes: how numbers are read of it case_lines says, and those that are missing are 0. Where it
// asks for more words or a larger row buffer than there are, the room is opened, and no round is played.
#![tactic(auto)]

use case_lines::Answers;
use engines::network::{Network, RoundConf};
use engines::node::Node;
use engines::settings::Settings;
use engines_c::numbers;
use graph::network::NetworkGraph;
use graph::sets;
use limits::refusals;
use limits::refusals::Refusal;
use pipeline::pipeline::{PipelineConf, PipelinePart};
use pipeline::two_pc_pipeline::{NodeTwoPcState, Records, TxLog, Txs};
use pipeline_c::rounds::Played;
use pipeline_c::{console, rounds};
use std::alloc::{AllocError, Global};
use std::{io, iter};

// The numbers that are read of a line.
const NUMBERS: usize = 21;

// The most words and numbers of rows that a room can be lent.
const MOST_WORDS: u64 = 4096;

const MOST_ROW_NUMBERS: u64 = 2500;

// The factor of the random words, and of the number that depends on all.
const FACTOR: u64 = 6364136223846793005;

// ---- a question

// A share as over, under and whether it is turned round, as -1/3 is.
fn share([over, under, turned]: [u64; 3]) -> f64 {
    let x = std::num::nearest_u64_to_f64(over) / std::num::nearest_u64_to_f64(under);
    if turned == 1 { -x } else { x }
}

// So many random words.
fn words_of(alloc: Global, seed: u64, count: u64) -> Result<Vec<u64>, AllocError> {
    let next = |w: u64| w.wrapping_mul(FACTOR).wrapping_add(1442695040888963407);
    iter::successors(Some(next(seed)), |w| Some(next(*w)))
        .take(count as usize)
        .collect(alloc)
}

// The room that a question asks for, and what its rounds are lent.
#[derive(Clone, Copy)]
struct Asked {
    topology: u64,
    n: u64,
    argument: u64,
    transactions: u64,
    repeats: u64,
    given: bool,
    slots: u64,
    loss_rate: f64,
    abort_probability: f64,
    interval: u64,
    bound: u64,
    seed: u64,
    words: u64,
    cursor: u64,
    numbers: u64,
    used: u64,
    most: u64,
}

impl Asked {
    fn from_numbers(question: [u64; NUMBERS]) -> Asked {
        let [
            topology,
            n,
            argument,
            transactions,
            repeats,
            given,
            slots,
            loss_over,
            loss_under,
            loss_turned,
            abort_over,
            abort_under,
            abort_turned,
            interval,
            bound,
            seed,
            words,
            cursor,
            numbers,
            used,
            most,
        ] = question;
        Asked {
            topology,
            n,
            argument,
            transactions,
            repeats,
            given: given != 0,
            slots,
            loss_rate: share([loss_over, loss_under, loss_turned]),
            abort_probability: share([abort_over, abort_under, abort_turned]),
            interval,
            bound,
            seed,
            words,
            cursor,
            numbers,
            used,
            most,
        }
    }

    fn graph(&self) -> Result<NetworkGraph, Refusal> {
        NetworkGraph::from_topology(self.topology, self.n as usize, self.argument as usize)
    }

    // Nobody has played yet, but words and rows may have been used before.
    fn opened(&self) -> Played {
        Played {
            cursor: self.cursor as usize,
            used: self.used as usize,
            count: 0,
            network: Network::new(),
            part: PipelinePart::new(),
        }
    }

    fn conf(&self, graph: NetworkGraph) -> PipelineConf {
        let repeats = (self.repeats % 4294967296) as u32;
        let diameter = graph.diameter().unwrap_or(0);
        let settings = Settings {
            loss_rate: self.loss_rate,
            abort_probability: self.abort_probability,
            seed: 0,
            listen_timeout: 0,
            flood_repeats: repeats,
            round_slots: 0,
            slots_given: false,
        };
        PipelineConf {
            round: RoundConf {
                graph,
                settings,
                interval: self.interval,
                length: flood::flood::flood_length(self.given, self.slots, diameter, repeats),
            },
            transactions: self.transactions as usize,
            bound: self.bound,
        }
    }
}

// ---- one number for all that a room holds

#[derive(Clone, Copy)]
struct Digest(u64);

impl Digest {
    fn feed(&mut self, x: u64) {
        self.0 = self.0.wrapping_mul(FACTOR).wrapping_add(x).wrapping_add(1);
    }

    fn feed_all(&mut self, xs: &[u64]) {
        for x in xs {
            self.feed(*x);
        }
    }

    fn feed_log(&mut self, log: &TxLog) {
        self.feed(log.len as u64);
        for entry in log.entries.iter().take(log.len) {
            self.feed(console::entry_number(*entry));
        }
    }

    fn feed_pending(&mut self, state: &NodeTwoPcState) {
        for (tx, votes) in state.votes.iter().enumerate() {
            if sets::is_marked(state.pending, tx) {
                self.feed_all(&[tx as u64, *votes, sets::is_marked(state.aborts, tx) as u64]);
            }
        }
    }

    fn feed_records(&mut self, records: &Records, txs: &Txs) {
        for entry in records.log.entries.iter().take(records.log.len) {
            let tx = entry.tx as usize;
            if let (Some(start), Some(end)) = (txs.starts.get(tx), records.ends.get(tx)) {
                self.feed_all(&[console::entry_number(*entry), *start, *end]);
            }
        }
    }
}

// Of the first n positions, what was recorded, and the rows that the call used. (Rows and how many were used before
// stand side by side, since a line of input names both: a struct of the two would be made for this one call.)
fn digest_of(played: &Played, n: usize, rows: &[u64], used: usize) -> u64 {
    let mut digest = Digest(0);
    let nodes = played.network.nodes.iter();
    for (node, state) in nodes.zip(played.part.states.iter()).take(n) {
        digest.feed_all(&numbers::node_numbers(*node));
        digest.feed_log(&state.log);
        digest.feed_pending(state);
    }
    digest.feed_records(&played.part.records, &played.part.txs);
    for row in rows.chunks(limits::ROW).take(played.used).skip(used) {
        digest.feed_all(row);
    }
    digest.0
}

// ---- sums and logs

// How long positions listened, flooded and slept.
#[derive(Clone, Copy)]
struct Sums {
    listen: u64,
    flood: u64,
    sleep: u64,
}

impl Sums {
    fn with(self, v: &Node) -> Sums {
        Sums {
            listen: self.listen.wrapping_add(v.slots_listen),
            flood: self.flood.wrapping_add(v.slots_flood),
            sleep: self.sleep.wrapping_add(v.slots_sleep),
        }
    }
}

fn sum_up(nodes: &[Node], n: usize) -> Sums {
    let none = Sums {
        listen: 0,
        flood: 0,
        sleep: 0,
    };
    nodes.iter().take(n).fold(none, |sums, v| sums.with(v))
}

fn say_counts(rt: &impl Print, refusal: u64, t: &Played, n: usize) -> io::Result<()> {
    let m = t.network.metrics;
    let s = sum_up(&t.network.nodes, n);
    let told = [
        m.flood_rounds,
        t.network.slot,
        t.network.bytes_sent,
        t.cursor as u64,
        t.part.stop as u64,
        s.listen,
        s.flood,
        s.sleep,
        m.nacks_sent,
        m.piggybacks_sent,
        m.rx_attempts,
        m.rx_success,
        m.flood_nodes_covered,
    ];
    print!(rt; "{refusal}")?;
    for x in told {
        print!(rt; " {x}")?;
    }
    Ok(())
}

fn say_log(rt: &impl Print, log: &TxLog) -> io::Result<()> {
    print!(rt; " {}", log.len)?;
    for entry in log.entries.iter().take(log.len) {
        print!(rt; " {}", console::entry_number(*entry))?;
    }
    Ok(())
}

fn say_logs(rt: &impl Print, states: &[NodeTwoPcState], n: usize) -> io::Result<()> {
    if n <= 4 {
        for state in states.iter().take(n) {
            say_log(rt, &state.log)?;
        }
    }
    println!(rt)
}

// ---- a line

fn play(rt: &(impl Print + AllocGlobal), graph: NetworkGraph, asked: Asked) -> io::Result<()> {
    let words = words_of(rt.alloc(), asked.seed, asked.words.min(MOST_WORDS))?;
    let mut rows = vec![in rt.alloc(); 0; asked.numbers.min(MOST_ROW_NUMBERS) as usize]?;
    let mut played = asked.opened();
    let told = if asked.words <= MOST_WORDS && asked.numbers <= MOST_ROW_NUMBERS {
        let conf = asked.conf(graph);
        rounds::play_rounds(&words, &mut rows, conf, &mut played, asked.most)
    } else {
        Ok(())
    };
    say_counts(rt, refusals::answer(told), &played, graph.n)?;
    print!(rt;
        " {}",
        digest_of(&played, graph.n, &rows, asked.used as usize)
    )?;
    say_logs(rt, &played.part.states, graph.n)
}

fn answer(rt: &(impl Print + AllocGlobal), question: [u64; NUMBERS]) -> io::Result<()> {
    let asked = Asked::from_numbers(question);
    match asked.graph() {
        Ok(graph) => play(rt, graph, asked),
        Err(refusal) => println!(rt; "{}", u64::from(refusal)),
    }
}

// Who answers, and where to.
#[derive(Clone, Copy)]
struct Desk<'a>(&'a HostRuntime);

impl Answers for Desk<'_> {
    fn answer(&mut self, question: &[u64]) -> io::Result<()> {
        answer(self.0, case_lines::padded(question))
    }
}

fn main(rt: HostRuntime) -> io::Result<()> {
    case_lines::answer_input(&rt, NUMBERS, &mut Desk(&rt))
}
