// RULES 17. The entries for differential runs: a room goes over as a lent list of numbers. What stands where:
//   0 slot, next row slot, round, bytes sent, stopped, rows used, cursor     7 the counts of the room, 8 numbers
//   15 the piggyback: whether there is one, its transaction, its outcome     18 who holds a packet, a mark each
//   19 transactions generated, from 20 on the slot and from 84 on the round in which each was
//   148 the records: how many, then each; from 213 on the slot of each transaction's
//   277 the nodes, 8 numbers each
//   789 what the positions know, 131 numbers each: entries of the log, the entries, pending, aborts, the votes on
//       each transaction
//   9173 the packets that they hold, 9 numbers each; 9749 in all
// A place past the end of the list reads as 0, and nothing is put there. An entry of a log is its transaction, and 256
// more if it was committed.
ghost use Rattle.std.specs.Prelude.{◌≡◌, [], ◌∷◌, ◌+◌, ◌*◌, ◌<◌, ◌≤◌, slice_index};
ghost use Rattle.std.proofs.lemmas.List.Edits.{sets};
ghost use Rattle.limits.specs.Refusals.{answer_of};
ghost use Rattle.engines_c.specs.Numbers.{truth};
ghost use Rattle.flood.specs.Flood.{flood_length};
ghost use Rattle.pipeline_c.specs.Play.{play_rounds};
ghost use Rattle.pipeline_c.specs.Console.{entry_numbered, entry_number, log_at, log_numbers, put_log, state_at, states_at, put_state, put_states, piggyback_numbered, piggyback_there, piggyback_number, piggyback_outcome, packet_at, packets_at, packet_numbers, put_packets, txs_at, records_at, part_at, played_at, playing_at, clock_numbers, head_numbers, put_head, put_txs, put_part, put_played, conf_by, left_in, opened};

use super::rounds;
use super::rounds::Played;
use engines::network::{Network, RoundConf};
use engines::settings::Settings;
use engines_c::numbers;
use graph::network::NetworkGraph;
use limits::refusals;
use pipeline::pipeline::{PipelineConf, PipelinePart};
use pipeline::two_pc_pipeline::{
    LogEntry, NodeTwoPcState, Outcome, Records, RoundPacket, TxLog, Txs,
};
use std::array;

// ---- from numbers

// (No From: two facts in one number are this list's way, and no reading of a LogEntry elsewhere.)
fn entry_numbered(k: u64) -> LogEntry
    ensures { result ≡ entry_numbered k }
{
    LogEntry {
        tx: (k % 256) as u8,
        committed: 255 < k,
    }
}

// The log that starts at a place. (List and place are passed on as in engines_c src/numbers.rt.)
fn log_of(xs: &[u64], at: usize) -> TxLog
    ensures { result ≡ log_at xs.now at }
{
    TxLog {
        len: numbers::number(xs, at) as usize,
        entries: array::from_fn(|i| entry_numbered(numbers::number_behind(xs, at, 1 + i))),
    }
}

// (The bound keeps at + 67 from wrapping; why it is no sum that stops at the top, engines_c src/numbers.rt says.)
#[tactic(auto, unfolding(crate::specs::Console::state_at))]
fn state_of(xs: &[u64], at: usize) -> NodeTwoPcState
    requires { at ≤ 9900 }
    ensures { result ≡ state_at xs.now at }
{
    NodeTwoPcState {
        log: log_of(xs, at),
        pending: numbers::number_behind(xs, at, 65),
        aborts: numbers::number_behind(xs, at, 66),
        votes: numbers::words_of(xs, at + 67),
    }
}

fn states_of(xs: &[u64]) -> [NodeTwoPcState; 64]
    ensures { result ≡ states_at xs.now }
{
    array::from_fn(|i| state_of(xs, 789 + i * 131))
}

// (No From: three numbers of the list say it together.)
fn piggyback_numbered(there: u64, tx: u64, outcome: u64) -> Option<Outcome>
    ensures { result ≡ piggyback_numbered there tx outcome }
{
    if there == 0 {
        return None;
    }
    Some(Outcome {
        tx: tx as usize,
        committed: outcome != 0,
    })
}

#[tactic(auto, unfolding(crate::specs::Console::packet_at))]
fn packet_of(xs: &[u64], at: usize) -> RoundPacket
    ensures { result ≡ packet_at xs.now at }
{
    let there = numbers::number_behind(xs, at, 6);
    let tx = numbers::number_behind(xs, at, 7);
    let outcome = numbers::number_behind(xs, at, 8);
    RoundPacket {
        tx: numbers::number(xs, at) as usize,
        bits: numbers::number_behind(xs, at, 1),
        abort: numbers::number_behind(xs, at, 2) != 0,
        nack: numbers::number_behind(xs, at, 3) as usize,
        fresh: numbers::number_behind(xs, at, 4) != 0,
        sender: numbers::number_behind(xs, at, 5) as usize,
        piggyback: piggyback_numbered(there, tx, outcome),
    }
}

fn packets_of(xs: &[u64]) -> [RoundPacket; 64]
    ensures { result ≡ packets_at xs.now }
{
    array::from_fn(|i| packet_of(xs, 9173 + i * 9))
}

#[tactic(auto, unfolding(crate::specs::Console::txs_at))]
fn txs_of(xs: &[u64]) -> Txs
    ensures { result ≡ txs_at xs.now }
{
    Txs {
        counter: numbers::number(xs, 19) as usize,
        starts: numbers::words_of(xs, 20),
        rounds: numbers::words_of(xs, 84),
    }
}

#[tactic(auto, unfolding(crate::specs::Console::records_at))]
fn records_of(xs: &[u64]) -> Records
    ensures { result ≡ records_at xs.now }
{
    Records {
        log: log_of(xs, 148),
        ends: numbers::words_of(xs, 213),
    }
}

#[tactic(auto, unfolding(crate::specs::Console::part_at))]
fn part_of(xs: &[u64]) -> PipelinePart
    ensures { result ≡ part_at xs.now }
{
    let there = numbers::number(xs, 15);
    let tx = numbers::number(xs, 16);
    let outcome = numbers::number(xs, 17);
    PipelinePart {
        round: numbers::number(xs, 2),
        stop: numbers::number(xs, 4) != 0,
        states: states_of(xs),
        txs: txs_of(xs),
        piggyback: piggyback_numbered(there, tx, outcome),
        records: records_of(xs),
        payloads: packets_of(xs),
        holding: numbers::number(xs, 18),
    }
}

#[tactic(auto, unfolding(crate::specs::Console::played_at))]
fn played_of(xs: &[u64]) -> Played
    ensures { result ≡ played_at xs.now }
{
    Played {
        cursor: numbers::number(xs, 6) as usize,
        used: numbers::number(xs, 5) as usize,
        count: 0,
        network: numbers::network_of(xs, 3, 7, 277),
        part: part_of(xs),
    }
}

// ---- to numbers

// (No From, see `entry_numbered`.)
pub fn entry_number(e: LogEntry) -> u64
    ensures { result ≡ entry_number e }
{
    if e.committed {
        e.tx as u64 + 256
    } else {
        e.tx as u64
    }
}

// (By its name `e` an entry is read whole: field by field the compiler makes a slower loop of it.)
fn log_numbers(g: TxLog) -> [u64; 64]
    ensures { result ≡ log_numbers g }
{
    array::from_fn(|i| {
        let e = g.entries[i];
        entry_number(e)
    })
}

#[tactic(auto, unfolding(crate::specs::Console::put_log))]
fn put_log(xs: &mut [u64], at: usize, g: TxLog)
    ensures { xs.new ≡ put_log at g xs.old }
{
    let values = log_numbers(g);
    numbers::put(xs, at, g.len as u64);
    numbers::put_run(xs, at, 1, &values);
}

// (Bounded as `state_of` is.)
#[tactic(auto, unfolding(crate::specs::Console::put_state))]
fn put_state(xs: &mut [u64], at: usize, s: NodeTwoPcState)
    requires { at ≤ 10000 }
    ensures { xs.new ≡ put_state at s xs.old }
{
    put_log(xs, at, s.log);
    numbers::put(xs, at + 65, s.pending);
    numbers::put(xs, at + 66, s.aborts);
    numbers::put_run(xs, at, 67, &s.votes);
}

#[tactic(auto, using(pipeline::proofs::Turns::turns), unfolding(crate::specs::Console::state_to, crate::specs::Console::put_states))]
fn put_states(xs: &mut [u64], states: [NodeTwoPcState; 64])
    ensures { xs.new ≡ put_states states xs.old }
{
    for i in 0..64 {
        put_state(xs, 789 + i * 131, states[i]);
    }
}

fn piggyback_numbers(p: Option<Outcome>) -> [u64; 3]
    ensures { result ≡ piggyback_there p ∷ piggyback_number p ∷ piggyback_outcome p ∷ [] }
{
    match p {
        None => [0, 0, 0],
        Some(o) => [1, o.tx as u64, o.committed as u64],
    }
}

#[tactic(auto, unfolding(crate::specs::Console::packet_numbers))]
fn packet_numbers(q: RoundPacket) -> [u64; 9]
    ensures { result ≡ packet_numbers q }
{
    let [there, t, outcome] = piggyback_numbers(q.piggyback);
    [
        q.tx as u64,
        q.bits,
        q.abort as u64,
        q.nack as u64,
        q.fresh as u64,
        q.sender as u64,
        there,
        t,
        outcome,
    ]
}

fn put_packet(xs: &mut [u64], k: usize, q: RoundPacket)
    ensures { xs.new ≡ sets xs.old (9173 + k) (packet_numbers q) }
{
    let values = packet_numbers(q);
    numbers::put_run(xs, 9173, k, &values);
}

#[tactic(auto, using(pipeline::proofs::Turns::turns), unfolding(crate::specs::Console::packet_to, crate::specs::Console::put_packets))]
fn put_packets(xs: &mut [u64], payloads: [RoundPacket; 64])
    ensures { xs.new ≡ put_packets payloads xs.old }
{
    for i in 0..64 {
        put_packet(xs, i * 9, payloads[i]);
    }
}

#[tactic(auto, unfolding(crate::specs::Console::clock_numbers))]
fn clock_numbers(p: PipelinePart, cursor: usize, used: usize) -> [u64; 3]
    ensures { result ≡ clock_numbers p cursor used }
{
    [p.stop as u64, used as u64, cursor as u64]
}

#[tactic(auto, unfolding(crate::specs::Console::head_numbers))]
fn head_numbers(p: PipelinePart) -> [u64; 5]
    ensures { result ≡ head_numbers p }
{
    let [there, t, outcome] = piggyback_numbers(p.piggyback);
    [there, t, outcome, p.holding, p.txs.counter as u64]
}

#[tactic(auto, unfolding(crate::specs::Console::put_head))]
fn put_head(xs: &mut [u64], p: PipelinePart, cursor: usize, used: usize)
    ensures { xs.new ≡ put_head p cursor used xs.old }
{
    let clock = clock_numbers(p, cursor, used);
    let head = head_numbers(p);
    numbers::put(xs, 2, p.round);
    numbers::put_run(xs, 0, 4, &clock);
    numbers::put_run(xs, 0, 15, &head);
}

#[tactic(auto, unfolding(crate::specs::Console::put_txs))]
fn put_txs(xs: &mut [u64], txs: Txs, records: Records)
    ensures { xs.new ≡ put_txs txs records xs.old }
{
    numbers::put_run(xs, 0, 20, &txs.starts);
    numbers::put_run(xs, 0, 84, &txs.rounds);
    put_log(xs, 148, records.log);
    numbers::put_run(xs, 0, 213, &records.ends);
}

#[tactic(auto, unfolding(crate::specs::Console::put_part))]
fn put_part(xs: &mut [u64], p: PipelinePart, cursor: usize, used: usize)
    ensures { xs.new ≡ put_part p cursor used xs.old }
{
    put_head(xs, p, cursor, used);
    put_txs(xs, p.txs, p.records);
    put_states(xs, p.states);
    put_packets(xs, p.payloads);
}

#[tactic(auto, unfolding(crate::specs::Console::put_played))]
pub fn put_played(xs: &mut [u64], t: Played)
    ensures { xs.new ≡ put_played t xs.old }
{
    numbers::put_network(xs, 3, 7, 277, t.network);
    put_part(xs, t.part, t.cursor, t.used);
}

// ---- the entries

// A room as opened, no rows used, and the cursor at the first word.
#[unsafe(no_mangle)]
pub extern "C" fn pipeline_open(state: &mut [u64])
    ensures { state.new ≡ put_played opened state.old }
{
    let opened = Played {
        cursor: 0,
        used: 0,
        count: 0,
        network: Network::new(),
        part: PipelinePart::new(),
    };
    put_played(state, opened);
}

// How many slots a flood may take; given is 0 if the slots are not.
#[unsafe(no_mangle)]
pub extern "C" fn pipeline_flood_length(
    given: u64,
    slots: u64,
    diameter: usize,
    repeats: u32,
) -> u64
    ensures { result ≡ flood_length (truth given) slots diameter repeats }
{
    flood::flood::flood_length(given != 0, slots, diameter, repeats)
}

#[tactic(auto, unfolding(crate::specs::Console::conf_by))]
fn conf_of(
    links: &[u64],
    n: usize,
    transactions: usize,
    loss_rate: f64,
    abort_probability: f64,
    repeats: u32,
    length: u64,
    interval: u64,
    bound: u64,
) -> PipelineConf
    ensures { result ≡ conf_by links.now n transactions loss_rate abort_probability repeats length interval bound }
{
    let settings = Settings {
        loss_rate,
        abort_probability,
        seed: 0,
        listen_timeout: 0,
        flood_repeats: repeats,
        round_slots: 0,
        slots_given: false,
    };
    PipelineConf {
        round: RoundConf {
            graph: NetworkGraph {
                n,
                adj: numbers::words_of(links, 0),
            },
            settings,
            interval,
            length,
        },
        transactions,
        bound,
    }
}

// At most so many rounds of the room, up to the first that is refused. The answer is that refusal, or 0. Where no
// round was accepted, the state is left as it was.
#[unsafe(no_mangle)]
pub extern "C" fn pipeline_rounds(
    state: &mut [u64],
    words: &[u64],
    links: &[u64],
    rows: &mut [u64],
    n: usize,
    transactions: usize,
    loss_rate: f64,
    abort_probability: f64,
    repeats: u32,
    length: u64,
    interval: u64,
    bound: u64,
    rounds: u64,
) -> u64
    ensures value { result ≡ answer_of (play_rounds words.now (conf_by links.now n transactions loss_rate abort_probability repeats length interval bound) rounds (playing_at rows.old state.old)).told }
    ensures rows_value { rows.new ≡ (play_rounds words.now (conf_by links.now n transactions loss_rate abort_probability repeats length interval bound) rounds (playing_at rows.old state.old)).rows }
    ensures state_after { state.new ≡ left_in (play_rounds words.now (conf_by links.now n transactions loss_rate abort_probability repeats length interval bound) rounds (playing_at rows.old state.old)).played state.old }
{
    let conf = conf_of(
        links,
        n,
        transactions,
        loss_rate,
        abort_probability,
        repeats,
        length,
        interval,
        bound,
    );
    let mut t = played_of(state);
    let told = rounds::play_rounds(words, rows, conf, &mut t, rounds);
    if t.count == 0 {
        return refusals::answer(told);
    }
    put_played(state, t);
    refusals::answer(told)
}
