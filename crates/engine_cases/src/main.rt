// RULES none. Replays capture rounds and prints our answers; the file `stdout` holds the Rust's answers to the same
// questions. Both files are made by `differential/run --sample capture | differential/engine_cases.py`. A line is
// numbers in decimal with single blanks between them:
//   1 n topology argument timeout loss abort seed interval first step count
//       opens a room; losses and abort probabilities are told by their place in a table; of its words each is the one
//       before it and step
//   2 term initiator             a proposal after that term
//   3 place number               one number of the state, for packets given by hand
//   4 initiator slots numbers    a round, with room for that many numbers of rows
// The answer to 4 is the refusal, the first six numbers of the state, recoveries, frames tried and heard, and a digest
// of the whole state and of the rows. Nothing else is answered. A line may have any bytes: how numbers are read of it
// case_lines says. Those that are missing are 0, and what asks by another number does nothing. Before the first room is
// opened, one is there that 1 and nothing but zeros would open.
#![tactic(auto)]

use case_lines::Answers;
use engines_c::{console, numbers, payloads};
use graph::network::NetworkGraph;
use merges::merging;
use merges::merging::{Held, Payload};
use merges::votes::Voting;
use std::alloc::{AllocError, Global};
use std::io;

// The numbers that are read of a line.
const NUMBERS: usize = 12;

// Past the end of a table its last entry is meant.
const LOSSES: [f64; 4] = [0.0, -0.0, 0.3, 0.96875];

const ABORTS: [f64; 4] = [0.0, 1.0, 0.0005, 0.25];

// A room has no more words, also where a line asks for more.
const MOST_WORDS: u64 = 4096;

// The numbers of a state, and where those begin that tell what all positions hold.
const STATE: usize = 2960;

const HELD: usize = 528;

// The numbers of the row buffer, of which a round may be lent fewer; 7 stands where nobody wrote.
const ROWS: usize = 600;

const UNWRITTEN: u64 = 7;

// An open room, and what its rounds are lent.
#[derive(Drop)]
struct Room {
    n: usize,
    timeout: u64,
    loss: f64,
    abort: f64,
    seed: u64,
    interval: u64,
    words: Vec<u64>,
    links: [u64; limits::POSITIONS],
    state: Vec<u64>,
}

impl Room {
    fn open(alloc: Global, question: [u64; NUMBERS]) -> Result<Room, AllocError> {
        let [
            _,
            n,
            topology,
            argument,
            timeout,
            loss,
            abort,
            seed,
            interval,
            first,
            step,
            count,
        ] = question;
        let n = n as usize;
        let mut words = vec![in alloc; 0; count.min(MOST_WORDS) as usize]?;
        case_lines::fill_words(first, step, &mut words);
        Ok(Room {
            n,
            timeout,
            loss: LOSSES[(loss as usize).min(LOSSES.len() - 1)],
            abort: ABORTS[(abort as usize).min(ABORTS.len() - 1)],
            seed,
            interval,
            words,
            // A topology that is refused has no links.
            links: match NetworkGraph::from_topology(topology, n, argument as usize) {
                Ok(graph) => graph.adj,
                Err(_) => [0; limits::POSITIONS],
            },
            state: vec![in alloc; 0; STATE]?,
        })
    }

    // All hold nothing but the initiator, which holds its proposal.
    fn propose(&mut self, term: u64, initiator: usize) {
        let voting = Voting {
            n: self.n,
            abort_probability: self.abort,
            seed: self.seed,
        };
        let packet = merging::init_proposal(voting, term, initiator);
        let mut held = payloads::held_of(&[], 0);
        held[initiator % limits::POSITIONS] = Payload {
            held: Held::Packet,
            packet,
        };
        payloads::put_held(&mut self.state, HELD, held);
    }

    // The refusal's number, as the entry for C tells it: it is printed beside the state, whether it is 0 or not.
    fn round(&mut self, rows: &mut [u64], initiator: usize, slots: u64) -> u64 {
        console::ce_round(
            &mut self.state,
            &self.words,
            &self.links,
            rows,
            self.n,
            self.abort,
            self.seed,
            self.timeout,
            self.loss,
            self.interval,
            initiator,
            slots,
        )
    }
}

fn say_round(rt: &impl Print, refusal: u64, state: &[u64], rows: &[u64]) -> io::Result<()> {
    print!(rt; "{refusal}")?;
    let counts = state.iter().take(6);
    let rates = state.iter().skip(10).take(3);
    for n in counts.chain(rates) {
        print!(rt; " {n}")?;
    }
    println!(rt;
        " {} {}",
        case_lines::digest(state),
        case_lines::digest(rows)
    )
}

fn play(
    rt: &(impl Print + AllocGlobal),
    room: &mut Room,
    initiator: u64,
    slots: u64,
    numbers: u64,
) -> io::Result<()> {
    let mut rows = vec![in rt.alloc(); UNWRITTEN; ROWS]?;
    let end = rows.len().min(numbers as usize);
    let refusal = room.round(&mut rows[..end], initiator as usize, slots);
    say_round(rt, refusal, &room.state, &rows)
}

fn answer(
    rt: &(impl Print + AllocGlobal),
    room: &mut Room,
    question: [u64; NUMBERS],
) -> io::Result<()> {
    match &question[..] {
        [1, ..] => *room = Room::open(rt.alloc(), question)?,
        [2, term, initiator, ..] => room.propose(*term, *initiator as usize),
        [3, place, number, ..] => numbers::put(&mut room.state, *place as usize, *number),
        [4, initiator, slots, numbers, ..] => play(rt, room, *initiator, *slots, *numbers)?,
        _ => {}
    }
    Ok(())
}

// Who answers, and where to, with the room that is open.
#[derive(Drop)]
struct Desk<'a> {
    rt: &'a HostRuntime,
    room: Room,
}

impl Answers for Desk<'_> {
    fn answer(&mut self, question: &[u64]) -> io::Result<()> {
        answer(self.rt, &mut self.room, case_lines::padded(question))
    }
}

fn main(rt: HostRuntime) -> io::Result<()> {
    let room = Room::open(rt.alloc(), [0; NUMBERS])?;
    case_lines::answer_input(&rt, NUMBERS, &mut Desk { rt: &rt, room })
}
