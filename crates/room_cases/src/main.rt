// Opens rooms, makes their calls and prints what each tells; the file `stdout` holds what the Rust's rooms say.
// A line is numbers in decimal with single blanks between them:
//   0 the ten numbers of an opening, as in room_c's src/console.rt
//   10 loss and abort probability, by their places in a table
//   12 topology, positions, argument; what is no topology has rows without links
//   15 first word, what each is more than the one before it, how many
//   18 numbers in the row buffer, bytes in the buffer for texts
//   20 four numbers for each call, as there
// The answer is the refusal of the opening. Then, behind a comma each, what the calls tell: all numbers up to the last
// that is not 0, and behind a stroke each float, times 2^63. At the end, behind semicolons, a digest of the row buffer,
// and the buffer for texts up to its last byte that is not 0. A line of fewer than 20 numbers has no answer.
// A line may have any bytes: how numbers are read of it case_lines says. Up to 256 are read. Numbers left over that are
// too few for a call are none.
#![tactic(auto)]

use case_lines::Answers;
use graph::network::NetworkGraph;
use room_c::console;
use std::alloc::{AllocError, Global};
use std::{io, iter};

// The numbers that are read of a line.
const NUMBERS: usize = 256;

// Past the end of a table its last entry is meant.
const LOSSES: [f64; 5] = [0.0, -0.0, 0.3, 1.0, 0.5];

const ABORTS: [f64; 4] = [0.0, 1.0, 0.25, -0.5];

// There is no more of these, also where a line asks for more.
const MOST_LINKS: usize = 66;

const MOST_WORDS: u64 = 2048;

const MOST_ROWS: usize = 400;

const MOST_TEXT: usize = 700;

// The numbers of a call, and how many numbers and floats it tells.
const CALL: usize = 4;

const TOLD: usize = 40;

const FLOATS: usize = 2;

// The calls that tell floats: settings two, a ratio one.
const SETTINGS: u64 = 6;

const LINK_PDR: u64 = 11;

const FLOOD_COVERAGE: u64 = 12;

// ---- what a room is lent

#[derive(Drop)]
struct Lent {
    loss: f64,
    abort: f64,
    links: Vec<u64>,
    words: Vec<u64>,
    rows: Vec<u64>,
    text: Vec<u8>,
}

// A row for each position, two more at most than a graph may have.
fn links_of(alloc: Global, topology: u64, n: u64, argument: u64) -> Result<Vec<u64>, AllocError> {
    let rows = match NetworkGraph::from_topology(topology, n as usize, argument as usize) {
        Ok(graph) => graph.adj,
        Err(_) => [0; 64],
    };
    rows.iter()
        .copied()
        .chain(iter::repeat(0))
        .take(MOST_LINKS.min(n as usize))
        .collect(alloc)
}

// ---- what is printed

fn say_numbers(rt: &impl Print, told: &[u64]) -> io::Result<()> {
    let [first, others @ ..] = told else {
        return Ok(());
    };
    print!(rt; ",{first}")?;
    let count = others.iter().rev().skip_while(|n| **n == 0).count();
    for n in others.iter().take(count) {
        print!(rt; " {n}")?;
    }
    Ok(())
}

// Exact but for what is below 2^-63.
fn say_float(rt: &impl Print, x: f64) -> io::Result<()> {
    let y = x * 9223372036854775808.0;
    if y > -1.0 && y < 18446744073709551616.0 {
        return print!(rt; "/{}", std::num::saturating_f64_to_u64(y));
    }
    print!(rt; "/-")
}

fn floats_told(call: u64) -> usize {
    match call {
        SETTINGS => 2,
        LINK_PDR | FLOOD_COVERAGE => 1,
        _ => 0,
    }
}

fn say_calls(rt: &impl Print, calls: &[u64], told: &[u64], floats: &[f64]) -> io::Result<()> {
    let answers = told.chunks(TOLD).zip(floats.chunks(FLOATS));
    for (call, (numbers, ratios)) in calls.chunks(CALL).zip(answers) {
        say_numbers(rt, numbers)?;
        for x in ratios.iter().take(floats_told(call[0])) {
            say_float(rt, *x)?;
        }
    }
    Ok(())
}

fn say_text(rt: &impl Print, text: &[u8]) -> io::Result<()> {
    let count = text.iter().rev().skip_while(|b| **b == 0).count();
    print!(rt; ";")?;
    rt.write_all(&text[..count])
}

// ---- a question

// The refusal's number is printed as the entry for C tells it, and the buffers besides, whether it is 0 or not.
fn play(
    rt: &(impl Print + AllocGlobal),
    setup: &[u64],
    mut lent: Lent,
    calls: &[u64],
) -> io::Result<()> {
    let asked = calls.len() / CALL;
    let mut told = vec![in rt.alloc(); 0; asked * TOLD]?;
    let mut floats = vec![in rt.alloc(); 0.0; asked * FLOATS]?;
    let refusal = console::room_run(
        setup,
        lent.loss,
        lent.abort,
        &lent.links,
        &lent.words,
        &mut lent.rows,
        calls,
        &mut told,
        &mut floats,
        &mut lent.text,
        &mut [0],
    );
    print!(rt; "{refusal}")?;
    if refusal == 0 {
        say_calls(rt, calls, &told, &floats)?;
    }
    print!(rt; ";{}", case_lines::digest(&lent.rows))?;
    say_text(rt, &lent.text)?;
    println!(rt)
}

fn answer(rt: &(impl Print + AllocGlobal), question: &[u64]) -> io::Result<()> {
    let alloc = rt.alloc();
    let Some(
        (
            setup,
            [
                loss,
                abort,
                topology,
                n,
                argument,
                first,
                step,
                count,
                rows,
                text,
                calls @ ..,
            ],
        ),
    ) = question.split_at_checked(10)
    else {
        return Ok(());
    };
    let mut words = vec![in alloc; 0; MOST_WORDS.min(*count) as usize]?;
    case_lines::fill_words(*first, *step, &mut words);
    let lent = Lent {
        loss: LOSSES[(*loss as usize).min(LOSSES.len() - 1)],
        abort: ABORTS[(*abort as usize).min(ABORTS.len() - 1)],
        links: links_of(alloc, *topology, *n, *argument)?,
        words,
        rows: vec![in alloc; 0; MOST_ROWS.min(*rows as usize)]?,
        text: vec![in alloc; 0; MOST_TEXT.min(*text as usize)]?,
    };
    play(rt, setup, lent, calls)
}

// Who answers, and where to.
#[derive(Clone, Copy)]
struct Desk<'a>(&'a HostRuntime);

impl Answers for Desk<'_> {
    fn answer(&mut self, question: &[u64]) -> io::Result<()> {
        answer(self.0, question)
    }
}

fn main(rt: HostRuntime) -> io::Result<()> {
    case_lines::answer_input(&rt, NUMBERS, &mut Desk(&rt))
}
