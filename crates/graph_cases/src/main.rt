// RULES none. Replays questions about graphs and prints our answers; the file `stdout` holds the Rust's answers to the
// same questions. A line asks, by numbers in decimal with single blanks between them:
//   1 i n row0 .. row(n-1)      the diameter, and who hears i
//   2 topology n argument       the rows of a topology, and its diameter
//   3 i j n row0 .. row(n-1)    whether j hears i, and whether what i sends can come to j
// The answer is a refusal number alone, or 0 and the numbers asked for; to a line that asks by another number it is
// empty. A line may have any bytes: how numbers are read of it case_lines says. Up to 80 are read, and those that are
// missing are 0.
#![tactic(auto)]

use case_lines::Answers;
use graph::network::{NeighborList, NetworkGraph};
use limits::refusals::Refusal;
use std::io;

// The numbers that are read of a line.
const NUMBERS: usize = 80;

// More rows than a graph may have: of a greater number no more are taken.
const MOST_ROWS: u64 = 70;

// The diameter, and who hears i.
fn heard(i: u64, rows: &[u64]) -> Result<(usize, NeighborList), Refusal> {
    let graph = NetworkGraph::from_rows(rows)?;
    let list = graph.neighbors(i as usize)?;
    Ok((graph.diameter()?, list))
}

// A topology, and its diameter.
fn built(topology: u64, n: u64, argument: u64) -> Result<(NetworkGraph, usize), Refusal> {
    let graph = NetworkGraph::from_topology(topology, n as usize, argument as usize)?;
    Ok((graph, graph.diameter()?))
}

// Whether j hears i, and whether what i sends can come to j.
fn linked(i: u64, j: u64, rows: &[u64]) -> Result<(bool, bool), Refusal> {
    let graph = NetworkGraph::from_rows(rows)?;
    let link = graph.has_link(i as usize, j as usize)?;
    Ok((link, graph.reaches(i as usize, j as usize)?))
}

fn say_refusal(rt: &impl Print, refusal: Refusal) -> io::Result<()> {
    println!(rt; "{}", u64::from(refusal))
}

// The first so many numbers of a list.
fn say_first(rt: &impl Print, list: &[u64], count: usize) -> io::Result<()> {
    for n in list.iter().take(count) {
        print!(rt; " {n}")?;
    }
    println!(rt)
}

fn ask_graph(rt: &impl Print, i: u64, rows: &[u64]) -> io::Result<()> {
    match heard(i, rows) {
        Ok((diameter, list)) => {
            print!(rt; "0 {diameter} {}", list.count)?;
            say_first(rt, &list.at, list.count)
        }
        Err(refusal) => say_refusal(rt, refusal),
    }
}

fn ask_topology(rt: &impl Print, topology: u64, n: u64, argument: u64) -> io::Result<()> {
    match built(topology, n, argument) {
        Ok((graph, diameter)) => {
            print!(rt; "0 {diameter}")?;
            say_first(rt, &graph.adj, graph.n)
        }
        Err(refusal) => say_refusal(rt, refusal),
    }
}

fn ask_pair(rt: &impl Print, i: u64, j: u64, rows: &[u64]) -> io::Result<()> {
    match linked(i, j, rows) {
        Ok((link, reach)) => println!(rt; "0 {} {}", link as u64, reach as u64),
        Err(refusal) => say_refusal(rt, refusal),
    }
}

// The first n rows.
fn first_rows(rows: &[u64], n: u64) -> &[u64] {
    &rows[..rows.len().min(n.min(MOST_ROWS) as usize)]
}

fn answer(rt: &impl Print, question: [u64; NUMBERS]) -> io::Result<()> {
    match &question[..] {
        [1, i, n, rows @ ..] => ask_graph(rt, *i, first_rows(rows, *n)),
        [2, topology, n, argument, ..] => ask_topology(rt, *topology, *n, *argument),
        [3, i, j, n, rows @ ..] => ask_pair(rt, *i, *j, first_rows(rows, *n)),
        _ => println!(rt),
    }
}

// Who answers, and where to.
#[derive(Clone, Copy)]
struct Desk<'a>(&'a HostRuntime);

impl Answers for Desk<'_> {
    fn answer(&mut self, question: &[u64]) -> io::Result<()> {
        answer(self.0, case_lines::padded(question))
    }
}

fn main(rt: HostRuntime) -> io::Result<()> {
    case_lines::answer_input(&rt, NUMBERS, &mut Desk(&rt))
}
