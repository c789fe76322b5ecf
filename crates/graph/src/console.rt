// The entries for C and for the differential runs. A graph goes over as its rows, one number for each position.
// The answer is the refusal's number (RULES 15), 0 for none; a refused call writes nothing.
ghost use Rattle.std.specs.Prelude.{◌≡◌, length, Ok};
ghost use Rattle.std.proofs.lemmas.List.Edits.{sets};
ghost use Rattle.limits.specs.Refusals.{answer_of, after, and_then};
ghost use Rattle.graph.specs.Console.{room64, built_told, neighbors_told, diameter_told, link_told, path_told, flag};

use super::network::NetworkGraph;
use limits::refusals::{Refusal, answer, tell};

// The first 64 numbers of what is lent become these: one for each position that there may be.
#[tactic(auto, using(crate::proofs::Entries::stored))]
fn store(out: &mut [u64], values: &[u64; limits::POSITIONS]) -> Result<(), Refusal>
    ensures told { result ≡ room64 (length out.old) }
    ensures out_after { out.new ≡ after (room64 (length out.old)) (λ _. sets out.old 0 values.now) out.old }
{
    let Some(front) = out.first_chunk_mut::<64>() else {
        return Err(Refusal::NoFit);
    };
    *front = *values;
    Ok(())
}

fn build(topology: u64, n: usize, argument: usize, rows: &mut [u64]) -> Result<(), Refusal>
    ensures told { result ≡ and_then (built_told topology n argument (length rows.old)) (λ _. Ok tt) }
    ensures rows_after { rows.new ≡ after (built_told topology n argument (length rows.old)) (λ g. sets rows.old 0 g.adj) rows.old }
{
    let graph = NetworkGraph::from_topology(topology, n, argument)?;
    store(rows, &graph.adj)
}

// The rows of a topology with its number in RULES 2.2: 64 of them, empty behind the positions. 2, 3; 10 if fewer fit.
#[unsafe(no_mangle)]
pub extern "C" fn graph_build(topology: u64, n: usize, argument: usize, rows: &mut [u64]) -> u64
    ensures value { result ≡ answer_of (built_told topology n argument (length rows.old)) }
    ensures rows_after { rows.new ≡ after (built_told topology n argument (length rows.old)) (λ g. sets rows.old 0 g.adj) rows.old }
{
    answer(build(topology, n, argument, rows))
}

// How many neighbours there are.
fn neighbors(rows: &[u64], i: usize, out: &mut [u64]) -> Result<usize, Refusal>
    ensures told { result ≡ and_then (neighbors_told rows.now i (length out.old)) (λ l. Ok l.count) }
    ensures out_after { out.new ≡ after (neighbors_told rows.now i (length out.old)) (λ l. sets out.old 0 l.at) out.old }
{
    let list = NetworkGraph::from_rows(rows)?.neighbors(i)?;
    store(out, &list.at)?;
    Ok(list.count)
}

// Who hears i, in rising order, with zeros behind them up to 64, and how many they are. 2, 3, 8; 10 if fewer than 64
// fit.
#[unsafe(no_mangle)]
pub extern "C" fn graph_neighbors(rows: &[u64], i: usize, out: &mut [u64], count: &mut usize) -> u64
    ensures value { result ≡ answer_of (neighbors_told rows.now i (length out.old)) }
    ensures out_after { out.new ≡ after (neighbors_told rows.now i (length out.old)) (λ l. sets out.old 0 l.at) out.old }
    ensures count_after { count.new ≡ after (neighbors_told rows.now i (length out.old)) (λ l. l.count) count.old }
{
    tell(neighbors(rows, i, out), count)
}

fn diameter(rows: &[u64]) -> Result<usize, Refusal>
    ensures { result ≡ diameter_told rows.now }
{
    NetworkGraph::from_rows(rows)?.diameter()
}

// The diameter. 2, 3.
#[unsafe(no_mangle)]
pub extern "C" fn graph_diameter(rows: &[u64], links: &mut usize) -> u64
    ensures value { result ≡ answer_of (diameter_told rows.now) }
    ensures links_after { links.new ≡ after (diameter_told rows.now) (λ d. d) links.old }
{
    tell(diameter(rows), links)
}

fn has_link(rows: &[u64], i: usize, j: usize) -> Result<usize, Refusal>
    ensures { result ≡ and_then (link_told rows.now i j) (λ holds. Ok (flag holds)) }
{
    let holds = NetworkGraph::from_rows(rows)?.has_link(i, j)?;
    Ok(holds as usize)
}

// Whether j hears i: 1 or 0. 2, 3, 8.
#[unsafe(no_mangle)]
pub extern "C" fn graph_has_link(rows: &[u64], i: usize, j: usize, answer: &mut usize) -> u64
    ensures value { result ≡ answer_of (link_told rows.now i j) }
    ensures answer_after { answer.new ≡ after (link_told rows.now i j) flag answer.old }
{
    tell(has_link(rows, i, j), answer)
}

// (As `has_link`: one function for both would take the call and its rule as arguments.)
fn reaches(rows: &[u64], i: usize, j: usize) -> Result<usize, Refusal>
    ensures { result ≡ and_then (path_told rows.now i j) (λ holds. Ok (flag holds)) }
{
    let holds = NetworkGraph::from_rows(rows)?.reaches(i, j)?;
    Ok(holds as usize)
}

// Whether what i sends can come to j: 1 or 0. 2, 3, 8.
#[unsafe(no_mangle)]
pub extern "C" fn graph_reaches(rows: &[u64], i: usize, j: usize, answer: &mut usize) -> u64
    ensures value { result ≡ answer_of (path_told rows.now i j) }
    ensures answer_after { answer.new ≡ after (path_told rows.now i j) flag answer.old }
{
    tell(reaches(rows, i, j), answer)
}
