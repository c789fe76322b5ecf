// RULES 17. What C links of graph: each entry is the function of that crate of the same name, with its clauses.
#![tactic(auto)]

ghost use Rattle.std.specs.Prelude.{◌≡◌, length};
ghost use Rattle.std.proofs.lemmas.List.Edits.{sets};
ghost use Rattle.limits.specs.Refusals.{answer_of, after};
ghost use Rattle.graph.specs.Console.{built_told, neighbors_told, diameter_told, link_told, path_told, flag};

// The rows of a topology with its number in RULES 2.2: 64 of them, empty behind the positions. 2, 3; 10 if fewer fit.
#[unsafe(no_mangle)]
pub extern "C" fn graph_build(topology: u64, n: usize, argument: usize, rows: &mut [u64]) -> u64
    ensures value { result ≡ answer_of (built_told topology n argument (length rows.old)) }
    ensures rows_after { rows.new ≡ after (built_told topology n argument (length rows.old)) (λ g. sets rows.old 0 g.adj) rows.old }
{
    graph::console::graph_build(topology, n, argument, rows)
}

// Who hears i, in rising order, with zeros behind them up to 64, and how many they are. 2, 3, 8; 10 if fewer than 64
// fit.
#[unsafe(no_mangle)]
pub extern "C" fn graph_neighbors(rows: &[u64], i: usize, out: &mut [u64], count: &mut usize) -> u64
    ensures value { result ≡ answer_of (neighbors_told rows.now i (length out.old)) }
    ensures out_after { out.new ≡ after (neighbors_told rows.now i (length out.old)) (λ l. sets out.old 0 l.at) out.old }
    ensures count_after { count.new ≡ after (neighbors_told rows.now i (length out.old)) (λ l. l.count) count.old }
{
    graph::console::graph_neighbors(rows, i, out, count)
}

// The diameter. 2, 3.
#[unsafe(no_mangle)]
pub extern "C" fn graph_diameter(rows: &[u64], links: &mut usize) -> u64
    ensures value { result ≡ answer_of (diameter_told rows.now) }
    ensures links_after { links.new ≡ after (diameter_told rows.now) (λ d. d) links.old }
{
    graph::console::graph_diameter(rows, links)
}

// Whether j hears i: 1 or 0. 2, 3, 8.
#[unsafe(no_mangle)]
pub extern "C" fn graph_has_link(rows: &[u64], i: usize, j: usize, answer: &mut usize) -> u64
    ensures value { result ≡ answer_of (link_told rows.now i j) }
    ensures answer_after { answer.new ≡ after (link_told rows.now i j) flag answer.old }
{
    graph::console::graph_has_link(rows, i, j, answer)
}

// Whether what i sends can come to j: 1 or 0. 2, 3, 8.
#[unsafe(no_mangle)]
pub extern "C" fn graph_reaches(rows: &[u64], i: usize, j: usize, answer: &mut usize) -> u64
    ensures value { result ≡ answer_of (path_told rows.now i j) }
    ensures answer_after { answer.new ≡ after (path_told rows.now i j) flag answer.old }
{
    graph::console::graph_reaches(rows, i, j, answer)
}
