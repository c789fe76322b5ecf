// RULES 2. Ported from network.rs: who hears whom. A link from i to j says that j hears i. It may have no counterpart,
// and a position may hear itself.
// A graph's fields are open, so its numbers may be any: every call tests them, and answers with what it refuses.
ghost use Rattle.std.specs.Prelude.{◌≡◌, ◌||◌, ◌&&◌, ℕ, ◌+◌, ◌/◌, ◌≤◌, ◌<◌, length, get_or, set, eqb, ltb, IfOk};
ghost use Rattle.std.specs.Result.{result_and};
ghost use Rattle.limits.specs.Limits.{positions};
ghost use Rattle.loops.specs.Pick.{either};
ghost use Rattle.loops.specs.Table.{filled};
ghost use Rattle.marks.specs.Marks.{has, marks, all_of};
ghost use Rattle.graph.specs.declared.network.Topology.TheVariants.{FullMesh, Line, Ring, Tree};
ghost use Rattle.graph.specs.Links.{graph_by, size_test, built_of, ahead_of, link_of, ring_rule, grid_rule, tree_rule, grid_of, topology_of, plain_of, inside, all_inside, rows_of, graph_test, position_test, node_test, pair_test, row_of, list_of, neighbors_of};
ghost use Rattle.graph.specs.Paths.{Longest, reached, diameter_of, length_of, has_link_of, reaches_of};
ghost use Rattle.graph.specs.Waves.{leads, step_of, wave_of};

use super::sets;
use limits::refusals::Refusal;

// n positions; row i holds a mark for each position that hears i.
#[derive(Clone, Copy)]
pub struct NetworkGraph {
    pub n: usize,
    pub adj: [u64; limits::POSITIONS],
}

// The neighbours of a position in rising order, with zeros behind the first `count`. Not the kit's ArrayVec, which has
// no Copy and shows none of the zeros: C is given all 64 numbers, and the count beside them.
#[derive(Clone, Copy)]
pub struct NeighborList {
    pub count: usize,
    pub at: [u64; limits::POSITIONS],
}

// The five shapes, each with what its rule needs.
#[derive(Clone, Copy, Debug, PartialEq, Eq)]
pub enum Topology {
    FullMesh,
    Line,
    Ring,
    Grid(usize),
    Tree(usize),
}

// j stands d places behind i. Written so that no sum can wrap.
fn apart(i: usize, j: usize, d: usize) -> bool
    ensures { result ≡ eqb j (i + d) }
{
    if j < i {
        return false;
    }
    j - i == d
}

// In a ring of more than two the first position follows the last.
fn closes(n: usize, i: usize, j: usize) -> bool
    ensures { result ≡ (ltb 2 n && (eqb n (i + 1) && eqb j 0)) }
{
    if n <= 2 {
        return false;
    }
    if !apart(i, n, 1) {
        return false;
    }
    j == 0
}

#[tactic(auto, unfolding(crate::specs::Links::ring_rule, crate::specs::Links::next_rule))]
fn ring_ahead(n: usize, i: usize, j: usize) -> bool
    ensures { result ≡ ring_rule n i j }
{
    if apart(i, j, 1) {
        return true;
    }
    closes(n, i, j)
}

// i and j stand in one row of a grid with so many columns.
fn same_row(cols: usize, i: usize, j: usize) -> bool
    requires { 0 < cols }
    ensures { result ≡ eqb (i / cols) (j / cols) }
{
    i / cols == j / cols
}

#[tactic(auto, using(crate::proofs::Rules::grid_below, crate::proofs::Rules::grid_zero, crate::proofs::Rules::grid_apart, crate::proofs::Rules::grid_row))]
fn grid_ahead(cols: usize, i: usize, j: usize) -> bool
    ensures { result ≡ grid_rule cols i j }
{
    if apart(i, j, cols) {
        return true;
    }
    if cols == 0 {
        return apart(i, j, 1);
    }
    if !apart(i, j, 1) {
        return false;
    }
    same_row(cols, i, j)
}

// j is a child of i in a tree in which each has up to b children. The quotient stands for the product, which could
// wrap.
#[tactic(auto, using(crate::proofs::Rules::tree_none, crate::proofs::Rules::tree_root, crate::proofs::Rules::tree_child))]
fn tree_ahead(b: usize, i: usize, j: usize) -> bool
    ensures { result ≡ tree_rule b i j }
{
    if b == 0 {
        return false;
    }
    if j == 0 {
        return false;
    }
    (j - 1) / b == i
}

// The rule of a shape, in one direction.
#[tactic(auto, unfolding(crate::specs::Links::ahead_of, crate::specs::Links::mesh_rule, crate::specs::Links::next_rule))]
fn ahead(t: Topology, n: usize, i: usize, j: usize) -> bool
    ensures { result ≡ ahead_of t n i j }
{
    match t {
        Topology::FullMesh => i != j,
        Topology::Line => apart(i, j, 1),
        Topology::Ring => ring_ahead(n, i, j),
        Topology::Grid(cols) => grid_ahead(cols, i, j),
        Topology::Tree(b) => tree_ahead(b, i, j),
    }
}

#[tactic(auto, unfolding(crate::specs::Links::link_of))]
fn has_pair(t: Topology, n: usize, i: usize, j: usize) -> bool
    ensures { result ≡ link_of t n i j }
{
    if ahead(t, n, i, j) {
        return true;
    }
    ahead(t, n, j, i)
}

// The marks of those of n that i has a link to. (The bound says that each j is a mark of a word, so that the compiler
// drops `with_mark`'s test of it: with the test a full mesh took 1.3 times as long.)
fn row_by(t: Topology, n: usize, i: usize) -> u64
    ensures { (j : ℕ) → has result j ≡ ((ltb j n && ltb j 64) && link_of t n i j) }
{
    let mut m: u64 = 0;
    for j in 0..n.min(limits::POSITIONS) {
        if has_pair(t, n, i, j) {
            m = sets::with_mark(m, j);
        }
    }
    m
}

// 1 to 64 positions.
#[tactic(auto, using(crate::proofs::Answers::refused_none, crate::proofs::Answers::refused_many, crate::proofs::Answers::accepted_size))]
pub fn check_size(n: usize) -> Result<(), Refusal>
    ensures { result ≡ size_test n }
{
    if n == 0 {
        return Err(Refusal::BadPositions);
    }
    if n > limits::POSITIONS {
        return Err(Refusal::BadPositions);
    }
    Ok(())
}

// One of n positions, which are 1 to 64.
#[tactic(auto, unfolding(crate::specs::Links::position_test))]
pub fn check_position(n: usize, i: usize) -> Result<(), Refusal>
    ensures { result ≡ position_test n i }
{
    check_size(n)?;
    if n <= i {
        return Err(Refusal::NoPosition);
    }
    Ok(())
}

#[tactic(auto, using(crate::proofs::Rules::size_parts))]
fn build(t: Topology, n: usize) -> Result<NetworkGraph, Refusal>
    ensures { result ≡ built_of n (link_of t n) }
{
    check_size(n)?;
    let mut adj = [0u64; limits::POSITIONS];
    for i in 0..n {
        adj[i] = row_by(t, n, i);
    }
    Ok(NetworkGraph { n, adj })
}

// Every mark of the row is below n.
#[tactic(auto, using(crate::proofs::Rules::inside_is))]
fn row_inside(row: u64, n: usize) -> bool
    ensures { result ≡ inside n row }
{
    sets::difference(row, sets::first_marks(n)) == 0
}

// Whether no row has a mark behind the last of them.
#[tactic(auto, using(marks::specs::Sets::all_none, marks::specs::Sets::all_more, marks::specs::Sets::all_done), unfolding(crate::specs::Links::all_inside))]
fn check_rows(rows: &[u64]) -> Result<(), Refusal>
    ensures { result ≡ all_inside (length rows.now) rows.now }
{
    for &row in rows {
        if !row_inside(row, rows.len()) {
            return Err(Refusal::BadLinks);
        }
    }
    Ok(())
}

fn plain(t: Topology, n: usize, argument: usize) -> Result<NetworkGraph, Refusal>
    ensures { result ≡ plain_of t n argument }
{
    if argument != 0 {
        return Err(Refusal::BadLinks);
    }
    build(t, n)
}

// The marks of a word in rising order. (`sets::iter` with `enumerate` is no plainer: `count` is kept for C either way,
// and the rule lists the marks below a bound, which rises here by one a turn.)
#[tactic(auto, using(crate::proofs::Rules::list_none, crate::proofs::Rules::list_room, crate::proofs::Rules::list_more, crate::proofs::Rules::list_same))]
fn list_marks(m: u64) -> NeighborList
    ensures { result ≡ list_of m 64 }
{
    let mut list = NeighborList {
        count: 0,
        at: [0u64; limits::POSITIONS],
    };
    for j in 0..limits::POSITIONS {
        if sets::is_marked(m, j) {
            list.at[list.count] = j as u64;
            list.count += 1;
        }
    }
    list
}

// A wave that goes out from one position, a link a step: where it arrived last, where it has not been, and the last
// step at which it arrived somewhere.
#[derive(Clone, Copy)]
struct Wave {
    front: u64,
    unseen: u64,
    links: usize,
}

// Where one link leads from the positions of the front.
fn spread(adj: &[u64; 64], front: u64) -> u64
    ensures { (j : ℕ) → has result j ≡ leads adj.now front j }
{
    let mut out: u64 = 0;
    for i in sets::iter(front) {
        out = sets::union(out, adj[i]);
    }
    out
}

// A step of a wave, with its number.
fn wave_step(adj: &[u64; 64], w: Wave, step: usize) -> Wave
    ensures { (k : ℕ) → step ≡ k + 1 → result ≡ step_of adj.now k w }
{
    let front = sets::intersection(spread(adj, w.front), w.unseen);
    let unseen = sets::difference(w.unseen, front);
    let links = if front == 0 { w.links } else { step };
    Wave {
        front,
        unseen,
        links,
    }
}

impl NetworkGraph {
    // Each hears each other.
    pub fn full_mesh(n: usize) -> Result<NetworkGraph, Refusal>
        ensures { result ≡ built_of n (link_of FullMesh n) }
    {
        build(Topology::FullMesh, n)
    }

    // Each hears the one before and the one behind it.
    pub fn line(n: usize) -> Result<NetworkGraph, Refusal>
        ensures { result ≡ built_of n (link_of Line n) }
    {
        build(Topology::Line, n)
    }

    // A line with its ends joined, where there are more than two.
    pub fn ring(n: usize) -> Result<NetworkGraph, Refusal>
        ensures { result ≡ built_of n (link_of Ring n) }
    {
        build(Topology::Ring, n)
    }

    // n positions in so many rows, which must divide n.
    pub fn grid(n: usize, rows: usize) -> Result<NetworkGraph, Refusal>
        ensures { result ≡ grid_of n rows }
    {
        check_size(n)?;
        if rows == 0 {
            return Err(Refusal::BadLinks);
        }
        if n % rows != 0 {
            return Err(Refusal::BadLinks);
        }
        build(Topology::Grid(n / rows), n)
    }

    // Each has up to so many children; any number will do.
    pub fn tree(n: usize, branching_factor: usize) -> Result<NetworkGraph, Refusal>
        ensures { result ≡ built_of n (link_of (Tree branching_factor) n) }
    {
        build(Topology::Tree(branching_factor), n)
    }

    // The topology with this number (RULES 2.2), for n positions. C and frames name it by a number and one argument, so
    // the match below is where these become a `Topology`: nobody has one at hand.
    #[tactic(auto, unfolding(crate::specs::Links::topology_of))]
    pub fn from_topology(topology: u64, n: usize, argument: usize) -> Result<NetworkGraph, Refusal>
        ensures { result ≡ topology_of topology n argument }
    {
        check_size(n)?;
        match topology {
            1 => plain(Topology::FullMesh, n, argument),
            2 => plain(Topology::Line, n, argument),
            3 => plain(Topology::Ring, n, argument),
            4 => NetworkGraph::grid(n, argument),
            5 => NetworkGraph::tree(n, argument),
            _ => Err(Refusal::BadLinks),
        }
    }

    // The graph of these rows, one for each position.
    #[tactic(auto, using(crate::proofs::Rules::size_parts), unfolding(crate::specs::Links::rows_of))]
    pub fn from_rows(rows: &[u64]) -> Result<NetworkGraph, Refusal>
        ensures { result ≡ rows_of rows.now }
    {
        check_size(rows.len())?;
        check_rows(rows)?;
        let mut adj = [0u64; limits::POSITIONS];
        adj[..rows.len()].copy_from_slice(rows);
        Ok(NetworkGraph { n: rows.len(), adj })
    }

    // What is wrong with a graph that somebody put together: 2 and 3.
    #[tactic(auto, using(crate::proofs::Rules::size_parts, crate::proofs::Rules::rows_front), unfolding(crate::specs::Links::graph_test))]
    pub fn check(&self) -> Result<(), Refusal>
        ensures { result ≡ graph_test self.now }
    {
        check_size(self.n)?;
        check_rows(&self.adj[..self.n])
    }

    // Refusals 2, 3 and 8 of a call on position i.
    #[tactic(auto, using(crate::proofs::Rules::position_checked), unfolding(crate::specs::Links::node_test))]
    fn check_node(&self, i: usize) -> Result<(), Refusal>
        ensures { result ≡ node_test self.now i }
    {
        self.check()?;
        check_position(self.n, i)
    }

    fn check_pair(&self, i: usize, j: usize) -> Result<(), Refusal>
        ensures { result ≡ pair_test self.now i j }
    {
        self.check_node(i)?;
        self.check_node(j)
    }

    pub fn num_nodes(&self) -> usize
        ensures { result ≡ self.now.n }
    {
        self.n
    }

    // Who hears i, as a set of marks.
    #[tactic(auto, using(crate::proofs::Rules::node_parts))]
    pub fn row(&self, i: usize) -> Result<u64, Refusal>
        ensures { result ≡ row_of self.now i }
    {
        self.check_node(i)?;
        Ok(self.adj[i])
    }

    // Who hears i, in rising order.
    #[tactic(auto, using(crate::proofs::Rules::node_parts))]
    pub fn neighbors(&self, i: usize) -> Result<NeighborList, Refusal>
        ensures { result ≡ neighbors_of self.now i }
    {
        self.check_node(i)?;
        Ok(list_marks(self.adj[i]))
    }

    // Whether j hears i.
    #[tactic(auto, using(crate::proofs::Rules::node_parts, crate::proofs::Answers::linked_row))]
    pub fn has_link(&self, i: usize, j: usize) -> Result<bool, Refusal>
        ensures { result ≡ has_link_of self.now i j }
    {
        self.check_pair(i, j)?;
        Ok(sets::is_marked(self.adj[i], j))
    }

    // The wave from a position after so many steps. Behind an empty front it does not change any more, so the walk ends
    // there. A graph's fields are open, so a bound on n is no fact of its type, and clauses say what is asked: the two
    // calls that come here have tested the graph once, and `diameter` asks for n waves.
    fn wave_from(&self, start: usize, steps: usize) -> Wave
        requires { (self.now.n ≤ positions) × (start < self.now.n) × (steps ≤ self.now.n) }
        ensures { result ≡ wave_of self.now start steps }
    {
        let mut w = Wave {
            front: sets::with_mark(0, start),
            unseen: sets::without_mark(sets::first_marks(self.n), start),
            links: 0,
        };
        for k in 0..steps {
            if w.front == 0 {
                return w;
            }
            w = wave_step(&self.adj, w, k + 1);
        }
        w
    }

    // Whether what i sends can come to j, by however many links.
    #[tactic(auto, using(crate::proofs::Rules::node_parts))]
    pub fn reaches(&self, i: usize, j: usize) -> Result<bool, Refusal>
        ensures { result ≡ reaches_of self.now i j }
    {
        self.check_pair(i, j)?;
        Ok(!sets::is_marked(self.wave_from(i, self.n).unseen, j))
    }

    // The longest shortest path over all ordered pairs that a path joins.
    #[tactic(auto, using(crate::proofs::Rules::graph_parts))]
    pub fn diameter(&self) -> Result<usize, Refusal>
        ensures value { result ≡ length_of self.now }
        ensures longest { IfOk result (Longest self.now) }
    {
        self.check()?;
        let mut d: usize = 0;
        for i in 0..self.n {
            d = d.max(self.wave_from(i, self.n).links);
        }
        Ok(d)
    }
}
