// RULES 7.1 and 7.2. Ported from node.rs: a position's state, its counts, and one slot's tick. The payload is held
// beside the node. How many of the 64 are positions is the graph's to say, so n is passed beside them and kept once.
// No slice of the first n is passed: the rules' equations (specs/Nodes.antt) are on all 64 places, so each caller would
// cut the slice, and join its equation to the places behind it again, which `change_all` does for all of them.
ghost use Rattle.std.specs.Prelude.{◌≡◌, ℕ, ◌&&◌, ◌||◌, ◌==◌, ◌<◌, nat_lt};
ghost use Rattle.loops.specs.Upto.{upto};
ghost use Rattle.marks.specs.Marks.{has};
ghost use Rattle.engines.specs.Clamp.{at_most64};
ghost use Rattle.engines.specs.Marked.{place};
ghost use Rattle.engines.specs.declared.node.Node.{Node};
ghost use Rattle.engines.specs.Nodes.{no_node, reset_round, ticked, ticked_all, is_listen, is_flood, is_sleep, sets_of, state_number, state_numbered};

use graph::sets;

#[derive(Clone, Copy)]
pub enum NodeState {
    Listen = 0,
    Flood = 1,
    Sleep = 2,
}

// Each state's number for C.
impl From<NodeState> for u64 {
    ghost from_gives = { λ s n. n ≡ state_number s };

    fn from(state: NodeState) -> u64 {
        state as u64
    }
}

// And the way back: a number above 2 reads as Sleep. (Two enums more have such a match, in engines_c and packets_c: the
// variants are all that it has, so that one for all three would be told them.)
impl From<u64> for NodeState {
    ghost from_gives = { λ n s. s ≡ state_numbered n };

    fn from(n: u64) -> NodeState {
        match n {
            0 => NodeState::Listen,
            1 => NodeState::Flood,
            _ => NodeState::Sleep,
        }
    }
}

// The small fields stand together, so that a position takes 48 bytes.
#[derive(Clone, Copy)]
pub struct Node {
    pub state: NodeState,
    pub goal_reached: bool,
    pub flood_remaining: u32,
    pub last_progress_slot: u64,
    pub progress_count: u64,
    pub slots_listen: u64,
    pub slots_flood: u64,
    pub slots_sleep: u64,
}

impl Node {
    pub fn new() -> Node
        ensures { result ≡ no_node }
    {
        Node {
            state: NodeState::Listen,
            flood_remaining: 0,
            last_progress_slot: 0,
            goal_reached: false,
            progress_count: 0,
            slots_listen: 0,
            slots_flood: 0,
            slots_sleep: 0,
        }
    }

    // What belongs to one round starts anew; counts and progress stay.
    #[tactic(auto, unfolding(crate::specs::Nodes::reset_round))]
    pub fn reset_round(self) -> Node
        ensures { result ≡ reset_round self }
    {
        Node {
            state: NodeState::Listen,
            flood_remaining: 0,
            last_progress_slot: 0,
            ..self
        }
    }

    // The count of the present state, one higher.
    #[tactic(auto, unfolding(crate::specs::Nodes::ticked))]
    pub fn tick(self) -> Node
        ensures { result ≡ ticked self }
    {
        let mut w = self;
        match self.state {
            NodeState::Listen => w.slots_listen = w.slots_listen.wrapping_add(1),
            NodeState::Flood => w.slots_flood = w.slots_flood.wrapping_add(1),
            NodeState::Sleep => w.slots_sleep = w.slots_sleep.wrapping_add(1),
        }
        w
    }
}

// What a position becomes, by its number. A trait and no closure: a closure may demand something of its caller, so that
// `change_all` would have to demand it in turn, while a change demands nothing. What it makes of a number above 63,
// which no position has, is left open.
pub trait Change {
    ghost changed: { Self → ℕ → Node → Node };

    fn change(&self, i: usize, v: Node) -> Node
        ensures { i < 64 → result ≡ changed self.now i v };
}

// Each of the first n positions changed.
pub fn change_all<C: Change>(nodes: [Node; 64], n: usize, c: &C) -> [Node; 64]
    ensures { result ≡ upto (at_most64 n) (place no_node (C.changed c.now)) nodes }
{
    let mut changed = nodes;
    for (i, v) in changed[..n.min(64)].iter_mut().enumerate() {
        *v = c.change(i, *v);
    }
    changed
}

#[derive(Clone, Copy)]
struct Ticking;

impl Change for Ticking {
    ghost changed = { λ _ _ v. ticked v };

    fn change(&self, _: usize, v: Node) -> Node {
        v.tick()
    }
}

// One slot's tick of the first n positions.
pub fn tick_all(at: [Node; 64], n: usize) -> [Node; 64]
    ensures { result ≡ ticked_all n at }
{
    change_all(at, n, &Ticking)
}

// The positions in each state, a mark each.
#[derive(Clone, Copy)]
pub struct StateSets {
    pub listening: u64,
    pub flooding: u64,
    pub sleeping: u64,
}

// One position entered into the set of its state.
fn note_state(s: StateSets, state: NodeState, i: usize) -> StateSets
    ensures by_index { (j : ℕ) → has result.listening j ≡ (has s.listening j || (is_listen state && (nat_lt j 64 && j == i))) }
    ensures by_index_2 { (j : ℕ) → has result.flooding j ≡ (has s.flooding j || (is_flood state && (nat_lt j 64 && j == i))) }
    ensures by_index_3 { (j : ℕ) → has result.sleeping j ≡ (has s.sleeping j || (is_sleep state && (nat_lt j 64 && j == i))) }
{
    let mut t = s;
    match state {
        NodeState::Listen => t.listening = sets::with_mark(t.listening, i),
        NodeState::Flood => t.flooding = sets::with_mark(t.flooding, i),
        NodeState::Sleep => t.sleeping = sets::with_mark(t.sleeping, i),
    }
    t
}

// Which of the first n positions listen, which flood and which sleep.
pub fn state_sets(at: [Node; 64], n: usize) -> StateSets
    ensures { result ≡ sets_of n at }
{
    let mut s = StateSets {
        listening: 0,
        flooding: 0,
        sleeping: 0,
    };
    for (i, v) in at[..n.min(64)].iter().enumerate() {
        s = note_state(s, v.state, i);
    }
    s
}
