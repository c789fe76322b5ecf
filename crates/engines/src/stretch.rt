// RULES none. Several slots at once, in which no position changes its state: only counts rise.
ghost use Rattle.std.specs.Prelude.{◌≡◌};
ghost use Rattle.engines.specs.Stretch.{passed, passed_all};

use super::node;
use super::node::{Change, Node, NodeState};

// A position after k slots in its state.
#[tactic(auto, unfolding(crate::specs::Stretch::passed))]
fn pass(v: Node, k: u64) -> Node
    ensures { result ≡ passed k v }
{
    let s = v.state;
    let mut w = v;
    match s {
        NodeState::Listen => w.slots_listen = w.slots_listen.wrapping_add(k),
        NodeState::Flood => {
            w.flood_remaining = (v.flood_remaining as u64).saturating_sub(k) as u32;
            w.slots_flood = w.slots_flood.wrapping_add(k);
        }
        NodeState::Sleep => w.slots_sleep = w.slots_sleep.wrapping_add(k),
    }
    w
}

// So many slots, for each.
#[derive(Clone, Copy)]
struct Passing(u64);

impl Change for Passing {
    ghost changed = { λ p _ v. passed p.0 v };

    fn change(&self, _: usize, v: Node) -> Node {
        pass(v, self.0)
    }
}

// The first n positions after k such slots. (64 places and n: see node.rt.)
pub fn pass_all(at: [Node; 64], n: usize, k: u64) -> [Node; 64]
    ensures { result ≡ passed_all n k at }
{
    node::change_all(at, n, &Passing(k))
}
