// RULES none. Several slots of a flood at once, in which nothing but counts changes: all flooders have floods left,
// and nobody who listens hears any of them. A round may have four billion such slots.
ghost use Rattle.std.specs.Prelude.{◌≡◌, ◌<◌, false};
ghost use Rattle.engines.specs.Rounds.{Stepped};
ghost use Rattle.flood.specs.Flood.{flood_slot, is_over};
ghost use Rattle.flood.specs.Quiet.{quietened, QuietFor, QuietOf, QuietSlots};

use super::flood;
use super::flood::{FloodRun, Slots};
use engines::network::{Network, RoundConf, Step};
use engines::node::{Node, NodeState};
use engines::{node, stretch};

// How many of the next `most` slots leave a position as it is but for counts. A flooder's last flood is none of them:
// it sleeps after it.
fn quiet_for(v: Node, row: u64, listening: u64, most: u64) -> u64
    ensures { QuietFor row listening most v result }
{
    match v.state {
        NodeState::Listen | NodeState::Sleep => most,
        NodeState::Flood => {
            if v.flood_remaining <= 1 || flood::find_hearers(row, listening) != 0 {
                return 0;
            }
            let more = (v.flood_remaining - 1) as u64;
            more.min(most)
        }
    }
}

// The same of the first n positions; the first that has none ends the search. (64 places and n: see engines
// src/node.rt.)
fn quiet_for_all(at: [Node; 64], n: usize, links: &[u64; 64], listening: u64, most: u64) -> u64
    ensures { QuietOf links.now n listening most at result }
{
    let mut k = most;
    for (i, v) in at[..n.min(64)].iter().enumerate() {
        k = quiet_for(*v, links[i], listening, k);
        if k == 0 {
            return 0;
        }
    }
    k
}

// How many of the next slots can be taken at once, of `left` that are still to come. This runs before every slot, so
// the first tests are those that need no set: with two repeats a flooder has one flood before its last at most, and a
// row that is due at once or after one slot leaves no two slots to join.
fn quiet_slots(conf: RoundConf, f: FloodRun, left: u64) -> u64
    requires { f.over ≡ false }
    ensures { QuietSlots conf left f result }
{
    if conf.settings.flood_repeats <= 2 {
        return 0;
    }
    let w = f.network;
    if w.next_row <= w.slot {
        return 0;
    }
    let most = left.min(w.next_row - w.slot);
    if most <= 1 {
        return 0;
    }
    let g = conf.graph;
    let s = node::state_sets(w.nodes, g.n);
    if s.flooding == 0 {
        return 0;
    }
    quiet_for_all(w.nodes, g.n, &g.adj, s.listening, most)
}

impl Slots<'_> {
    // k such slots.
    #[tactic(auto, unfolding(crate::specs::Quiet::quietened))]
    fn pass(&self, f: FloodRun, k: u64) -> FloodRun
        ensures { result ≡ quietened self.now.conf self.now.bytes k f }
    {
        let n = self.conf.graph.n;
        let w = f.network;
        let s = node::state_sets(w.nodes, n);
        let each = flood::sent_by(s.flooding, self.bytes);
        FloodRun {
            network: Network {
                nodes: stretch::pass_all(w.nodes, n, k),
                slot: w.slot.wrapping_add(k),
                bytes_sent: w.bytes_sent.wrapping_add(k.wrapping_mul(each)),
                ..w
            },
            ..f
        }
    }

    // One slot, or as many as can be taken at once.
    pub(crate) fn advance(&self, f: FloodRun, left: u64) -> Step<FloodRun>
        requires { (0 < left) × (f.over ≡ false) }
        ensures { Stepped (λ g. g.network) is_over (flood_slot self.now.words.now self.now.conf self.now.bytes) self.now.conf left f result.left result.run }
    {
        let k = quiet_slots(self.conf, f, left);
        if k == 0 {
            return Step {
                run: self.flood_slot(f),
                left: left - 1,
            };
        }
        Step {
            run: self.pass(f, k),
            left: left - k,
        }
    }
}
