// RULES 4.1. How a position votes on a proposal: by its hash with the term, so that whoever asks gets the same answer.
ghost use Rattle.std.specs.Prelude.{◌≡◌};
ghost use Rattle.merges.specs.Votes.{hash_of, share_of, no_of};

// What a vote and a merge turn on: the number of positions, how likely a no is, and the seed. A room's settings hold
// them.
#[derive(Clone, Copy)]
pub struct Voting {
    pub n: usize,
    pub abort_probability: f64,
    pub seed: u64,
}

#[tactic(auto, unfolding(crate::specs::Votes::hash_of))]
fn vote_hash(term: u64, node_id: u64, seed: u64) -> u64
    ensures { result ≡ hash_of term node_id seed }
{
    let who = node_id.wrapping_add(1);
    let both = term.wrapping_mul(1000003).wrapping_add(who);
    let salt = seed.wrapping_add(11400714819323198485);
    both.wrapping_mul(salt)
}

// A remainder below 10000 is a whole number that an f64 holds, so the division alone rounds.
#[tactic(auto, unfolding(crate::specs::Votes::share_of))]
fn vote_share(h: u64) -> f64
    ensures { result ≡ share_of h }
{
    let rest = (h % 10000) as u32;
    rest as f64 / 10000.0
}

// Whether the position votes no.
#[tactic(auto, unfolding(crate::specs::Votes::no_of))]
pub fn should_abort_app(voting: Voting, term: u64, node_id: usize) -> bool
    ensures { result ≡ no_of voting term node_id }
{
    let p = voting.abort_probability;
    if p <= 0.0 {
        return false;
    }
    let h = vote_hash(term, node_id as u64, voting.seed);
    vote_share(h) < p
}
