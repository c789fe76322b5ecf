// RULES 17 and 4.1. The vote alone, for the differential runs.
ghost use Rattle.std.specs.Prelude.{◌≡◌};
ghost use mir.Val.{bool_byte};
ghost use Rattle.merges.specs.Votes.{no_of};
ghost use Rattle.packets_c.specs.Desk.{voters};

use merges::votes;
use merges::votes::Voting;

// 1 if the position votes no in the term, 0 if it votes yes. Nothing is refused.
#[unsafe(no_mangle)]
pub extern "C" fn ce_vote(term: u64, node_id: u64, abort_probability: f64, seed: u64) -> u64
    ensures { result ≡ bool_byte (no_of (voters 0 abort_probability seed) term node_id) }
{
    let voting = Voting {
        n: 0,
        abort_probability,
        seed,
    };
    votes::should_abort_app(voting, term, node_id as usize) as u64
}
