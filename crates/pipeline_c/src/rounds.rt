// RULES 17. Rounds one after the other, up to the first that is refused.
ghost use Rattle.std.specs.Prelude.{◌≡◌, Ok};
ghost use Rattle.pipeline_c.specs.Play.{play_round, play_rounds};

use engines::network::Network;
use limits::refusals::Refusal;
use pipeline::pipeline as pipes;
use pipeline::pipeline::{PipelineConf, PipelinePart};

// Where rounds have come to: the cursor, the rows used, how many rounds were accepted, and the room.
#[derive(Clone, Copy)]
pub struct Played {
    pub cursor: usize,
    pub used: usize,
    pub count: u64,
    pub network: Network,
    pub part: PipelinePart,
}

#[tactic(auto, unfolding(crate::specs::Play::play_round, crate::specs::Play::count_after))]
fn play_round(
    words: &[u64],
    rows: &mut [u64],
    conf: PipelineConf,
    t: &mut Played,
) -> Result<(), Refusal>
    ensures { record { told = result; rows = rows.new; played = t.new } ≡ play_round words.now conf (record { told = Ok tt; rows = rows.old; played = t.old }) }
{
    let w = &mut t.network;
    pipes::pipeline_round(
        words,
        &mut t.cursor,
        rows,
        &mut t.used,
        conf,
        w,
        &mut t.part,
    )?;
    t.count = t.count.wrapping_add(1);
    Ok(())
}

// At most so many rounds.
pub fn play_rounds(
    words: &[u64],
    rows: &mut [u64],
    conf: PipelineConf,
    t: &mut Played,
    rounds: u64,
) -> Result<(), Refusal>
    ensures { record { told = result; rows = rows.new; played = t.new } ≡ play_rounds words.now conf rounds (record { told = Ok tt; rows = rows.old; played = t.old }) }
{
    for _round in 0..rounds {
        play_round(words, rows, conf, t)?;
    }
    Ok(())
}
