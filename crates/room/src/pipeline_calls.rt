// RULES 11.6. What the call of a pipeline room does to the parts that it moves. A room's call is thin over this.
ghost use Rattle.std.specs.Prelude.{◌≡◌, length};
ghost use Rattle.room.specs.Pipelining.{pipe_conf, pipeline_test, pipeline_part, pipeline_rows};

use super::room::{RoomConf, RoomKind};
use engines::network::Network;
use graph::network::check_size;
use limits::refusals::Refusal;
use pipeline::pipeline as engine;
use pipeline::pipeline::{PipelineConf, PipelinePart};

fn pipe_conf(c: RoomConf) -> PipelineConf
    ensures { result ≡ pipe_conf c }
{
    let round = c.round;
    PipelineConf {
        round,
        transactions: c.transactions,
        bound: c.bound,
    }
}

// The refusals that are known before a round runs.
#[tactic(auto, unfolding(crate::specs::Pipelining::pipeline_test))]
pub fn check_pipeline(conf: RoomConf, stop: bool, slot: u64) -> Result<(), Refusal>
    ensures { result ≡ pipeline_test conf stop slot }
{
    check_size(conf.round.graph.n)?;
    conf.kind.check(RoomKind::Pipeline)?;
    engine::check_early(pipe_conf(conf), slot, stop)
}

// One pipeline round: prepare, flood, process. A refused round changes nothing.
#[tactic(auto, unfolding(crate::specs::Pipelining::pipeline_part, crate::specs::Pipelining::pipeline_rows))]
pub fn pipeline_round(
    words: &[u64],
    cursor: &mut usize,
    rows: &mut [u64],
    used: &mut usize,
    conf: RoomConf,
    w: &mut Network,
    p: &mut PipelinePart,
) -> Result<(), Refusal>
    ensures value { record { told = result; cursor = cursor.new; used = used.new; network = w.new; part = p.new } ≡ pipeline_part words.now (length rows.old) used.old conf w.old p.old cursor.old }
    ensures rows_after { rows.new ≡ pipeline_rows words.now rows.old used.old conf w.old p.old cursor.old }
{
    check_pipeline(conf, p.stop, w.slot)?;
    engine::pipeline_round(words, cursor, rows, used, pipe_conf(conf), w, p)
}
