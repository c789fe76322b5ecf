// RULES 17. The entry for the differential runs: a capture round on a state that is a lent list of numbers. The answer
// is the refusal, 0 for none; a refused call writes nothing.
ghost use Rattle.std.specs.Prelude.{◌≡◌};
ghost use Rattle.limits.specs.Refusals.{answer_of};
ghost use Rattle.engines_c.specs.Console.{asked_test, links_of, conf_of, state_at, put_state, Answered};

use super::{numbers, payloads};
use capture::capture as engine;
use capture::capture::CeState;
use engines::network::RoundConf;
use engines::settings;
use engines::settings::Settings;
use engines::words::Draw;
use graph::network;
use graph::network::NetworkGraph;
use limits::refusals;
use limits::refusals::Refusal;

// What the numbers of a call say of a round: a row of links for each position, missing ones empty. A capture round
// reads no repeats.
#[tactic(auto, unfolding(crate::specs::Console::links_of, crate::specs::Numbers::words_at))]
fn conf_of(
    links: &[u64],
    n: usize,
    abort_probability: f64,
    seed: u64,
    listen_timeout: u64,
    loss_rate: f64,
    interval: u64,
    slots: u64,
) -> RoundConf
    ensures { result ≡
        conf_of links.now n abort_probability seed listen_timeout loss_rate interval slots }
{
    RoundConf {
        graph: NetworkGraph {
            n,
            adj: numbers::words_of(links, 0),
        },
        settings: Settings {
            loss_rate,
            abort_probability,
            seed,
            listen_timeout,
            flood_repeats: 0,
            round_slots: slots,
            slots_given: true,
        },
        interval,
        length: slots,
    }
}

// Why a call is refused before its round is run, the lowest number first.
#[tactic(auto, using(graph::proofs::Rules::position_checked), unfolding(crate::specs::Console::asked_test, crate::specs::Console::lowest_of))]
fn check(xs: &[u64], conf: RoundConf, initiator: usize) -> Result<(), Refusal>
    ensures { result ≡ asked_test conf initiator xs.now }
{
    conf.graph.check()?;
    if !settings::loss_accepted(conf.settings.loss_rate) {
        return Err(Refusal::BadLoss);
    }
    if conf.interval == 0 {
        return Err(Refusal::NoInterval);
    }
    network::check_position(conf.graph.n, initiator)?;
    if !payloads::held_fits(xs, 528, conf.graph.n) {
        return Err(Refusal::BadPacket);
    }
    Ok(())
}

#[tactic(auto, unfolding(crate::specs::Console::state_at))]
fn state_of(xs: &[u64]) -> CeState
    ensures { result ≡ state_at xs.now }
{
    CeState {
        network: numbers::network_of(xs, 2, 8, 16),
        held: payloads::held_of(xs, 528),
        draw: Draw {
            at: numbers::number(xs, 4) as usize,
            short: false,
        },
        ended: numbers::number(xs, 5) != 0,
    }
}

fn put_state(xs: &mut [u64], c: CeState, used: usize)
    ensures { xs.new ≡ put_state c used xs.old }
{
    let values = [used as u64, c.draw.at as u64, c.ended as u64];
    numbers::put_run(xs, 3, 0, &values);
    numbers::put_network(xs, 2, 8, 16, c.network);
    payloads::put_held(xs, 528, c.held);
}

// The round that the numbers of a state ask for.
fn play(
    state: &mut [u64],
    words: &[u64],
    rows: &mut [u64],
    conf: RoundConf,
    initiator: usize,
) -> Result<(), Refusal>
    ensures { Answered state.old words.now rows.old conf initiator (answer_of result) state.new rows.new }
{
    check(state, conf, initiator)?;
    let mut c = state_of(state);
    let mut used = numbers::number(state, 3) as usize;
    let cursor = numbers::number(state, 4) as usize;
    engine::run_ce_round(words, rows, &mut used, conf, &mut c, initiator, cursor)?;
    put_state(state, c, used);
    Ok(())
}

// One round of at most `slots` slots. The state: slot, next row slot, bytes sent, rows used, cursor, whether the goal
// was met; at 8 the counts of the room, at 16 the nodes, at 528 what positions hold. Refused by 2, 3, 4, 6, 8 and 9,
// and by 15, 16 and 17 of the round, the lowest first.
#[unsafe(no_mangle)]
pub extern "C" fn ce_round(
    state: &mut [u64],
    words: &[u64],
    links: &[u64],
    rows: &mut [u64],
    n: usize,
    abort_probability: f64,
    seed: u64,
    listen_timeout: u64,
    loss_rate: f64,
    interval: u64,
    initiator: usize,
    slots: u64,
) -> u64
    ensures { Answered state.old words.now rows.old
        (conf_of links.now n abort_probability seed listen_timeout loss_rate interval slots) initiator
        result state.new rows.new }
{
    let conf = conf_of(
        links,
        n,
        abort_probability,
        seed,
        listen_timeout,
        loss_rate,
        interval,
        slots,
    );
    refusals::answer(play(state, words, rows, conf, initiator))
}
