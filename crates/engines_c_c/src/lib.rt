// RULES 17. What C links of engines_c: each entry is the function of that crate of the same name, with its clauses.
#![tactic(auto)]

ghost use Rattle.engines_c.specs.Console.{conf_of, Answered};

// One round of at most `slots` slots. The state: slot, next row slot, bytes sent, rows used, cursor, whether the goal
// was met; at 8 the counts of the room, at 16 the nodes, at 528 what positions hold. Refused by 2, 3, 4, 6, 8 and 9,
// and by 15, 16 and 17 of the round, the lowest first.
#[unsafe(no_mangle)]
pub extern "C" fn ce_round(
    state: &mut [u64],
    words: &[u64],
    links: &[u64],
    rows: &mut [u64],
    n: usize,
    abort_probability: f64,
    seed: u64,
    listen_timeout: u64,
    loss_rate: f64,
    interval: u64,
    initiator: usize,
    slots: u64,
) -> u64
    ensures { Answered state.old words.now rows.old
        (conf_of links.now n abort_probability seed listen_timeout loss_rate interval slots) initiator
        result state.new rows.new }
{
    engines_c::console::ce_round(
        state,
        words,
        links,
        rows,
        n,
        abort_probability,
        seed,
        listen_timeout,
        loss_rate,
        interval,
        initiator,
        slots,
    )
}
