// RULES 17. What C links of pipeline_c: each entry is the function of that crate of the same name, with its clauses.
#![tactic(auto)]

ghost use Rattle.std.specs.Prelude.{◌≡◌};
ghost use Rattle.limits.specs.Refusals.{answer_of};
ghost use Rattle.engines_c.specs.Numbers.{truth};
ghost use Rattle.flood.specs.Flood.{flood_length};
ghost use Rattle.pipeline_c.specs.Play.{play_rounds};
ghost use Rattle.pipeline_c.specs.Console.{playing_at, put_played, conf_by, left_in, opened};

// A room as opened, no rows used, and the cursor at the first word.
#[unsafe(no_mangle)]
pub extern "C" fn pipeline_open(state: &mut [u64])
    ensures { state.new ≡ put_played opened state.old }
{
    pipeline_c::console::pipeline_open(state)
}

// How many slots a flood may take; given is 0 if the slots are not.
#[unsafe(no_mangle)]
pub extern "C" fn pipeline_flood_length(
    given: u64,
    slots: u64,
    diameter: usize,
    repeats: u32,
) -> u64
    ensures { result ≡ flood_length (truth given) slots diameter repeats }
{
    pipeline_c::console::pipeline_flood_length(given, slots, diameter, repeats)
}

// At most so many rounds of the room, up to the first that is refused. The answer is that refusal, or 0. Where no
// round was accepted, the state is left as it was.
#[unsafe(no_mangle)]
pub extern "C" fn pipeline_rounds(
    state: &mut [u64],
    words: &[u64],
    links: &[u64],
    rows: &mut [u64],
    n: usize,
    transactions: usize,
    loss_rate: f64,
    abort_probability: f64,
    repeats: u32,
    length: u64,
    interval: u64,
    bound: u64,
    rounds: u64,
) -> u64
    ensures value { result ≡ answer_of (play_rounds words.now (conf_by links.now n transactions loss_rate abort_probability repeats length interval bound) rounds (playing_at rows.old state.old)).told }
    ensures rows_value { rows.new ≡ (play_rounds words.now (conf_by links.now n transactions loss_rate abort_probability repeats length interval bound) rounds (playing_at rows.old state.old)).rows }
    ensures state_after { state.new ≡ left_in (play_rounds words.now (conf_by links.now n transactions loss_rate abort_probability repeats length interval bound) rounds (playing_at rows.old state.old)).played state.old }
{
    pipeline_c::console::pipeline_rounds(
        state,
        words,
        links,
        rows,
        n,
        transactions,
        loss_rate,
        abort_probability,
        repeats,
        length,
        interval,
        bound,
        rounds,
    )
}
