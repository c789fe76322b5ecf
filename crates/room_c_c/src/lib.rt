// RULES 17. What C links of room_c: each entry is the function of that crate of the same name, with its clauses.
#![tactic(auto)]

ghost use Rattle.std.specs.Prelude.{◌≡◌};
ghost use Rattle.room_c.specs.Console.{opening_by, run_from};

// The opening, then the calls in their order. The answer is the opening's refusal, 0 for none; a refused opening
// leaves every list as it was.
#[unsafe(no_mangle)]
pub extern "C" fn room_run(
    setup: &[u64],
    loss_rate: f64,
    abort_probability: f64,
    links: &[u64],
    words: &[u64],
    rows: &mut [u64],
    calls: &[u64],
    told: &mut [u64],
    floats: &mut [f64],
    text: &mut [u8],
    out: &mut [u64],
) -> u64
    ensures { record {
      answer = result;
      rows = rows.new;
      told = told.new;
      floats = floats.new;
      text = text.new;
      out = out.new;
    } ≡
        run_from (opening_by setup.now loss_rate abort_probability links.now)
        words.now calls.now rows.old told.old floats.old
        text.old out.old }
{
    room_c::console::room_run(
        setup,
        loss_rate,
        abort_probability,
        links,
        words,
        rows,
        calls,
        told,
        floats,
        text,
        out,
    )
}
