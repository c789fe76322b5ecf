// RULES 17. The entry for differential runs: a room is opened and called by lent numbers, and what its calls tell goes
// back as numbers.
//   setup: kind (1 pipeline, every other number capture), transactions, start term, interval, bound, seed, listen
//     timeout, repeats (its low 32 digits), slots of a round, whether these are given
//   links: a row for each position
//   calls: four numbers each, which call it is and a, b, c. Fewer than four numbers at the end are no call
//     1 propose by a
//     2 capture round, 3 pipeline round: from cursor b on, with c rows used
//     4 kind, 5 num_nodes, 6 settings, 7 slot, 8 next_row, 9 bytes_sent, 10 metrics, 11 link_pdr, 12 flood_coverage,
//     13 term, 14 round, 15 stopped, 16 initiator, 17 proposal_outcome
//     18 node a, 19 packet_text of a, 20 log_len of a, 21 log_entry of a at b, 22 pending of a, transaction b
//     23 record at a
//     any other number: no call
//   told: 40 numbers for each call: its refusal, and behind it what it answers, of a round the cursor and the rows
//     used, of a reading its fields in order, of a text the length. The rest of the 40 stays as it is
//   floats: two for each call: of the settings loss and abort probability, of a ratio its value
//   text: the buffer that packet_text writes to
//   out: a room as in the pipeline's console, but for the cursor and the rows used, which are 0; from 9749 on term,
//     initiator, whether anybody proposed, whether the progress was raised; from 9753 on what positions hold, 38
//     numbers each; 12185 in all
// A place past the end of a list reads as 0, and nothing is put there. Loss and abort probability go over as floats,
// because a NaN has no number here.
ghost use Rattle.std.specs.Prelude.{◌≡◌, [], ◌∷◌, ◌<◌, ◌≤◌, ◌^◌};
ghost use Rattle.std.proofs.lemmas.List.Edits.{sets};
ghost use Rattle.limits.specs.Refusals.{answer_of};
ghost use Rattle.demand.specs.Calls.{Propose, handed};
ghost use Rattle.room_c.specs.Answers.{told_in};
ghost use Rattle.room_c.specs.Console.{settings_by, asked_by, opening_by, whole_said, part_said};
ghost use Rattle.room_c.specs.Console.{call_said, call_of, turn, play};
ghost use Rattle.room_c.specs.Console.{played_by, term_numbers, put_room, run_from};

use super::answers;
use engines::settings::Settings;
use engines_c::{numbers, payloads};
use graph::network::NetworkGraph;
use limits::refusals;
use limits::refusals::Refusal;
use pipeline_c::console as pipes;
use pipeline_c::rounds::Played;
use readings::readings as reading;
use room::room::{Asked, Room, RoomKind};

// The places of a call in the two lists.
const NUMBERS: usize = 40;

const FLOATS: usize = 2;

// ---- the opening

#[tactic(auto, unfolding(crate::specs::Console::settings_by))]
fn settings_by(xs: &[u64], loss_rate: f64, abort_probability: f64) -> Settings
    ensures { result ≡ settings_by xs.now loss_rate abort_probability }
{
    Settings {
        loss_rate,
        abort_probability,
        seed: numbers::number(xs, 5),
        listen_timeout: numbers::number(xs, 6),
        flood_repeats: (numbers::number(xs, 7) % 4294967296) as u32,
        round_slots: numbers::number(xs, 8),
        slots_given: numbers::number(xs, 9) != 0,
    }
}

#[tactic(auto, unfolding(crate::specs::Console::asked_by))]
fn asked_by(xs: &[u64], loss_rate: f64, abort_probability: f64, graph: NetworkGraph) -> Asked
    ensures { result ≡ asked_by xs.now loss_rate abort_probability graph }
{
    let kind = RoomKind::from(numbers::number(xs, 0));
    let settings = settings_by(xs, loss_rate, abort_probability);
    Asked {
        kind,
        graph,
        settings,
        transactions: numbers::number(xs, 1) as usize,
        term: numbers::number(xs, 2),
        interval: numbers::number(xs, 3),
        bound: numbers::number(xs, 4),
    }
}

// The refusal of the rows, or else of the opening with the graph that they make.
#[tactic(auto, unfolding(crate::specs::Console::opening_by))]
fn open_by(
    xs: &[u64],
    loss_rate: f64,
    abort_probability: f64,
    links: &[u64],
) -> Result<Room, Refusal>
    ensures { result ≡ opening_by xs.now loss_rate abort_probability links.now }
{
    let graph = NetworkGraph::from_rows(links)?;
    Room::open(asked_by(xs, loss_rate, abort_probability, graph))
}

// ---- the calls

#[tactic(auto, unfolding(crate::specs::Console::call_said, demand::specs::Calls::handed))]
fn propose(told: &mut [u64], at: usize, r: &mut Room, v: usize)
    ensures room_after { r.new ≡ handed (Propose v) r.old }
    ensures told_after { told.new ≡ sets told.old at (told_in (call_said (Propose v) r.old)) }
{
    let q = r.propose(v);
    numbers::put(told, at, refusals::answer(q));
}

// What a round told, and behind it the cursor and the rows used.
fn tell_round(told: &mut [u64], at: usize, q: Result<(), Refusal>, cursor: usize, used: usize)
    ensures { told.new ≡ sets told.old at (answer_of q ∷ cursor ∷ used ∷ []) }
{
    let values = [refusals::answer(q), cursor as u64, used as u64];
    numbers::put_run(told, at, 0, &values);
}

// A reading of the whole room. The numbers are C's, and each is told where it is read: an enum of the readings would
// name all of them twice more.
#[tactic(auto, unfolding(crate::specs::Answers::said, readings::specs::Calls::answer_of))]
fn read_whole(told: &mut [u64], at: usize, floats: &mut [f64], f: usize, which: u64, r: &Room)
    requires { 4 ≤ which }
    ensures told_after { told.new ≡ sets told.old at (told_in (whole_said which r.now)) }
    ensures floats_after { floats.new ≡ sets floats.old f (whole_said which r.now).floats }
{
    match which {
        4 => answers::tell_number(told, at, Ok(u64::from(reading::kind(r)))),
        5 => answers::tell_number(told, at, Ok(reading::num_nodes(r) as u64)),
        6 => answers::tell_settings(told, at, floats, f, reading::settings(r)),
        7 => answers::tell_number(told, at, Ok(reading::slot(r))),
        8 => answers::tell_number(told, at, Ok(reading::next_row(r))),
        9 => answers::tell_number(told, at, Ok(reading::bytes_sent(r))),
        10 => answers::tell_metrics(told, at, reading::metrics(r)),
        11 => answers::tell_ratio(told, at, floats, f, reading::link_pdr(r)),
        12 => answers::tell_ratio(told, at, floats, f, reading::flood_coverage(r)),
        13 => answers::tell_number(told, at, reading::term(r)),
        14 => answers::tell_number(told, at, reading::round(r)),
        15 => answers::tell_number(told, at, reading::stopped(r)),
        16 => answers::tell_number(told, at, reading::initiator(r)),
        _ => answers::tell_outcome(told, at, reading::proposal_outcome(r)),
    }
}

// A reading of a position or a place, by C's number too.
#[tactic(auto, unfolding(crate::specs::Answers::said, readings::specs::Calls::answer_of))]
fn read_part(told: &mut [u64], at: usize, text: &mut [u8], which: u64, a: usize, b: usize, r: &Room)
    requires { 18 ≤ which }
    ensures told_after { told.new ≡
        sets told.old at (told_in (part_said text.old a b which r.now)) }
    ensures text_after { text.new ≡ (part_said text.old a b which r.now).text text.old }
{
    match which {
        18 => answers::tell_node(told, at, reading::node(r, a)),
        19 => answers::tell_text(told, at, reading::packet_text(r, a, text)),
        20 => answers::tell_number(told, at, reading::log_len(r, a)),
        21 => answers::tell_entry(told, at, reading::log_entry(r, a, b)),
        22 => answers::tell_pending(told, at, reading::pending(r, a, b)),
        _ => answers::tell_record(told, at, reading::record(r, a)),
    }
}

// One call, the i-th, on the five lists as C lends them. What is none tells refusal 0. Its number is C's, which lends a
// call as four numbers: an enum of the calls would be made from them in one match and taken apart in another.
#[tactic(auto, using(crate::proofs::Making::proposed, crate::proofs::Making::none_made))]
fn call(
    words: &[u64],
    rows: &mut [u64],
    told: &mut [u64],
    floats: &mut [f64],
    text: &mut [u8],
    i: usize,
    which: u64,
    a: usize,
    b: usize,
    c: usize,
    r: &mut Room,
)
    requires { i < 2 ^ 58 }
    ensures { record {
      rows = rows.new;
      told = told.new;
      floats = floats.new;
      text = text.new;
      room = r.new;
    } ≡
        call_of words.now i which a b c
        (record {
          rows = rows.old;
          told = told.old;
          floats = floats.old;
          text = text.old;
          room = r.old;
        }) }
{
    let at = i * NUMBERS;
    let f = i * FLOATS;
    let mut cursor = b;
    let mut used = c;
    match which {
        1 => propose(told, at, r, a),
        2 => {
            let q = r.capture_round(words, &mut cursor, rows, &mut used);
            tell_round(told, at, q, cursor, used);
        }
        3 => {
            let q = r.pipeline_round(words, &mut cursor, rows, &mut used);
            tell_round(told, at, q, cursor, used);
        }
        4..=17 => read_whole(told, at, floats, f, which, r),
        18..=23 => read_part(told, at, text, which, a, b, r),
        _ => numbers::put(told, at, 0),
    }
}

// Call i of the list.
fn call_at(
    words: &[u64],
    rows: &mut [u64],
    calls: &[u64],
    told: &mut [u64],
    floats: &mut [f64],
    text: &mut [u8],
    i: usize,
    r: &mut Room,
)
    requires { i < 2 ^ 58 }
    ensures { record {
      rows = rows.new;
      told = told.new;
      floats = floats.new;
      text = text.new;
      room = r.new;
    } ≡
        turn words.now calls.now i
        (record {
          rows = rows.old;
          told = told.old;
          floats = floats.old;
          text = text.old;
          room = r.old;
        }) }
{
    let k = i * 4;
    let which = numbers::number(calls, k);
    let a = numbers::number(calls, k + 1) as usize;
    let b = numbers::number(calls, k + 2) as usize;
    let c = numbers::number(calls, k + 3) as usize;
    call(words, rows, told, floats, text, i, which, a, b, c, r)
}

fn play_calls(
    words: &[u64],
    rows: &mut [u64],
    calls: &[u64],
    told: &mut [u64],
    floats: &mut [f64],
    text: &mut [u8],
    r: &mut Room,
)
    ensures { record {
      rows = rows.new;
      told = told.new;
      floats = floats.new;
      text = text.new;
      room = r.new;
    } ≡
        play words.now calls.now
        (record {
          rows = rows.old;
          told = told.old;
          floats = floats.old;
          text = text.old;
          room = r.old;
        }) }
{
    let count = calls.len() / 4;
    for i in 0..count {
        call_at(words, rows, calls, told, floats, text, i, r);
    }
}

// ---- the account

fn played_by(r: &Room) -> Played
    ensures { result ≡ played_by r.now }
{
    Played {
        cursor: 0,
        used: 0,
        count: 0,
        network: r.network,
        part: r.pipeline,
    }
}

#[tactic(auto, unfolding(crate::specs::Console::term_numbers))]
fn term_numbers(r: &Room) -> [u64; 4]
    ensures { result ≡ term_numbers r.now }
{
    let x = &r.capture;
    [
        x.term,
        x.proposer() as u64,
        u64::from(x.initiator.is_some()),
        u64::from(x.raised),
    ]
}

#[tactic(auto, unfolding(crate::specs::Console::put_room))]
fn put_room(xs: &mut [u64], r: &Room)
    ensures { xs.new ≡ put_room r.now xs.old }
{
    pipes::put_played(xs, played_by(r));
    numbers::put_run(xs, 9749, 0, &term_numbers(r));
    payloads::put_held(xs, 9753, r.capture.held);
}

// ---- the entry

// The opening, then the calls in their order. The answer is the opening's refusal, 0 for none; a refused opening
// leaves every list as it was.
#[unsafe(no_mangle)]
#[tactic(auto, unfolding(crate::specs::Console::run_from))]
pub extern "C" fn room_run(
    setup: &[u64],
    loss_rate: f64,
    abort_probability: f64,
    links: &[u64],
    words: &[u64],
    rows: &mut [u64],
    calls: &[u64],
    told: &mut [u64],
    floats: &mut [f64],
    text: &mut [u8],
    out: &mut [u64],
) -> u64
    ensures { record {
      answer = result;
      rows = rows.new;
      told = told.new;
      floats = floats.new;
      text = text.new;
      out = out.new;
    } ≡
        run_from (opening_by setup.now loss_rate abort_probability links.now)
        words.now calls.now rows.old told.old floats.old
        text.old out.old }
{
    match open_by(setup, loss_rate, abort_probability, links) {
        Ok(room) => {
            let mut r = room;
            play_calls(words, rows, calls, told, floats, text, &mut r);
            put_room(out, &r);
            0
        }
        Err(refusal) => refusal.into(),
    }
}
