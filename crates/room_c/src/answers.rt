// What calls tell of their answers, in lent lists: numbers from a place on, the refusal in front, and floats from a
// place on. A place past the end gets nothing; no list is as long as the highest number, at which the sums of places
// stop. Where a call is refused, zeros stand behind the refusal, or what else is nothing: C is told as many numbers
// either way.
ghost use Rattle.std.specs.Prelude.{◌≡◌, [], ◌∷◌, set, Some, None};
ghost use Rattle.std.specs.Result.{result_unwrap_or};
ghost use Rattle.std.proofs.lemmas.List.Edits.{sets};
ghost use Rattle.limits.specs.Refusals.{answer_of};
ghost use Rattle.engines_c.specs.Numbers.{metrics_numbers};
ghost use Rattle.readings.specs.Calls.{the_settings, a_ratio, maybe_number, an_outcome, a_node, an_entry, a_pending, a_record};
ghost use Rattle.room_c.specs.Answers.{entry_numbers, nothing_held, no_record, said, told_in};

use engines::metrics::MetricsCollector;
use engines::node::Node;
use engines::settings::Settings;
use engines_c::{numbers, payloads};
use limits::refusals;
use limits::refusals::Refusal;
use merges::merging::ProposalOutcome;
use pipeline::packet;
use pipeline::two_pc_pipeline::LogEntry;
use readings::readings::{PendingReading, RecordReading};

pub fn tell_metrics(told: &mut [u64], at: usize, m: MetricsCollector)
    ensures { told.new ≡ sets told.old at (0 ∷ metrics_numbers m) }
{
    numbers::put(told, at, 0);
    numbers::put_metrics(told, at.saturating_add(1), m);
}

// ---- readings with a refusal

#[tactic(auto, unfolding(crate::specs::Answers::said))]
pub fn tell_number(told: &mut [u64], at: usize, q: Result<u64, Refusal>)
    ensures { told.new ≡ sets told.old at (told_in (said (maybe_number q))) }
{
    numbers::put_run(told, at, 0, &[refusals::answer(q), q.unwrap_or(0)]);
}

#[tactic(auto, unfolding(crate::specs::Answers::said))]
pub fn tell_outcome(told: &mut [u64], at: usize, q: Result<ProposalOutcome, Refusal>)
    ensures { told.new ≡ sets told.old at (told_in (said (an_outcome q))) }
{
    let outcome = q.unwrap_or(ProposalOutcome::TimedOut);
    numbers::put_run(told, at, 0, &[refusals::answer(q), u64::from(outcome)]);
}

pub fn tell_text(told: &mut [u64], at: usize, q: Result<usize, Refusal>)
    ensures { told.new ≡ sets told.old at (answer_of q ∷ result_unwrap_or q 0 ∷ []) }
{
    numbers::put_run(told, at, 0, &[refusals::answer(q), q.unwrap_or(0) as u64]);
}

#[tactic(auto, unfolding(crate::specs::Answers::said))]
pub fn tell_node(told: &mut [u64], at: usize, q: Result<Node, Refusal>)
    ensures { told.new ≡ sets told.old at (told_in (said (a_node q))) }
{
    numbers::put(told, at, refusals::answer(q));
    numbers::put_node(told, at, 1, q.unwrap_or(Node::new()));
}

// Whether there is an entry, its transaction, and whether that was committed.
fn entry_numbers(entry: Option<LogEntry>) -> [u64; 3]
    ensures { result ≡ entry_numbers entry }
{
    match entry {
        None => [0, 0, 0],
        Some(e) => [1, u64::from(e.tx), u64::from(e.committed)],
    }
}

#[tactic(auto, unfolding(crate::specs::Answers::said))]
pub fn tell_entry(told: &mut [u64], at: usize, q: Result<Option<LogEntry>, Refusal>)
    ensures { told.new ≡ sets told.old at (told_in (said (an_entry q))) }
{
    let [there, tx, committed] = entry_numbers(q.unwrap_or(None));
    numbers::put_run(told, at, 0, &[refusals::answer(q), there, tx, committed]);
}

fn nothing_held() -> PendingReading
    ensures { result ≡ nothing_held }
{
    PendingReading {
        pending: false,
        abort: false,
        votes: 0,
        start: 0,
        data: packet::data(false, 0),
    }
}

#[tactic(auto, unfolding(crate::specs::Answers::said))]
pub fn tell_pending(told: &mut [u64], at: usize, q: Result<PendingReading, Refusal>)
    ensures { told.new ≡ sets told.old at (told_in (said (a_pending q))) }
{
    let held = q.unwrap_or(nothing_held());
    let values = [
        refusals::answer(q),
        u64::from(held.pending),
        u64::from(held.abort),
        held.votes,
        held.start,
        held.data.len as u64,
    ];
    numbers::put_run(told, at, 0, &values);
    numbers::put_run(told, at, 6, &payloads::widened(held.data.bytes));
}

fn no_record() -> RecordReading
    ensures { result ≡ no_record }
{
    RecordReading {
        entry: None,
        start: 0,
        end: 0,
    }
}

#[tactic(auto, unfolding(crate::specs::Answers::said))]
pub fn tell_record(told: &mut [u64], at: usize, q: Result<RecordReading, Refusal>)
    ensures { told.new ≡ sets told.old at (told_in (said (a_record q))) }
{
    let record = q.unwrap_or(no_record());
    let [there, tx, committed] = entry_numbers(record.entry);
    let values = [
        refusals::answer(q),
        there,
        tx,
        committed,
        record.start,
        record.end,
    ];
    numbers::put_run(told, at, 0, &values);
}

// ---- with floats

#[tactic(auto, unfolding(crate::specs::Answers::said))]
pub fn tell_settings(told: &mut [u64], at: usize, floats: &mut [f64], f: usize, s: Settings)
    ensures told_after { told.new ≡ sets told.old at (told_in (said (the_settings s))) }
    ensures floats_after { floats.new ≡ sets floats.old f (said (the_settings s)).floats }
{
    let values = [
        0,
        s.seed,
        s.listen_timeout,
        u64::from(s.flood_repeats),
        s.round_slots,
        u64::from(s.slots_given),
    ];
    numbers::put_run(told, at, 0, &values);
    numbers::put(floats, f, s.loss_rate);
    numbers::put(floats, f.saturating_add(1), s.abort_probability);
}

#[tactic(auto, unfolding(crate::specs::Answers::said))]
pub fn tell_ratio(told: &mut [u64], at: usize, floats: &mut [f64], f: usize, x: Option<f64>)
    ensures told_after { told.new ≡ sets told.old at (told_in (said (a_ratio x))) }
    ensures floats_after { floats.new ≡ sets floats.old f (said (a_ratio x)).floats }
{
    match x {
        None => tell_number(told, at, Ok(0)),
        Some(y) => {
            tell_number(told, at, Ok(1));
            numbers::put(floats, f, y);
        }
    }
}
