// RULES 8.3 and 8.4. The plan of a capture slot: which positions recover, and whom each target hears. It takes every
// word that the slot takes, and needs states, last progress and links alone; what is merged by it comes after. Words
// are lent for one call and the cursor stays between slots, so both are passed.
ghost use Rattle.std.specs.Prelude.{◌≡◌, ◌+◌, ◌<◌, ◌≤◌, ℕ, List, slice_index};
ghost use Rattle.engines.specs.Marked.{over_marks};
ghost use Rattle.capture.specs.Plan.{timed_out, tossed1, note_at, examine1, first_kept, capture_of, whom, tallied, capture_at, targets_of};
ghost use Rattle.capture.specs.Boards.{waiting_since, coins_by, PlannedBy};

use super::board::{CeFixed, LAST};
use engines::node::StateSets;
use engines::words::Draw;
use engines::{settings, words};
use graph::sets;

// Who recovers so far, and the cursor.
#[derive(Clone, Copy)]
pub struct Coins {
    pub recovering: u64,
    pub draw: Draw,
}

// How many senders were examined for a target, and which of them survived.
#[derive(Clone, Copy)]
pub struct Heard {
    pub examined: usize,
    pub src: Option<usize>,
    pub draw: Draw,
}

// What the captures of a slot count.
#[derive(Clone, Copy)]
pub struct Reception {
    pub draw: Draw,
    pub rx_attempts: u64,
    pub rx_success: u64,
}

// What the words of a slot decide, beside whom each position hears: a mark for each that recovers, the targets, and
// the slot's counts.
#[derive(Clone, Copy)]
pub struct SlotPlan {
    pub recovering: u64,
    pub targets: u64,
    pub draw: Draw,
    pub ce_timeouts: u64,
    pub rx_attempts: u64,
    pub rx_success: u64,
}

// Whether the slots since the last progress have reached the timeout. There are none where that progress lies ahead,
// which no room leads to.
#[tactic(auto, unfolding(crate::specs::Plan::timed_out))]
fn timed_out(slot: u64, timeout: u64, last: u64) -> bool
    ensures { result ≡ timed_out slot timeout (waiting_since last) }
{
    timeout <= slot.saturating_sub(last)
}

// The coin of position i, if it is due.
fn toss(words: &[u64], slot: u64, timeout: u64, last: u64, i: usize, c: Coins) -> Coins
    ensures { result ≡ tossed1 words.now slot timeout (waiting_since last) i c }
{
    if !timed_out(slot, timeout, last) {
        return c;
    }
    let x = words::next(words, c.draw);
    if !words::coin(x.word) {
        return Coins { draw: x.draw, ..c };
    }
    Coins {
        recovering: sets::with_mark(c.recovering, i),
        draw: x.draw,
    }
}

// The coins of the listening positions, the lowest first.
fn toss_all(
    words: &[u64],
    table: &[u64; 576],
    slot: u64,
    timeout: u64,
    listening: u64,
    d: Draw,
) -> Coins
    ensures { result ≡ coins_by words.now slot timeout table.now listening d }
{
    let mut c = Coins {
        recovering: 0,
        draw: d,
    };
    for i in sets::iter(listening) {
        c = toss(words, slot, timeout, table[LAST + i], i, c);
    }
    c
}

// Sender s is noted if target t hears it; the list is lent, so that no turn copies it. (Bounds: see board.rt; a count
// below 64 is the loop's. The list's length goes with it to be one number of the rule; a slice of it would be cut anew
// each turn.)
fn note(links: &[u64; 64], t: usize, s: usize, ids: &mut [usize; 64], count: usize) -> usize
    requires { (s < 64) × (count < 64) }
    ensures { (record { ids = ids.exit.now; count = result } ≡ note_at links.now t s (record { ids = ids.entry.now; count = count })) × (result ≤ count + 1) }
{
    if sets::is_marked(links[s], t) {
        ids[count] = s;
        return count + 1;
    }
    count
}

// The flooding positions that target t hears, the lowest first.
fn gather(links: &[u64; 64], flooding: u64, t: usize, ids: &mut [usize; 64]) -> usize
    ensures { (record { ids = ids.exit.now; count = result } ≡ over_marks flooding (note_at links.now t) (record { ids = ids.entry.now; count = 0 })) × (result ≤ 64) }
{
    let mut count: usize = 0;
    for s in sets::iter(flooding) {
        count = note(links, t, s, ids, count);
    }
    count
}

// The next sender is examined: only with a loss above 0 a word is drawn. (How many were examined lies below 64, as the
// loop over the list has it, so that the sum cannot wrap; a test would need an answer for what never comes.)
#[tactic(auto, unfolding(crate::specs::Plan::examine1))]
fn examine(words: &[u64], src: usize, loss: f64, h: Heard) -> Heard
    requires { h.examined < 64 }
    ensures { (ids : List ℕ) → slice_index ids h.examined ≡ src → result ≡ examine1 words.now ids loss h }
{
    let examined = h.examined + 1;
    if !settings::is_lossy(loss) {
        return Heard {
            examined,
            src: Some(src),
            draw: h.draw,
        };
    }
    let x = words::next(words, h.draw);
    let gone = words::lost(x.word, loss);
    Heard {
        examined,
        src: if gone { None } else { Some(src) },
        draw: x.draw,
    }
}

// The first of count senders that survives. (List and count, and no slice: see `shuffle` in engines src/words.rt, whose
// list this is.)
fn first_kept(words: &[u64], ids: &[usize; 64], count: usize, loss: f64, d: Draw) -> Heard
    requires { count ≤ 64 }
    ensures { result ≡ first_kept words.now loss count (record { ids = ids.entry.now; draw = d }) }
{
    let mut h = Heard {
        examined: 0,
        src: None,
        draw: d,
    };
    for &src in ids[..count].iter() {
        if h.src.is_some() {
            return h;
        }
        h = examine(words, src, loss, h);
    }
    h
}

#[tactic(auto, unfolding(crate::specs::Plan::whom))]
fn heard_from(h: Heard) -> usize
    ensures { result ≡ whom h }
{
    h.src.unwrap_or(64)
}

#[tactic(auto, unfolding(crate::specs::Plan::tallied))]
fn tally(p: Reception, h: Heard) -> Reception
    ensures { result ≡ tallied p h }
{
    Reception {
        draw: h.draw,
        rx_attempts: p.rx_attempts.wrapping_add(h.examined as u64),
        rx_success: p.rx_success.wrapping_add(h.src.is_some() as u64),
    }
}

// What target t hears. (Words, links, flooders and loss go apart, here and in the two below: as methods of a struct of
// the four, a round in a mesh of 64 to its goal took 352 us instead of 325.)
fn capture(words: &[u64], links: &[u64; 64], flooding: u64, loss: f64, t: usize, d: Draw) -> Heard
    ensures { result ≡ capture_of words.now loss links.now flooding t d }
{
    let mut ids = [0usize; 64];
    let count = gather(links, flooding, t, &mut ids);
    let e = words::shuffle(words, &mut ids, count, d);
    first_kept(words, &ids, count, loss, e)
}

// The turn of target t; whom it hears goes into the lent list.
#[tactic(auto, unfolding(crate::specs::Plan::capture_at))]
fn capture_at(
    words: &[u64],
    links: &[u64; 64],
    flooding: u64,
    loss: f64,
    t: usize,
    hears: &mut [usize; 64],
    p: Reception,
) -> Reception
    requires { t < 64 }
    ensures { record { hears = hears.exit.now; tally = result } ≡ capture_at words.now loss links.now flooding t (record { hears = hears.entry.now; tally = p }) }
{
    let h = capture(words, links, flooding, loss, t, p.draw);
    hears[t] = heard_from(h);
    tally(p, h)
}

// The captures of all targets, the lowest first.
fn capture_all(
    words: &[u64],
    links: &[u64; 64],
    targets: u64,
    flooding: u64,
    loss: f64,
    hears: &mut [usize; 64],
    p: Reception,
) -> Reception
    ensures { record { hears = hears.exit.now; tally = result } ≡ over_marks targets (capture_at words.now loss links.now flooding) (record { hears = hears.entry.now; tally = p }) }
{
    let mut q = p;
    for t in sets::iter(targets) {
        q = capture_at(words, links, flooding, loss, t, hears, q);
    }
    q
}

// The targets: who listens and does not recover.
fn find_targets(listening: u64, recovering: u64) -> u64
    ensures { result ≡ targets_of listening recovering }
{
    sets::difference(listening, recovering)
}

// The plan of a slot; whom each position hears goes into the lent list, which has 64 (nobody) for each. (The cursor is
// told by its two fields: copied whole, it took the bytes behind its flag along through every sender examined, and a
// round in a mesh of 64 in which most frames are lost took 1.2 times as long.)
pub(crate) fn plan_slot(
    words: &[u64],
    links: &[u64; 64],
    f: CeFixed,
    s: StateSets,
    slot: u64,
    d: Draw,
    table: &[u64; 576],
    hears: &mut [usize; 64],
) -> SlotPlan
    ensures { PlannedBy words.now links.now f s slot d table.now hears.old result hears.new }
{
    let c = toss_all(words, table, slot, f.listen_timeout, s.listening, d);
    let targets = find_targets(s.listening, c.recovering);
    let p = Reception {
        draw: c.draw,
        rx_attempts: 0,
        rx_success: 0,
    };
    let q = capture_all(words, links, targets, s.flooding, f.loss_rate, hears, p);
    SlotPlan {
        recovering: c.recovering,
        targets,
        draw: Draw {
            at: q.draw.at,
            short: q.draw.short,
        },
        ce_timeouts: sets::count_marks(c.recovering) as u64,
        rx_attempts: q.rx_attempts,
        rx_success: q.rx_success,
    }
}
