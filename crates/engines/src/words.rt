// RULES 3.1, 3.2 and 3.3. Random draws from a lent list of words: a cursor by value, and what one word gives.
ghost use Rattle.std.specs.Prelude.{◌≡◌, ◌+◌, ◌%◌, ◌<◌};
ghost use Rattle.engines.specs.Words.{unit_of, next_of, coin_of, lost_of, pick_of, swap_step, shuffled};

// The place of the next word, and whether a word was asked for past the end. The cursor may be any number. The flag
// stands beside the place and not around it: a draw past the end has an answer too (see `next`), so none of the
// functions that draw has to branch on a lack. Words and cursor are passed apart: rooms keep the cursor between calls,
// and are lent words for one call alone.
#[derive(Clone, Copy)]
pub struct Draw {
    pub at: usize,
    pub short: bool,
}

#[derive(Clone, Copy)]
pub struct Drawn {
    pub word: u64,
    pub draw: Draw,
}

// The next word and the cursor behind it. Past the end the word is 0, the cursor stays, and says so from then on: so
// every draw has an answer, and no loop has to be left for want of a word.
#[tactic(auto, unfolding(crate::specs::Words::next_of))]
pub fn next(words: &[u64], d: Draw) -> Drawn
    ensures { result ≡ next_of words.now d }
{
    match words.get(d.at) {
        Some(&word) => Drawn {
            word,
            draw: Draw { at: d.at + 1, ..d },
        },
        None => Drawn {
            word: 0,
            draw: Draw { short: true, ..d },
        },
    }
}

// The word's 53 high digits as a fraction of one. They are few enough for the cast and the quotient to be exact
// (specs/Exact.antt).
#[tactic(auto, using(crate::proofs::Units::cast_fits), unfolding(crate::specs::Words::unit_of))]
pub fn unit(w: u64) -> f64
    ensures { result ≡ unit_of w }
{
    (w / 2048) as f64 / 9007199254740992.0
}

#[tactic(auto, unfolding(crate::specs::Words::lost_of))]
pub fn lost(w: u64, loss: f64) -> bool
    ensures { result ≡ lost_of w loss }
{
    unit(w) < loss
}

#[tactic(auto, unfolding(crate::specs::Words::coin_of))]
pub fn coin(w: u64) -> bool
    ensures { result ≡ coin_of w }
{
    w < 9223372036854775808
}

// A number from 0 to i. With i at its highest, i + 1 would wrap, and every word is its own remainder.
#[tactic(auto, using(crate::proofs::Drawing::pick_top), unfolding(crate::specs::Words::pick_of))]
pub fn pick(w: u64, i: usize) -> usize
    ensures { result ≡ pick_of w i }
{
    if i == 18446744073709551615 {
        return w as usize;
    }
    (w as usize) % (i + 1)
}

// One turn of the shuffle: the number at i changes places with one of those from 0 to i. Its bound is the loop's; a
// test in its stead would need an answer for what never comes. (Not by `swap`, which branches on how i and j lie:
// that of a pick nobody foresees, and a round in a mesh of 64 took 1.4 times as long.)
#[tactic(auto, using(crate::proofs::Drawing::pick_le), unfolding(crate::specs::Words::swap_step))]
fn swap_step(words: &[u64], ids: &mut [usize; 64], i: usize, d: Draw) -> Draw
    requires { i < 64 }
    ensures { record { ids = ids.exit.now; draw = result } ≡ swap_step words.now i (record { ids = ids.entry.now; draw = d }) }
{
    let drawn = next(words, d);
    let j = pick(drawn.word, i);
    let last = ids[i];
    ids[i] = ids[j];
    ids[j] = last;
    drawn.draw
}

// The first count numbers shuffled, where they stand. List and count, and no slice of count: the one equation says too
// that what stands behind them stays, which a caller that lends a slice would have to put together again.
pub fn shuffle(words: &[u64], ids: &mut [usize; 64], count: usize, d: Draw) -> Draw
    ensures { record { ids = ids.exit.now; draw = result } ≡ shuffled words.now count (record { ids = ids.entry.now; draw = d }) }
{
    let mut e = d;
    for i in (1..count.min(64)).rev() {
        e = swap_step(words, ids, i, e);
    }
    e
}
