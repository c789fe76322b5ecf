// RULES 14.2 and 14.3. Listing lines for the lines that end in what was read.
ghost use Rattle.std.specs.Prelude.{◌≡◌, ◌≤◌, length, Ok, Err, IfOk};
ghost use Rattle.limits.specs.declared.refusals.Refusal.TheVariants.{NoFit};
ghost use Rattle.loops.specs.Pick.{either};
ghost use Rattle.texts.specs.Put.{written};
ghost use Rattle.frame.specs.Listing.{words_in};
ghost use Rattle.lines.specs.Input.{ended_of};
ghost use Rattle.lines.specs.Feeding.{Feeds, ends, kept_from, kept_in, end_of, end_words, end_out};

use crate::search;
use frame::{bounds, listing};
use limits::refusals::Refusal;

// How far a call came: the present line stands from place `from` up to place `at`, what follows was not read, and the
// output is taken up to `used`.
#[derive(Clone, Copy)]
pub struct Fed {
    pub from: usize,
    pub at: usize,
    pub used: usize,
}

// A line's answer and its end, if there is room for the longest.
fn put_line(line: &[u8], words: &mut [u64], out: &mut [u8]) -> Result<usize, Refusal>
    ensures told { result ≡ either (ends (length words.old) (length out.old)) (Ok (length (ended_of line.now))) (Err NoFit) }
    ensures room { IfOk result (λ len. len ≤ length out.old) }
    ensures words_after { words.new ≡ either (ends (length words.old) (length out.old)) (words_in line.now words.old) words.old }
    ensures out_after { out.new ≡ either (ends (length words.old) (length out.old)) (written out.old 0 (ended_of line.now)) out.old }
{
    if out.len() < bounds::ENDED {
        return Err(Refusal::NoFit);
    }
    let end = listing::list_frame(line, words, out)?;
    out[end] = b'\n';
    Ok(end + 1)
}

// The lines that end in the text, whose first n bytes are a line so far in which no line ends. Their answers are put
// behind the first `used` bytes of the output, as long as there is room for the longest. Words and output are lent
// apart: who calls reads the output between calls, so a struct of the two loans would be made anew for each. A `while`:
// a turn goes on behind the end that was found, so no range says where it goes.
pub fn feed(
    text: &[u8],
    n: usize,
    words: &mut [u64],
    out: &mut [u8],
    used: usize,
) -> Result<Fed, Refusal>
    ensures { Feeds text.now n words.old out.old used result words.new out.new }
{
    if text.len() < n || words.len() < bounds::WORDS || out.len() < used {
        return Err(Refusal::NoFit);
    }
    let mut from: usize = 0;
    let mut at = n;
    let mut o = used;
    while let Some(ahead) = search::line_end(&text[at..]) {
        let end = at + ahead;
        // The words were tested, so a refusal says that the output is full.
        let Ok(len) = put_line(&text[from..end], words, &mut out[o..]) else {
            return Ok(Fed {
                from,
                at: end,
                used: o,
            });
        };
        o += len;
        from = end + 1;
        at = from;
    }
    Ok(Fed {
        from,
        at: text.len(),
        used: o,
    })
}

// ---- between reads

// What stands from a place on goes to the front, as far as it is worth keeping; how many bytes that are.
pub fn keep(text: &mut [u8], from: usize) -> usize
    ensures { (result ≡ length (kept_from text.old from)) × (text.new ≡ kept_in text.old from) }
{
    if text.len() < from {
        return 0;
    }
    let n = (text.len() - from).min(bounds::KEPT);
    // A read that ended no line leaves it at the front, where it stays: a long line in many small reads is not copied
    // onto itself at each.
    if from == 0 {
        return n;
    }
    text.copy_within(from..from + n, 0);
    n
}

// ---- behind the last read

// The answer to a last line that has no end, and its length; 0 if the line is empty.
pub fn finish(line: &[u8], words: &mut [u64], out: &mut [u8]) -> Result<usize, Refusal>
    ensures { (result ≡ end_of line.now (length words.old) (length out.old)) × (IfOk result (λ len. len ≤ length out.old)) × (words.new ≡ end_words line.now words.old (length out.old)) × (out.new ≡ end_out line.now (length words.old) out.old) }
{
    if words.len() < bounds::WORDS || out.len() < bounds::ENDED {
        return Err(Refusal::NoFit);
    }
    if line.is_empty() {
        return Ok(0);
    }
    put_line(line, words, out)
}
