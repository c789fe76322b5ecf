// RULES none. What the test programs have in common: the lines that ask, the numbers of a line, the words of a room,
// one number for many. What the programs use refuses nothing: any bytes ask. For lines of plain numbers alone there are
// `numbers` and `answer_lines`.
#![tactic(auto)]

ghost use Rattle.std.specs.Prelude.{◌≡◌, ◌+◌, ◌*◌, ◌<◌, ◌%◌, ◌^◌, List, [], ◌∷◌, ℕ, length, map, take, slice_index, IfOk, OnOk, MatchOption};
ghost use Rattle.std.specs.List.{All, fold, range_with_len, FoldsTo};
ghost use Rattle.case_lines.specs.Lines.{words_of, numbers_of, IsNumber, with_byte, number_read, numbers_read, lines_of, mix_of};

use std::alloc::{AllocError, Global};
use std::io;
use std::io::{Input, Read};

#[cfg(test)]
mod tests;

// A number, and a byte more of its word. A byte that is no digit is passed over, and so is a digit with which the
// number would not fit.
fn with_byte(n: u64, byte: u8) -> u64
    ensures { result ≡ with_byte n byte }
{
    match byte {
        b'0'..=b'9' => {
            let digit = u64::from(byte - b'0');
            match n.checked_mul(10) {
                Some(tens) => tens.checked_add(digit).unwrap_or(n),
                None => n,
            }
        }
        _ => n,
    }
}

// The number that a word of any bytes is read as; an empty one is 0.
pub fn number(word: &[u8]) -> u64
    ensures { result ≡ number_read word.now }
{
    word.iter().fold(0, |n, &byte| with_byte(n, byte))
}

// The numbers of any line, at most so many: decimal, with single blanks between them. Each word is a number, an empty
// one is 0.
pub fn numbers_read(alloc: Global, line: &[u8], most: usize) -> Result<Vec<u64>, AllocError>
    ensures read { IfOk result (λ v. v.items ≡ numbers_read most line.now) }
    ensures plain { IfOk result (λ v. All IsNumber (words_of line.now) → v.items ≡ take most (numbers_of line.now)) }
{
    line.split(|byte| *byte == b' ')
        .map(number)
        .take(most)
        .collect(alloc)
}

// The first numbers, and zeros behind them if they are fewer.
pub fn padded<const N: usize>(xs: &[u64]) -> [u64; N]
    ensures { (i : ℕ) → i < N → slice_index result i ≡ slice_index xs.now i }
{
    let mut all = [0; N];
    let count = N.min(xs.len());
    all[..count].copy_from_slice(&xs[..count]);
    all
}

// The first line of a text, and what stands behind it. A line is what a byte 10 ends, so what stands behind the last
// one is none.
fn first_line(text: &[u8]) -> Option<(&[u8], &[u8])>
    ensures { MatchOption result (lines_of text.now ≡ [])
        (λ parts. (lines_of text.now ≡ parts.0.now ∷ lines_of parts.1.now) × (length parts.1.now < length text.now)) }
{
    let end = text.iter().position(|byte| *byte == b'\n')?;
    Some((&text[..end], &text[end + 1..]))
}

// Who answers a line's numbers, and what may be said of an answer. A trait and no closure: a closure may demand
// something of each call, and who lends one would have to show that it doesn't, while this demands nothing.
pub trait Answers {
    ghost answered: { Self → List ℕ → Self → Type 0 } = { λ _ _ _. Unit {0} };

    fn answer(&mut self, question: &[u64]) -> io::Result<()>
        ensures { OnOk result (answered self.old question.now self.new) };
}

// Each line of a text asks by its numbers, one after the other, up to the first that is not answered; and nothing else
// asks.
fn answer_text<A: Answers>(alloc: Global, text: &[u8], most: usize, desk: &mut A) -> io::Result<()>
    ensures { OnOk result (FoldsTo (λ p line q. A.answered p (numbers_read most line) q) desk.old (lines_of text.now) desk.new) }
{
    let mut rest = text;
    while let Some((line, behind)) = first_line(rest) {
        let question = numbers_read(alloc, line, most)?;
        desk.answer(&question)?;
        rest = behind;
    }
    Ok(())
}

// The lines of standard input ask, by so many numbers at most. All of it is read before the first is answered. Which
// text comes no contract can say.
pub fn answer_input<A: Answers>(
    rt: &(impl Input + AllocGlobal),
    most: usize,
    desk: &mut A,
) -> io::Result<()>
    ensures { OnOk result ((text : List ℕ) × FoldsTo (λ p line q. A.answered p (numbers_read most line) q) desk.old (lines_of text) desk.new) }
{
    let mut text = Vec::new(rt.alloc());
    rt.reader().read_to_end(&mut text)?;
    answer_text(rt.alloc(), &text, most, desk)
}

// The numbers of a plain line: decimal, each maybe behind a plus, with single blanks between them. A word that is no
// number, or whose number does not fit, is an error.
pub fn numbers(alloc: Global, line: &str) -> anyhow::Result<Vec<u64>>
    ensures read { IfOk result (λ v. v.items ≡ numbers_of line.now) }
    ensures plain { IfOk result (λ v. All IsNumber (words_of line.now)) }
{
    let mut all = Vec::new(alloc);
    for word in line.split(' ') {
        all.push(word.parse::<u64>()?)?;
    }
    Ok(all)
}

// Each line of standard input, a plain one, asks by its numbers, one after the other as they are read, up to the first
// that is not answered. Which lines come no contract can say.
pub fn answer_lines<A: Answers>(rt: &(impl Input + AllocGlobal), desk: &mut A) -> anyhow::Result<()>
    ensures { OnOk result ((lines : List (List ℕ)) × FoldsTo (λ p line q. A.answered p (numbers_of line) q) desk.old lines desk.new) }
{
    for line in rt.lines(rt.alloc()) {
        let asked = numbers(rt.alloc(), line?.as_str())?;
        desk.answer(&asked)?;
    }
    // By its path, so that the text of an edit that must fail stands once in this file.
    Result::Ok(())
}

// Words, each a step above the one before it, and past the greatest from 0 on.
pub fn fill_words(first: u64, step: u64, words: &mut [u64])
    ensures { (i : ℕ) → i < length words.old → slice_index words.new i ≡ (first + step * i) % 2 ^ 64 }
{
    for (i, word) in words.iter_mut().enumerate() {
        *word = first.wrapping_add(step.wrapping_mul(i as u64));
    }
}

// So many of them, as a list of its own.
pub fn words_from(alloc: Global, first: u64, step: u64, count: u64) -> Result<Vec<u64>, AllocError>
    ensures { IfOk result (λ v. v.items ≡ map (λ i. (first + step * i) % 2 ^ 64) (range_with_len 0 count)) }
{
    let mut words = vec![in alloc; 0; count as usize]?;
    fill_words(first, step, &mut words);
    Ok(words)
}

fn mix(h: u64, x: u64) -> u64
    ensures { result ≡ mix_of h x }
{
    (h % 4294967296) * 1000003 + x % 4294967296 + x / 4294967296
}

// One number that depends on all of them, to tell long lists apart by.
pub fn digest(xs: &[u64]) -> u64
    ensures { result ≡ fold mix_of 0 xs.now }
{
    xs.iter().fold(0, |h, &x| mix(h, x))
}
