// RULES 14.1. A frame line in, its listing line out.
ghost use Rattle.std.specs.Prelude.{true, ◌≡◌, ◌+◌, ◌*◌, ◌≤◌, length, IfOk};
ghost use Rattle.loops.specs.Table.{tabulate};
ghost use Rattle.texts.specs.Put.{Put, written};
ghost use Rattle.frame.specs.Bounds.{listing_bytes};
ghost use Rattle.frame.specs.Lines.{number_at, all_hex};
ghost use Rattle.frame.specs.Listing.{outcome_of, name_of, sent_text, refused_text, text_of, listed_of, words_in, words_after, listed_in};

use crate::bounds::{LISTING, WORDS};
use crate::{line, play, put};
use limits::refusals::Refusal;

// The words that stand from place i on. They are lent, so that nobody clears room for the most that a frame may have.
// That they stand within the line is what `is_frame` found of all its fields, so a clause says it as of `word_at`.
#[tactic(auto, using(crate::proofs::Playing::words_stored))]
fn read_words(s: &[u8], i: usize, count: usize, words: &mut [u64])
    requires { (i + 16 * count ≤ length s.now) × (count ≤ length words.old) × (all_hex s.now ≡ true) }
    ensures { words.new ≡ written words.old 0 (tabulate count (λ k. number_at s.now (i + 16 * k) 16)) }
{
    for k in 0..count {
        words[k] = line::word_at(s, i + 16 * k);
    }
}

fn outcome_of(s: &[u8], words: &mut [u64; WORDS]) -> Result<u64, Refusal>
    ensures { (result ≡ outcome_of s.now) × (words.new ≡ words_in s.now words.old) }
{
    let f = line::read_frame(s)?;
    let count = f.words;
    read_words(s, 76 + 2 * f.name as usize, count, words);
    play::play_frame(f, &words[..count])
}

// The bytes of a name of so many.
fn put_name(s: &[u8], out: &mut [u8; LISTING], n: u8)
    ensures { Put out.old 0 (name_of s.now n) n out.new }
{
    for k in 0..n {
        out[k as usize] = line::byte_at(s, 76 + 2 * k as u32);
    }
}

fn put_sent(s: &[u8], out: &mut [u8; LISTING], sent: u64) -> usize
    ensures { Put out.old 0 (sent_text s.now sent) result out.new × (result ≤ listing_bytes) }
{
    let n = line::name_length(s);
    put_name(s, out, n);
    let end = n as usize;
    out[end] = b' ';
    end + 1 + put::put_decimal(&mut out[end + 1..], sent)
}

fn put_refused(out: &mut [u8; LISTING], refusal: u64) -> usize
    ensures { Put out.old 0 (refused_text refusal) result out.new × (result ≤ listing_bytes) }
{
    out[..8].copy_from_slice(b"refused ");
    8 + put::put_decimal(&mut out[8..], refusal)
}

#[tactic(auto, unfolding(crate::specs::Listing::text_of))]
fn put_text(s: &[u8], out: &mut [u8; LISTING], outcome: Result<u64, Refusal>) -> usize
    ensures { Put out.old 0 (text_of s.now outcome) result out.new × (result ≤ listing_bytes) }
{
    match outcome {
        Ok(sent) => put_sent(s, out, sent),
        Err(refusal) => put_refused(out, u64::from(refusal)),
    }
}

// The listing line of a frame line, without line ends, and its length; refused if what is lent is too short for the
// longest. Nothing is written behind it, and no word behind the frame's.
pub fn list_frame(line: &[u8], words: &mut [u64], out: &mut [u8]) -> Result<usize, Refusal>
    ensures { (result ≡ listed_of line.now (length words.old) (length out.old)) × (IfOk result (λ len. len ≤ listing_bytes)) × (words.new ≡ words_after line.now words.old (length out.old)) × (out.new ≡ listed_in line.now (length words.old) out.old) }
{
    let Some(words) = words.first_chunk_mut::<WORDS>() else {
        return Err(Refusal::NoFit);
    };
    let Some(out) = out.first_chunk_mut::<LISTING>() else {
        return Err(Refusal::NoFit);
    };
    let outcome = outcome_of(line, words);
    Ok(put_text(line, out, outcome))
}
