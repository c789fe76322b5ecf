// RULES 5.4. The readers of a packet's parts. Each takes exactly what the writer of its part writes, and answers with
// the value and the place behind it.
ghost use Rattle.std.specs.Prelude.{◌≡◌, [], ◌∷◌, ◌+◌, ◌^◌, ◌≤◌, ◌<◌, drop};
ghost use Rattle.texts.specs.Literals.{lit_at};
ghost use Rattle.texts.specs.Readers.{starts_num, num_at, bool_at, ends_at};
ghost use Rattle.texts.specs.Stores.{store_mark};
ghost use Rattle.packets.specs.Packets.{key_end};
ghost use Rattle.packets.specs.Reading.{phase_at, bitmap_at, data_at};

use crate::{Bitmap, Data, TwoPcPhase};

#[tactic(auto, using(crate::proofs::Slices::byte_there, crate::proofs::Slices::byte_none))]
fn byte_at(s: &[u8], at: usize, b: u8) -> bool
    ensures { result ≡ lit_at s.now at (b ∷ []) }
{
    at < s.len() && s[at] == b
}

pub(crate) fn lit_at(s: &[u8], at: usize, t: &[u8]) -> bool
    ensures { result ≡ lit_at s.now at t.now }
{
    s[at.min(s.len())..].starts_with(t)
}

// The closing brace, and nothing behind it.
#[tactic(auto, using(texts::specs::LiteralLaws::lit_le), unfolding(texts::specs::Readers::ends_at))]
pub(crate) fn ends_at(s: &[u8], at: usize) -> bool
    ensures { result ≡ ends_at s.now at key_end }
{
    byte_at(s, at, b'}') && at + 1 == s.len()
}

// A digit stands at index at, and a 0 there has no digit behind it.
#[tactic(auto, using(crate::proofs::Slices::digit_is, texts::specs::NumberLaws::head_end, texts::specs::NumberLaws::head_at, texts::specs::NumberLaws::starts_end, texts::specs::NumberLaws::starts_other, texts::specs::NumberLaws::starts_zero))]
fn starts_num(s: &[u8], at: usize) -> bool
    ensures { result ≡ starts_num (drop at s.now) }
{
    if at >= s.len() {
        return false;
    }
    if s[at] != b'0' {
        return s[at].is_ascii_digit();
    }
    let next = at + 1;
    if next < s.len() {
        return !s[next].is_ascii_digit();
    }
    true
}

// A number of at most `most`.
pub(crate) fn read_num(s: &[u8], at: usize, most: u64) -> Option<(u64, usize)>
    requires { 9 ≤ most }
    ensures { result ≡ num_at (most + 1) s.now at }
{
    if !starts_num(s, at) {
        return None;
    }
    let mut v: u64 = 0;
    for i in at..s.len() {
        let b = s[i];
        if !b.is_ascii_digit() {
            return Some((v, i));
        }
        let x = (b - b'0') as u64;
        if v > (most - x) / 10 {
            return None;
        }
        v = v * 10 + x;
    }
    Some((v, s.len()))
}

#[tactic(auto, using(texts::specs::LiteralLaws::lit_le), unfolding(texts::specs::Readers::bool_at))]
pub(crate) fn read_bool(s: &[u8], at: usize) -> Option<(bool, usize)>
    ensures { result ≡ bool_at s.now at }
{
    if lit_at(s, at, b"true") {
        return Some((true, at + 4));
    }
    if lit_at(s, at, b"false") {
        return Some((false, at + 5));
    }
    None
}

// Each name as a literal here: by `TwoPcPhase::text` a capture packet of 64 marks took 0.440 us to read, so 0.390.
#[tactic(auto, using(texts::specs::LiteralLaws::lit_le), unfolding(crate::specs::Reading::phase_at))]
pub(crate) fn read_phase(s: &[u8], at: usize) -> Option<(TwoPcPhase, usize)>
    ensures { result ≡ phase_at s.now at }
{
    if lit_at(s, at, b"\"Prepare\"") {
        return Some((TwoPcPhase::Prepare, at + 9));
    }
    if lit_at(s, at, b"\"Committed\"") {
        return Some((TwoPcPhase::Committed, at + 11));
    }
    if lit_at(s, at, b"\"Aborted\"") {
        return Some((TwoPcPhase::Aborted, at + 9));
    }
    None
}

// Mark k of a word that has none from k on. Its one caller is a loop that goes by k: a type that held the two bounds
// would serve that loop alone. Not sets::with_mark, which tells the marks of a word: the rule of reading is told by the
// number, and that is this sum.
fn with_mark(m: u64, k: usize, b: bool) -> u64
    requires { (k < 64) × (m < 2 ^ k) }
    ensures { (result ≡ store_mark k b m) × (result < 2 ^ (k + 1)) }
{
    if b { m + (1 << k) } else { m }
}

// Goes as read_data below. Both keep their items each in its own way, a mark in a word and a byte in an array. What
// they share are the brackets and the commas; one reader for both would be told how an item is read and how it is kept,
// each with its clause.
pub(crate) fn read_bitmap(s: &[u8], at: usize) -> Option<(Bitmap, usize)>
    ensures { result ≡ bitmap_at s.now at }
{
    if !byte_at(s, at, b'[') {
        return None;
    }
    if byte_at(s, at + 1, b']') {
        return Some((Bitmap { len: 0, marks: 0 }, at + 2));
    }
    let mut i = at + 1;
    let mut marks: u64 = 0;
    for k in 0..limits::BITMAP {
        let (value, next) = read_bool(s, i)?;
        marks = with_mark(marks, k, value);
        if byte_at(s, next, b']') {
            return Some((Bitmap { len: k + 1, marks }, next + 1));
        }
        if !byte_at(s, next, b',') {
            return None;
        }
        i = next + 1;
    }
    None
}

pub(crate) fn read_data(s: &[u8], at: usize) -> Option<(Data, usize)>
    ensures { result ≡ data_at s.now at }
{
    let mut bytes = [0u8; 32];
    if !byte_at(s, at, b'[') {
        return None;
    }
    if byte_at(s, at + 1, b']') {
        return Some((Data { len: 0, bytes }, at + 2));
    }
    let mut i = at + 1;
    for k in 0..limits::DATA {
        let (value, next) = read_num(s, i, 255)?;
        bytes[k] = value as u8;
        if byte_at(s, next, b']') {
            return Some((Data { len: k + 1, bytes }, next + 1));
        }
        if !byte_at(s, next, b',') {
            return None;
        }
        i = next + 1;
    }
    None
}
