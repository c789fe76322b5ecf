// RULES 13.1 and 13.2. A frame line's digits and fields: what refusal 1 is about.
ghost use Rattle.std.specs.Prelude.{true, ◌≡◌, ◌+◌, ◌≤◌, length, get_or};
ghost use Rattle.frame.specs.Lines.{is_hex, digit_of, number_at, all_hex, name_byte, name_fits, has_name, is_kind, name_length, is_frame, word_count, fields_of, frame_of};

use crate::bounds::DIGITS;
use limits::refusals::Refusal;
use room::room::RoomKind;

// The fields of a frame line: loss and abort probability by their bits, the length of the name, and how many words
// stand behind it.
#[derive(Clone, Copy)]
pub struct Frame {
    pub kind: RoomKind,
    pub positions: u8,
    pub topology: u8,
    pub argument: u8,
    pub transactions: u8,
    pub span: u32,
    pub slots: u32,
    pub loss: u64,
    pub abort: u64,
    pub seed: u64,
    pub name: u8,
    pub words: usize,
}

// Lower case is no digit of a frame, so std's `is_ascii_hexdigit` takes too much.
fn is_hex(b: u8) -> bool
    ensures { result ≡ is_hex b }
{
    matches!(b, b'0'..=b'9' | b'A'..=b'F')
}

// The value of a digit; 0 for a byte that is none.
fn digit(b: u8) -> u64
    ensures { result ≡ digit_of b }
{
    match b {
        b'0'..=b'9' => (b - b'0') as u64,
        b'A'..=b'F' => (b - b'A' + 10) as u64,
        _ => 0,
    }
}

// The number that c digits from place i on are, the highest first.
#[tactic(auto, using(crate::proofs::Digits::number_none, crate::proofs::Digits::number_room, crate::proofs::Digits::number_more, crate::proofs::Digits::digit_lt))]
fn number_at(s: &[u8], i: u32, c: usize) -> u64
    requires { c ≤ 16 }
    ensures { result ≡ number_at s.now i c }
{
    let mut v: u64 = 0;
    for k in 0..c {
        v = v * 16 + digit(s.get(i as usize + k).copied().unwrap_or(0));
    }
    v
}

// The number that two digits are. (Not one generic with the next: that the number fits is a lemma for each width, which
// a generic would ask of its callers.)
#[tactic(auto, using(crate::proofs::Digits::byte_lt))]
pub(crate) fn byte_at(s: &[u8], i: u32) -> u8
    ensures { result ≡ number_at s.now i 2 }
{
    number_at(s, i, 2) as u8
}

// The number that eight digits are.
#[tactic(auto, using(crate::proofs::Digits::four_bytes_lt))]
fn four_bytes_at(s: &[u8], i: u32) -> u32
    ensures { result ≡ number_at s.now i 8 }
{
    number_at(s, i, 8) as u32
}

// All bytes are looked at, also behind a bad one: a loop without a branch takes many at once. Of 60000 digits this
// takes 5 us, and the iterator's `all`, which stops at the first bad one, 50 to 70.
#[tactic(auto, using(crate::proofs::Digits::hex_none, crate::proofs::Digits::hex_more, crate::proofs::Digits::hex_all))]
fn all_hex(s: &[u8]) -> bool
    ensures { result ≡ all_hex s.now }
{
    let mut good = true;
    for &b in s {
        good &= is_hex(b);
    }
    good
}

// The value of a byte that is a digit. There are many to read, so this has no branch: the low four bits of 0 to 9 are
// their value, those of A to F nine less. Of 3750 words this takes 41 us, and `digit` 250.
fn value(b: u8) -> u64
    requires { is_hex b ≡ true }
    ensures { result ≡ digit_of b }
{
    (b % 16 + b / 64 * 9) as u64
}

// The word whose 16 digits begin at place i: a place and not a part of the line, as the rules count places from its
// begin (RULES 13.1). The clause says that it stands within the line, and that `value` serves.
#[tactic(auto, using(crate::proofs::Digits::number_none, crate::proofs::Digits::number_room, crate::proofs::Digits::number_more, crate::proofs::Digits::digit_lt, crate::proofs::Digits::hex_at))]
pub(crate) fn word_at(s: &[u8], i: usize) -> u64
    requires { (i + 16 ≤ length s.now) × (all_hex s.now ≡ true) }
    ensures { result ≡ number_at s.now i 16 }
{
    let mut v: u64 = 0;
    for k in 0..16 {
        v = v * 16 + value(s[i + k]);
    }
    v
}

fn is_name_byte(s: &[u8], k: u8) -> bool
    ensures { result ≡ name_byte s.now k }
{
    matches!(byte_at(s, 76 + 2 * k as u32), 33..=126)
}

// (`(0..n).all(..)` was tried: it was not proved that over bytes it is the `all_of` of the rule.)
#[tactic(auto, unfolding(crate::specs::Lines::name_fits), using(crate::proofs::Digits::name_none, crate::proofs::Digits::name_more, crate::proofs::Digits::name_bad))]
fn name_fits(s: &[u8], n: u8) -> bool
    ensures { result ≡ name_fits s.now n }
{
    for k in 0..n {
        if !is_name_byte(s, k) {
            return false;
        }
    }
    true
}

// 1 is a pipeline, 2 a capture room.
fn is_kind(k: u8) -> bool
    ensures { result ≡ is_kind k }
{
    matches!(k, 1 | 2)
}

// Refusal 1: the line is no frame.
#[tactic(auto, unfolding(crate::specs::Lines::is_frame))]
fn is_frame(s: &[u8]) -> bool
    ensures { result ≡ is_frame s.now }
{
    let digits = s.len();
    if digits > DIGITS {
        return false;
    }
    all_hex(s) && 78 <= digits && is_kind(byte_at(s, 0)) && has_name(s)
}

// What stands behind the fixed fields: a name, and whole words.
#[tactic(auto, unfolding(crate::specs::Lines::has_name))]
fn has_name(s: &[u8]) -> bool
    ensures { result ≡ has_name s.now }
{
    let n = name_length(s);
    let end = 76 + 2 * n as usize;
    0 < n && end <= s.len() && name_fits(s, n) && (s.len() - end) % 16 == 0
}

#[tactic(auto, unfolding(crate::specs::Lines::name_length))]
pub(crate) fn name_length(s: &[u8]) -> u8
    ensures { result ≡ name_length s.now }
{
    byte_at(s, 74)
}

// The fields of a line. The digits of a bad line are not read.
#[tactic(auto, unfolding(crate::specs::Lines::frame_of))]
pub fn read_frame(s: &[u8]) -> Result<Frame, Refusal>
    ensures { result ≡ frame_of s.now }
{
    if !is_frame(s) {
        return Err(Refusal::BadLine);
    }
    Ok(fields_of(s))
}

#[tactic(auto, unfolding(crate::specs::Lines::fields_of))]
fn fields_of(s: &[u8]) -> Frame
    ensures { result ≡ fields_of s.now }
{
    Frame {
        kind: RoomKind::from(u64::from(byte_at(s, 0))),
        positions: byte_at(s, 2),
        topology: byte_at(s, 4),
        argument: byte_at(s, 6),
        transactions: byte_at(s, 8),
        span: four_bytes_at(s, 10),
        slots: four_bytes_at(s, 18),
        loss: number_at(s, 26, 16),
        abort: number_at(s, 42, 16),
        seed: number_at(s, 58, 16),
        name: name_length(s),
        words: word_count(s),
    }
}

// How many words stand behind the name.
#[tactic(auto, unfolding(crate::specs::Lines::word_count))]
fn word_count(s: &[u8]) -> usize
    ensures { result ≡ word_count s.now }
{
    s.len().saturating_sub(76 + 2 * name_length(s) as usize) / 16
}
