// RULES 7.5. How long the texts of a packet's parts are, without writing them.
ghost use Rattle.std.specs.Prelude.{◌≡◌, ◌≤◌, length, take};
ghost use Rattle.limits.specs.Limits.{bitmap_entries, data_bytes};
ghost use Rattle.texts.specs.Decimal.{decimal};
ghost use Rattle.texts.specs.Readers.{items_text};
ghost use Rattle.packets.specs.Packets.{limits, bitmap_text, data_text};
ghost use Rattle.packets.specs.Writing.{data_len};

use crate::{Bitmap, Data};
use graph::sets;

#[tactic(auto, using(crate::proofs::Texts::digits_are, texts::specs::Decimal::length_small))]
pub(crate) fn decimal_len(n: u64) -> usize
    ensures { (result ≡ length (decimal n)) × (result ≤ 20) }
{
    match n.checked_ilog10() {
        None => 1,
        Some(k) => k as usize + 1,
    }
}

// An entry and what stands before it are 6 bytes, of which `true` needs one less, and the closing bracket is 1.
pub(crate) fn bitmap_len(b: Bitmap) -> usize
    requires { b.len ≤ bitmap_entries }
    ensures { (result ≡ length (bitmap_text b)) × (result ≤ 386) }
{
    if b.len == 0 {
        return 2;
    }
    let there = sets::intersection(b.marks, sets::first_marks(b.len));
    1 + 6 * b.len - sets::count_marks(there)
}

// A byte has at most three digits, by which 32 bytes stay within 129. decimal_len says 20, of any number.
fn small_len(b: u8) -> usize
    ensures { (result ≡ length (decimal b)) × (result ≤ 3) }
{
    if b < 10 {
        return 1;
    }
    if b < 100 { 2 } else { 3 }
}

// A byte and what stands before it.
fn bytes_len(bytes: &[u8]) -> usize
    requires { length bytes.now ≤ data_bytes }
    ensures { (result ≡ length (items_text decimal bytes.now)) × (result ≤ 129) }
{
    let mut len = 1;
    for &b in bytes {
        len += 1 + small_len(b);
    }
    len
}

#[tactic(auto, using(crate::proofs::Texts::list_len_none, crate::proofs::Texts::list_len_more), unfolding(crate::specs::Packets::data_text))]
pub(crate) fn data_len(d: Data) -> usize
    requires { d.len ≤ data_bytes }
    ensures { (result ≡ length (data_text d)) × (result ≤ 129) }
{
    if d.len == 0 {
        return 2;
    }
    let bytes = d.bytes;
    bytes_len(&bytes[..d.len])
}

// The length of the data's text, 0 for data of too many bytes, which has none. A number and no Option: the capture
// board keeps it in its table of numbers, where 0 says the same.
#[tactic(auto, unfolding(crate::specs::Writing::data_len))]
pub fn data_text_len(d: Data) -> usize
    ensures { (result ≡ data_len d) × (result ≤ 129) }
{
    if d.len > limits::DATA {
        return 0;
    }
    data_len(d)
}

// The limits of a packet: at most 64 entries in the bitmap and at most 32 bytes of data.
#[tactic(auto, unfolding(crate::specs::Packets::limits))]
pub fn within(entries: usize, bytes: usize) -> bool
    ensures { result ≡ limits entries bytes }
{
    entries <= limits::BITMAP && bytes <= limits::DATA
}
