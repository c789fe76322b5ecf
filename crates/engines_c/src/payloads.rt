// RULES 17. What positions hold as a lent list of numbers, 38 for each: what it is (0 nothing, 1 a text that is no
// packet, 2 a packet), the packet's term and phase, the length of its data and of its bitmap, the bitmap's marks, and
// 32 bytes of data. List and place are passed on, and k is bounded, for the reasons that stand in numbers.rt.
ghost use Rattle.std.specs.Prelude.{◌≡◌, ◌+◌, ◌≤◌};
ghost use Rattle.engines_c.specs.Payloads.{held_numbered, bytes_at, payload_at, held_at, bytes_fit, payload_fits, held_fits, payload_numbers, put_payload, put_held};

use super::numbers;
use merges::merging::{Held, Payload};
use packets::{Bitmap, CeTwoPcPacket, Data, len};
use packets_c::console;

// A number above 2 reads as a packet. (No `From`: that is how this list is read, and no rule of `Held`.)
fn held_numbered(n: u64) -> Held
    ensures { result ≡ held_numbered n }
{
    match n {
        0 => Held::Empty,
        1 => Held::Unreadable,
        _ => Held::Packet,
    }
}

// A number above 255 gives its low eight digits.
fn bytes_of(xs: &[u64], at: usize, k: usize) -> [u8; limits::DATA]
    requires { k ≤ 10000 }
    ensures { result ≡ bytes_at xs.now at k }
{
    std::array::from_fn(|i| (numbers::number_behind(xs, at, k + i) % 256) as u8)
}

// The payload whose numbers start k places behind at.
#[tactic(auto, unfolding(crate::specs::Payloads::payload_at))]
fn payload_of(xs: &[u64], at: usize, k: usize) -> Payload
    requires { k ≤ 9000 }
    ensures { result ≡ payload_at xs.now at k }
{
    Payload {
        held: held_numbered(numbers::number_behind(xs, at, k)),
        packet: CeTwoPcPacket {
            term: numbers::number_behind(xs, at, k + 1),
            phase: console::phase_numbered(numbers::number_behind(xs, at, k + 2)),
            proposal_data: Data {
                len: numbers::number_behind(xs, at, k + 3) as usize,
                bytes: bytes_of(xs, at, k + 6),
            },
            flags_bitmap: Bitmap {
                len: numbers::number_behind(xs, at, k + 4) as usize,
                marks: numbers::number_behind(xs, at, k + 5),
            },
        },
    }
}

// What all positions hold, whose numbers start at a place, each behind the one before it. (By a loop: `from_fn` clears
// and copies the whole array twice more.)
pub fn held_of(xs: &[u64], at: usize) -> [Payload; limits::POSITIONS]
    ensures { result ≡ held_at xs.now at }
{
    let mut held = [Payload::without(Held::Empty); limits::POSITIONS];
    for (i, payload) in held.iter_mut().enumerate() {
        *payload = payload_of(xs, at, i * 38);
    }
    held
}

// ---- numbers that stand for no payload

#[tactic(auto, unfolding(crate::specs::Payloads::bytes_fit))]
fn bytes_fit(xs: &[u64], at: usize, k: usize) -> bool
    requires { k ≤ 10000 }
    ensures { result ≡ bytes_fit xs.now at k }
{
    (0..limits::DATA).all(|i| numbers::number_behind(xs, at, k + i) <= 255)
}

// Whether the numbers that start k places behind at are those of a payload.
#[tactic(auto, unfolding(crate::specs::Payloads::payload_fits))]
fn payload_fits(xs: &[u64], at: usize, k: usize) -> bool
    requires { k ≤ 9000 }
    ensures { result ≡ payload_fits xs.now at k }
{
    let bytes = numbers::number_behind(xs, at, k + 3);
    let entries = numbers::number_behind(xs, at, k + 4);
    numbers::number_behind(xs, at, k) <= 2
        && numbers::number_behind(xs, at, k + 2) <= 2
        && len::within(entries as usize, bytes as usize)
        && bytes_fit(xs, at, k + 6)
}

// Whether those of the first n positions are.
#[tactic(auto, unfolding(crate::specs::Payloads::held_fits))]
pub fn held_fits(xs: &[u64], at: usize, n: usize) -> bool
    ensures { result ≡ held_fits xs.now at n }
{
    (0..n.min(limits::POSITIONS)).all(|i| payload_fits(xs, at, i * 38))
}

// ---- numbers put back

// Bytes as numbers of 64 digits. (Not by `map`, which copies the array four times more.)
pub fn widened(bytes: [u8; limits::DATA]) -> [u64; limits::DATA]
    ensures { result ≡ bytes }
{
    std::array::from_fn(|i| bytes[i] as u64)
}

fn payload_numbers(l: Payload) -> [u64; 6]
    ensures { result ≡ payload_numbers l }
{
    let p = l.packet;
    [
        l.held as u64,
        p.term,
        p.phase as u64,
        p.proposal_data.len as u64,
        p.flags_bitmap.len as u64,
        p.flags_bitmap.marks,
    ]
}

fn put_payload(xs: &mut [u64], at: usize, k: usize, l: Payload)
    requires { k ≤ 9000 }
    ensures { xs.new ≡ put_payload at k l xs.old }
{
    let first = payload_numbers(l);
    let rest = widened(l.packet.proposal_data.bytes);
    numbers::put_run(xs, at, k, &first);
    numbers::put_run(xs, at, k + 6, &rest);
}

pub fn put_held(xs: &mut [u64], at: usize, held: [Payload; limits::POSITIONS])
    ensures { xs.new ≡ put_held at held xs.old }
{
    for (i, &l) in held.iter().enumerate() {
        put_payload(xs, at, i * 38, l);
    }
}
