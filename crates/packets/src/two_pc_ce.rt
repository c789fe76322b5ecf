// RULES 5.1. The text of the capture rooms' packets: the packet half of two_pc_ce.rs.
ghost use Rattle.std.specs.Prelude.{◌≡◌, IsTrue};
ghost use Rattle.packets.specs.Packets.{ce_text, ce_within, proposal_data};
ghost use Rattle.packets.specs.Writing.{text_len, parts_len, wrote_of, left_of};
ghost use Rattle.packets.specs.Writers.{RoomIn, Wrote};
ghost use Rattle.packets.specs.Reading.{ce_at, ce_read};

use crate::field::{Field, put_field, read_field};
use crate::put::Writer;
use crate::{Bitmap, CeTwoPcPacket, Data, TwoPcPhase, len, read};
use limits::refusals::Refusal;

// The length of a packet's text from its parts, `data` being the length of its data's text; 0 where the bitmap has too
// many entries, or `data` is 0 or more than such a text can have. Names, braces, commas and colons are 51 bytes.
#[tactic(auto, using(crate::proofs::Texts::bitmap_len_is), unfolding(crate::specs::Writing::parts_len))]
pub fn ce_parts_len(term: u64, phase: TwoPcPhase, data: usize, flags_bitmap: Bitmap) -> usize
    ensures { result ≡ parts_len term phase «data» flags_bitmap }
{
    if flags_bitmap.len > limits::BITMAP || data == 0 || data > 129 {
        return 0;
    }
    51 + term.text_len() + phase.text_len() + data + flags_bitmap.text_len()
}

// The length of a packet's text, 0 for a packet outside the limits, which has none. No Option here and above: lengths
// are asked for to be added up, and what has no text adds no bytes.
pub fn ce_text_len(p: CeTwoPcPacket) -> usize
    ensures { result ≡ text_len (ce_within p) (ce_text p) }
{
    let data = len::data_text_len(p.proposal_data);
    ce_parts_len(p.term, p.phase, data, p.flags_bitmap)
}

fn put_ce(w: &mut Writer, p: CeTwoPcPacket)
    requires { IsTrue (ce_within p) × RoomIn w.old (ce_text p) }
    ensures { Wrote w.old (ce_text p) w.new }
{
    put_field(w, b"{\"term\":", p.term);
    put_field(w, b",\"phase\":", p.phase);
    put_field(w, b",\"proposal_data\":", p.proposal_data);
    put_field(w, b",\"flags_bitmap\":", p.flags_bitmap);
    w.byte(b'}');
}

// The other family's writer and reader are the same but for the type. A trait of both would have a method for each of
// the limits, the length, the text and the reader, and say more in two impls than stands here twice.

// Writes a packet's text from index at on, and answers with the index behind it: refusal 9 outside the limits, 10
// where it does not fit, and then the buffer is as it was. Buffer and place are as C lends them: a place behind the
// buffer is no slice, and is refused here.
pub fn write_ce_packet(buf: &mut [u8], at: usize, p: CeTwoPcPacket) -> Result<usize, Refusal>
    ensures value { result ≡ wrote_of (ce_within p) (ce_text p) buf.old at }
    ensures buf_after { buf.new ≡ left_of (ce_within p) (ce_text p) buf.old at }
{
    if !len::within(p.flags_bitmap.len, p.proposal_data.len) {
        return Err(Refusal::BadPacket);
    }
    if at > buf.len() || ce_text_len(p) > buf.len() - at {
        return Err(Refusal::NoFit);
    }
    let mut w = Writer { buf, at };
    put_ce(&mut w, p);
    Ok(w.at)
}

#[tactic(auto, unfolding(crate::specs::Reading::ce_at, crate::specs::Reading::ce_fields, texts::specs::Readers::whole, texts::specs::Readers::both, texts::specs::Readers::on))]
fn read_ce(s: &[u8]) -> Option<CeTwoPcPacket>
    ensures { result ≡ ce_at s.now }
{
    let (term, at) = read_field::<u64>(s, 0, b"{\"term\":")?;
    let (phase, at) = read_field::<TwoPcPhase>(s, at, b",\"phase\":")?;
    let (proposal_data, at) = read_field::<Data>(s, at, b",\"proposal_data\":")?;
    let (flags_bitmap, at) = read_field::<Bitmap>(s, at, b",\"flags_bitmap\":")?;
    if !read::ends_at(s, at) {
        return None;
    }
    Some(CeTwoPcPacket {
        term,
        phase,
        proposal_data,
        flags_bitmap,
    })
}

// Reads the packet whose text the first len bytes of s are: refusal 10 if s has fewer, 9 for any other text.
#[tactic(auto, unfolding(crate::specs::Reading::ce_read, crate::specs::Reading::ce_read_of))]
pub fn read_ce_packet(s: &[u8], len: usize) -> Result<CeTwoPcPacket, Refusal>
    ensures { result ≡ ce_read s.now len }
{
    let text = s.get(..len).ok_or(Refusal::NoFit)?;
    read_ce(text).ok_or(Refusal::BadPacket)
}

// A new proposal's data: "tx" and the term in decimal, 22 bytes at most.
pub fn proposal_data(term: u64) -> Data
    ensures { result ≡ proposal_data term }
{
    let mut bytes = [0u8; 32];
    let mut w = Writer {
        buf: &mut bytes,
        at: 0,
    };
    w.all(b"tx");
    w.decimal(term);
    let len = w.at;
    Data { len, bytes }
}
