// RULES 5.2. The text of the pipeline rooms' packets: the packet half of two_pc_pipeline.rs.
ghost use Rattle.std.specs.Prelude.{◌≡◌, IsTrue, length};
ghost use Rattle.packets.specs.Packets.{pipeline_text, pipeline_within};
ghost use Rattle.packets.specs.Writing.{text_len, wrote_of, left_of};
ghost use Rattle.packets.specs.Writers.{RoomIn, Wrote};
ghost use Rattle.packets.specs.Reading.{pipeline_at, pipeline_read};

use crate::field::{Field, put_field, read_field};
use crate::put::Writer;
use crate::{Bitmap, Data, TwoPcPacket, TwoPcPhase, len, read};
use limits::refusals::Refusal;

// The names, braces, commas and colons are 137 bytes.
#[tactic(auto, using(crate::proofs::Writes::limits_true, crate::proofs::Writes::pipeline_length))]
fn pipeline_len(p: TwoPcPacket) -> usize
    requires { IsTrue (pipeline_within p) }
    ensures { result ≡ length (pipeline_text p) }
{
    137 + p.transaction_id.text_len()
        + p.state.text_len()
        + p.flags_bitmap.text_len()
        + p.abort_flag.text_len()
        + p.nack_tx_id.text_len()
        + p.transaction_data.text_len()
        + p.sender.text_len()
        + p.piggyback_tx.text_len()
        + p.piggyback_state.text_len()
}

// The length of a packet's text, 0 for a packet outside the limits, which has none and adds no bytes on the air.
pub fn pipeline_text_len(p: TwoPcPacket) -> usize
    ensures { result ≡ text_len (pipeline_within p) (pipeline_text p) }
{
    if !len::within(p.flags_bitmap.len, p.transaction_data.len) {
        return 0;
    }
    pipeline_len(p)
}

fn put_pipeline(w: &mut Writer, p: TwoPcPacket)
    requires { IsTrue (pipeline_within p) × RoomIn w.old (pipeline_text p) }
    ensures { Wrote w.old (pipeline_text p) w.new }
{
    put_field(w, b"{\"transaction_id\":", p.transaction_id);
    put_field(w, b",\"state\":", p.state);
    put_field(w, b",\"flags_bitmap\":", p.flags_bitmap);
    put_field(w, b",\"abort_flag\":", p.abort_flag);
    put_field(w, b",\"nack_tx_id\":", p.nack_tx_id);
    put_field(w, b",\"transaction_data\":", p.transaction_data);
    put_field(w, b",\"sender\":", p.sender);
    put_field(w, b",\"piggyback_tx\":", p.piggyback_tx);
    put_field(w, b",\"piggyback_state\":", p.piggyback_state);
    w.byte(b'}');
}

// Writes a packet's text from index at on, and answers with the index behind it: refusal 9 outside the limits, 10
// where it does not fit, and then the buffer is as it was. Buffer and place are as C lends them, see two_pc_ce.rt,
// where it also says why the two families' writers and readers stand side by side.
pub fn write_pipeline_packet(buf: &mut [u8], at: usize, p: TwoPcPacket) -> Result<usize, Refusal>
    ensures value { result ≡ wrote_of (pipeline_within p) (pipeline_text p) buf.old at }
    ensures buf_after { buf.new ≡ left_of (pipeline_within p) (pipeline_text p) buf.old at }
{
    if !len::within(p.flags_bitmap.len, p.transaction_data.len) {
        return Err(Refusal::BadPacket);
    }
    if at > buf.len() || pipeline_len(p) > buf.len() - at {
        return Err(Refusal::NoFit);
    }
    let mut w = Writer { buf, at };
    put_pipeline(&mut w, p);
    Ok(w.at)
}

#[tactic(auto, unfolding(crate::specs::Reading::pipeline_at, crate::specs::Reading::pipeline_fields, texts::specs::Readers::whole, texts::specs::Readers::both, texts::specs::Readers::on))]
fn read_pipeline(s: &[u8]) -> Option<TwoPcPacket>
    ensures { result ≡ pipeline_at s.now }
{
    let (transaction_id, at) = read_field::<u64>(s, 0, b"{\"transaction_id\":")?;
    let (state, at) = read_field::<TwoPcPhase>(s, at, b",\"state\":")?;
    let (flags_bitmap, at) = read_field::<Bitmap>(s, at, b",\"flags_bitmap\":")?;
    let (abort_flag, at) = read_field::<bool>(s, at, b",\"abort_flag\":")?;
    let (nack_tx_id, at) = read_field::<u64>(s, at, b",\"nack_tx_id\":")?;
    let (transaction_data, at) = read_field::<Data>(s, at, b",\"transaction_data\":")?;
    let (sender, at) = read_field::<u64>(s, at, b",\"sender\":")?;
    let (piggyback_tx, at) = read_field::<Option<u64>>(s, at, b",\"piggyback_tx\":")?;
    let (piggyback_state, at) = read_field::<Option<TwoPcPhase>>(s, at, b",\"piggyback_state\":")?;
    if !read::ends_at(s, at) {
        return None;
    }
    Some(TwoPcPacket {
        transaction_id,
        state,
        flags_bitmap,
        abort_flag,
        nack_tx_id,
        transaction_data,
        sender,
        piggyback_tx,
        piggyback_state,
    })
}

// Reads the packet whose text the first len bytes of s are: refusal 10 if s has fewer, 9 for any other text.
#[tactic(auto, unfolding(crate::specs::Reading::pipeline_read, crate::specs::Reading::pipeline_read_of))]
pub fn read_pipeline_packet(s: &[u8], len: usize) -> Result<TwoPcPacket, Refusal>
    ensures { result ≡ pipeline_read s.now len }
{
    let text = s.get(..len).ok_or(Refusal::NoFit)?;
    read_pipeline(text).ok_or(Refusal::BadPacket)
}
