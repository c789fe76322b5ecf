// RULES 5.2. A round's packet: the TwoPcPacket that it stands for.
ghost use Rattle.std.specs.Prelude.{◌≡◌};
ghost use Rattle.pipeline.specs.Pipeline.{data_of, phase_of, piggyback_tx, piggyback_state, packet_of};

use super::two_pc_pipeline::{Outcome, RoundPacket};
use packets::{Bitmap, Data, TwoPcPacket, TwoPcPhase};

// The letters t and x, and the number: one digit below 10, else its last two, which are all of it below 100. (No call
// of `packets`' writer: of a number as high as C may lend it writes all digits, and the text here has at most two.)
pub fn data(fresh: bool, t: usize) -> Data
    ensures { result ≡ data_of fresh t }
{
    let mut bytes = [0u8; 32];
    if !fresh {
        return Data { len: 0, bytes };
    }
    bytes[0] = 116;
    bytes[1] = 120;
    if t < 10 {
        bytes[2] = 48 + (t % 10) as u8;
        return Data { len: 3, bytes };
    }
    bytes[2] = 48 + (t / 10 % 10) as u8;
    bytes[3] = 48 + (t % 10) as u8;
    Data { len: 4, bytes }
}

fn phase(committed: bool) -> TwoPcPhase
    ensures { result ≡ phase_of committed }
{
    if committed {
        return TwoPcPhase::Committed;
    }
    TwoPcPhase::Aborted
}

fn piggyback_tx(p: Option<Outcome>) -> Option<u64>
    ensures { result ≡ piggyback_tx p }
{
    p.map(|o| o.tx as u64)
}

fn piggyback_state(p: Option<Outcome>) -> Option<TwoPcPhase>
    ensures { result ≡ piggyback_state p }
{
    p.map(|o| phase(o.committed))
}

// The packet of n positions that is flooded.
pub fn full_packet(n: usize, q: RoundPacket) -> TwoPcPacket
    ensures { result ≡ packet_of n q }
{
    let p = q.piggyback;
    let tx = piggyback_tx(p);
    let state = piggyback_state(p);
    let d = data(q.fresh, q.tx);
    TwoPcPacket {
        transaction_id: q.tx as u64,
        state: TwoPcPhase::Prepare,
        flags_bitmap: Bitmap {
            len: n,
            marks: q.bits,
        },
        abort_flag: q.abort,
        nack_tx_id: q.nack as u64,
        transaction_data: d,
        sender: q.sender as u64,
        piggyback_tx: tx,
        piggyback_state: state,
    }
}
