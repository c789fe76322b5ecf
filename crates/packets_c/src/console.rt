// RULES 17. The entries for C: a packet is numbers and bytes in lent slices, a buffer has the place beside it where the
// text goes, the answer is the refusal's number, 0 for none: C has no other types. A refused call writes nothing.
ghost use Rattle.std.specs.Prelude.{◌≡◌, ◌≤◌, Some, None, eqb, length, replicate};
ghost use Rattle.loops.specs.Pick.{either};
ghost use Rattle.limits.specs.Limits.{data_bytes};
ghost use Rattle.limits.specs.Refusals.{answer_of};
ghost use Rattle.texts.specs.Put.{written};
ghost use Rattle.packets_c.specs.Console.{phase_numbered, ce_numbers, pipeline_numbers, ce_told, pipeline_told, handed, data_asked, sizes_fit, ce_asked, pair_fits, piggyback_fits, pipeline_asked, ce_wrote, ce_left, pipeline_wrote, pipeline_left, next_of};

use limits::refusals;
use limits::refusals::Refusal;
use packets::{
    Bitmap, CeTwoPcPacket, Data, TwoPcPacket, TwoPcPhase, len, two_pc_ce, two_pc_pipeline,
};

// A phase by its number in C. No TryFrom: engines_c reads a phase out of a list in which any number may stand, and
// refuses none, so a number above 2 is Aborted; here such a number was refused before.
pub fn phase_numbered(n: u64) -> TwoPcPhase
    ensures { result ≡ phase_numbered n }
{
    match n {
        0 => TwoPcPhase::Prepare,
        1 => TwoPcPhase::Committed,
        _ => TwoPcPhase::Aborted,
    }
}

#[tactic(auto, unfolding(crate::specs::Console::ce_numbers))]
fn ce_numbers(p: CeTwoPcPacket) -> [u64; 5]
    ensures { result ≡ ce_numbers p }
{
    [
        p.term,
        p.phase as u64,
        p.proposal_data.len as u64,
        p.flags_bitmap.len as u64,
        p.flags_bitmap.marks,
    ]
}

#[tactic(auto, unfolding(crate::specs::Console::pipeline_numbers))]
fn pipeline_numbers(p: TwoPcPacket) -> [u64; 12]
    ensures { result ≡ pipeline_numbers p }
{
    [
        p.transaction_id,
        p.state as u64,
        p.flags_bitmap.len as u64,
        p.flags_bitmap.marks,
        p.abort_flag as u64,
        p.nack_tx_id,
        p.transaction_data.len as u64,
        p.sender,
        p.piggyback_tx.is_some() as u64,
        p.piggyback_tx.unwrap_or(0),
        p.piggyback_state.is_some() as u64,
        p.piggyback_state.map_or(0, |state| state as u64),
    ]
}

// The bytes, with zeros behind them. How many they are is tested with the other sizes, by which a packet is refused.
fn filled(bytes: &[u8]) -> Data
    requires { length bytes.now ≤ data_bytes }
    ensures { result ≡ record { len = length bytes.now; bytes = written (replicate 32 0) 0 bytes.now } }
{
    let mut kept = [0u8; 32];
    kept[..bytes.len()].copy_from_slice(bytes);
    Data {
        len: bytes.len(),
        bytes: kept,
    }
}

// The limits, and no mark at or above the number of entries: a full bitmap has an entry for every mark.
fn sizes_fit(b: Bitmap, bytes_len: usize) -> bool
    ensures { result ≡ sizes_fit b.len bytes_len b.marks }
{
    if !len::within(b.len, bytes_len) {
        return false;
    }
    b.len >= limits::BITMAP || b.marks < (1 << b.len)
}

#[tactic(auto, unfolding(crate::specs::Console::ce_asked, crate::specs::Console::ce_fits))]
fn ce_asked(numbers: &[u64], bytes: &[u8]) -> Result<CeTwoPcPacket, Refusal>
    ensures { result ≡ ce_asked numbers.now bytes.now }
{
    let &[term, phase, bytes_len, entries, marks, ..] = numbers else {
        return Err(Refusal::NoFit);
    };
    let data = bytes.get(..bytes_len as usize).ok_or(Refusal::NoFit)?;
    let len = entries as usize;
    let flags_bitmap = Bitmap { len, marks };
    if phase > 2 || !sizes_fit(flags_bitmap, data.len()) {
        return Err(Refusal::BadPacket);
    }
    Ok(CeTwoPcPacket {
        term,
        phase: phase_numbered(phase),
        proposal_data: filled(data),
        flags_bitmap,
    })
}

// Both families have the same functions: a packet's numbers, a packet asked for, and a text read and written. Those of
// one family differ from the other's in each number's name and place, or in how many numbers there are, the reader or
// the writer, and the name of the data: a generic one would be told all of that, and say no less than the two do.

// 1 and any number, or 0 and 0.
fn pair_fits(there: u64, n: u64) -> bool
    ensures { result ≡ pair_fits there n }
{
    there <= 1 && (there == 1 || n == 0)
}

fn piggyback_fits(tx_there: u64, tx: u64, state_there: u64, state: u64) -> bool
    ensures { result ≡ piggyback_fits tx_there tx state_there state }
{
    pair_fits(tx_there, tx) && pair_fits(state_there, state) && state <= 2
}

// What may be absent, by the number that says whether it is there.
fn there<T: Copy>(there: u64, value: T) -> Option<T>
    ensures { result ≡ either (eqb there 0) None (Some value) }
{
    (there != 0).then_some(value)
}

#[tactic(auto, unfolding(crate::specs::Console::pipeline_asked, crate::specs::Console::pipeline_fits))]
fn pipeline_asked(numbers: &[u64], bytes: &[u8]) -> Result<TwoPcPacket, Refusal>
    ensures { result ≡ pipeline_asked numbers.now bytes.now }
{
    let &[
        transaction_id,
        state,
        entries,
        marks,
        abort,
        nack_tx_id,
        bytes_len,
        sender,
        tx_there,
        tx,
        phase_there,
        phase,
        ..
    ] = numbers
    else {
        return Err(Refusal::NoFit);
    };
    let data = bytes.get(..bytes_len as usize).ok_or(Refusal::NoFit)?;
    let len = entries as usize;
    let flags_bitmap = Bitmap { len, marks };
    let fits = piggyback_fits(tx_there, tx, phase_there, phase);
    if state > 2 || abort > 1 || !fits || !sizes_fit(flags_bitmap, data.len()) {
        return Err(Refusal::BadPacket);
    }
    Ok(TwoPcPacket {
        transaction_id,
        state: phase_numbered(state),
        flags_bitmap,
        abort_flag: abort == 1,
        nack_tx_id,
        transaction_data: filled(data),
        sender,
        piggyback_tx: there(tx_there, tx),
        piggyback_state: there(phase_there, phase_numbered(phase)),
    })
}

// Hands out a packet's numbers and all 32 bytes, into slices that have room for them: the callers test that before they
// read, since 10 is told before 9.
fn hand_out(values: &[u64], d: Data, numbers: &mut [u64], bytes: &mut [u8])
    requires { (length values.now ≤ length numbers.old) × (data_bytes ≤ length bytes.old) }
    ensures numbers_after { numbers.new ≡ written numbers.old 0 values.now }
    ensures bytes_after { bytes.new ≡ written bytes.old 0 d.bytes }
{
    let kept = d.bytes;
    numbers[..values.len()].copy_from_slice(values);
    bytes[..limits::DATA].copy_from_slice(&kept);
}

// What a writer answers, with the place behind the text handed out.
#[tactic(auto, unfolding(crate::specs::Console::next_of))]
pub(crate) fn answered(wrote: Result<usize, Refusal>, next: &mut u64) -> u64
    ensures value { result ≡ answer_of wrote }
    ensures next_after { next.new ≡ next_of wrote next.old }
{
    refusals::tell(wrote.map(|place| place as u64), next)
}

#[tactic(auto, unfolding(crate::specs::Console::ce_told, crate::specs::Console::handed))]
fn read_ce(
    text: &[u8],
    text_len: usize,
    numbers: &mut [u64],
    bytes: &mut [u8],
) -> Result<(), Refusal>
    ensures value { answer_of result ≡ answer_of (ce_told text.now text_len (length numbers.old) (length bytes.old)) }
    ensures numbers_after { numbers.new ≡ handed (ce_told text.now text_len (length numbers.old) (length bytes.old)) ce_numbers numbers.old }
    ensures bytes_after { bytes.new ≡ handed (ce_told text.now text_len (length numbers.old) (length bytes.old)) (λ p. p.proposal_data.bytes) bytes.old }
{
    if numbers.len() < 5 || bytes.len() < limits::DATA {
        return Err(Refusal::NoFit);
    }
    let p = two_pc_ce::read_ce_packet(text, text_len)?;
    let values = ce_numbers(p);
    hand_out(&values, p.proposal_data, numbers, bytes);
    Ok(())
}

// Hands out the packet whose text the first text_len bytes of text are: 5 numbers and 32 bytes.
#[unsafe(no_mangle)]
pub extern "C" fn ce_packet_read(
    text: &[u8],
    text_len: u64,
    numbers: &mut [u64],
    bytes: &mut [u8],
) -> u64
    ensures value { result ≡ answer_of (ce_told text.now text_len (length numbers.old) (length bytes.old)) }
    ensures numbers_after { numbers.new ≡ handed (ce_told text.now text_len (length numbers.old) (length bytes.old)) ce_numbers numbers.old }
    ensures bytes_after { bytes.new ≡ handed (ce_told text.now text_len (length numbers.old) (length bytes.old)) (λ p. p.proposal_data.bytes) bytes.old }
{
    refusals::answer(read_ce(text, text_len as usize, numbers, bytes))
}

#[tactic(auto, unfolding(crate::specs::Console::asked_wrote, crate::specs::Console::asked_left))]
fn write_ce(numbers: &[u64], bytes: &[u8], buf: &mut [u8], at: usize) -> Result<usize, Refusal>
    ensures value { result ≡ ce_wrote numbers.now bytes.now buf.old at }
    ensures buf_after { buf.new ≡ ce_left numbers.now bytes.now buf.old at }
{
    let p = ce_asked(numbers, bytes)?;
    two_pc_ce::write_ce_packet(buf, at, p)
}

// Writes the text of the packet that 5 numbers and its data ask for into buf from index at on, and the place behind it
// into next.
#[unsafe(no_mangle)]
pub extern "C" fn ce_packet_write(
    numbers: &[u64],
    bytes: &[u8],
    buf: &mut [u8],
    at: u64,
    next: &mut u64,
) -> u64
    ensures value { result ≡ answer_of (ce_wrote numbers.now bytes.now buf.old at) }
    ensures buf_after { buf.new ≡ ce_left numbers.now bytes.now buf.old at }
    ensures next_after { next.new ≡ next_of (ce_wrote numbers.now bytes.now buf.old at) next.old }
{
    answered(write_ce(numbers, bytes, buf, at as usize), next)
}

// (As `read_ce`, and further down `write_pipeline` as `write_ce`: of another family, with its own reader, numbers and
// rule. One function for both would take these three as arguments.)
#[tactic(auto, unfolding(crate::specs::Console::pipeline_told, crate::specs::Console::handed))]
fn read_pipeline(
    text: &[u8],
    text_len: usize,
    numbers: &mut [u64],
    bytes: &mut [u8],
) -> Result<(), Refusal>
    ensures value { answer_of result ≡ answer_of (pipeline_told text.now text_len (length numbers.old) (length bytes.old)) }
    ensures numbers_after { numbers.new ≡ handed (pipeline_told text.now text_len (length numbers.old) (length bytes.old)) pipeline_numbers numbers.old }
    ensures bytes_after { bytes.new ≡ handed (pipeline_told text.now text_len (length numbers.old) (length bytes.old)) (λ p. p.transaction_data.bytes) bytes.old }
{
    if numbers.len() < 12 || bytes.len() < limits::DATA {
        return Err(Refusal::NoFit);
    }
    let p = two_pc_pipeline::read_pipeline_packet(text, text_len)?;
    let values = pipeline_numbers(p);
    hand_out(&values, p.transaction_data, numbers, bytes);
    Ok(())
}

// Hands out the packet whose text the first text_len bytes of text are: 12 numbers and 32 bytes.
#[unsafe(no_mangle)]
pub extern "C" fn pipeline_packet_read(
    text: &[u8],
    text_len: u64,
    numbers: &mut [u64],
    bytes: &mut [u8],
) -> u64
    ensures value { result ≡ answer_of (pipeline_told text.now text_len (length numbers.old) (length bytes.old)) }
    ensures numbers_after { numbers.new ≡ handed (pipeline_told text.now text_len (length numbers.old) (length bytes.old)) pipeline_numbers numbers.old }
    ensures bytes_after { bytes.new ≡ handed (pipeline_told text.now text_len (length numbers.old) (length bytes.old)) (λ p. p.transaction_data.bytes) bytes.old }
{
    refusals::answer(read_pipeline(text, text_len as usize, numbers, bytes))
}

#[tactic(auto, unfolding(crate::specs::Console::asked_wrote, crate::specs::Console::asked_left))]
fn write_pipeline(
    numbers: &[u64],
    bytes: &[u8],
    buf: &mut [u8],
    at: usize,
) -> Result<usize, Refusal>
    ensures value { result ≡ pipeline_wrote numbers.now bytes.now buf.old at }
    ensures buf_after { buf.new ≡ pipeline_left numbers.now bytes.now buf.old at }
{
    let p = pipeline_asked(numbers, bytes)?;
    two_pc_pipeline::write_pipeline_packet(buf, at, p)
}

// Writes the text of the packet that 12 numbers and its data ask for into buf from index at on, and the place behind
// it into next.
#[unsafe(no_mangle)]
pub extern "C" fn pipeline_packet_write(
    numbers: &[u64],
    bytes: &[u8],
    buf: &mut [u8],
    at: u64,
    next: &mut u64,
) -> u64
    ensures value { result ≡ answer_of (pipeline_wrote numbers.now bytes.now buf.old at) }
    ensures buf_after { buf.new ≡ pipeline_left numbers.now bytes.now buf.old at }
    ensures next_after { next.new ≡ next_of (pipeline_wrote numbers.now bytes.now buf.old at) next.old }
{
    answered(write_pipeline(numbers, bytes, buf, at as usize), next)
}
