// RULES none. Reads packet texts, writes and merges them, and proposes, by the entries for C, and prints the answers;
// the file `stdout` holds the Rust's answers to the same questions. Both files are made by
// differential/packet_cases.py from three samples (`differential/run --sample` with packets, merge and late); it adds
// the cases at the limits, off the grammar and of buffers that are too small. The sample late is of lists of proposals
// and deliveries: each event is a question 6 or 5, with the texts that the Rust had then. A line is words with single
// blanks between them: numbers in decimal; texts and data in hexadecimal, - for an empty one. What stands behind the
// words of a question is a note, and is not read.
// A line is what a byte 10 ends, and may have any bytes: nothing of it is refused. Of a number the digits are read, but
// for one with which it would not fit, and every other byte is passed over. Of a text each two bytes are one, of which
// a byte that is no digit (0 to 9, A to F) is 0; an odd one at the end is none, as - is, and there are 1024 at most. A
// word that is missing is empty, and so a 0. A line that asks by another number is answered by an empty one.
//   1 text length                            a capture text and its stated length
//   2 text length                            a pipeline text
//   3 data size place numbers                a capture packet of 5 numbers, to be written at that place of a
//                                            buffer of that size
//   4 data size place numbers                a pipeline packet of 12 numbers
//   5 local received n abort seed position   a merge; the abort probability is told by its bits
//   6 size term n abort seed position        a proposal after that term, into a buffer of that size
// A text that is read is written again, into a buffer that has one byte before it and one behind. The answer to 1 to 4
// and 6 is the place behind what was written, and the whole buffer, where a dot is a byte that nobody wrote; or the
// refusal, and the buffer if it is the writing that was refused. The answer to 5 is 1 if there was news, 0 if not, and
// the local text afterwards.
#![tactic(auto)]

ghost use Rattle.std.specs.Prelude.{◌≤◌};

use case_lines::number;
use packets_c::{console, desk};
use std::alloc::{AllocError, Global};
use std::io;
use std::io::Read;

// The words that are read of a line.
const WORDS: usize = 16;

// The most bytes of a text or a buffer.
const MOST: usize = 1024;

// The numbers of a pipeline packet. A capture packet has fewer, and the others are not looked at.
const NUMBERS: usize = 12;

// What an entry for C told, or the number of its refusal: the entries answer with numbers, and numbers are printed.
fn accepted<T: Drop>(refusal: u64, told: T) -> Result<T, u64> {
    if refusal == 0 { Ok(told) } else { Err(refusal) }
}

// What a text was read to, in the two lists that C has for it: no number belongs to a byte of the data.
#[derive(Clone, Copy)]
struct Packet {
    numbers: [u64; NUMBERS],
    data: [u8; limits::DATA],
}

#[derive(Clone, Copy)]
enum Family {
    Capture,
    Pipeline,
}

impl Family {
    fn read(self, text: &[u8], len: u64) -> Result<Packet, u64> {
        let mut numbers = [0; NUMBERS];
        let mut data = [0; limits::DATA];
        let refusal = match self {
            Family::Capture => console::ce_packet_read(text, len, &mut numbers, &mut data),
            Family::Pipeline => console::pipeline_packet_read(text, len, &mut numbers, &mut data),
        };
        accepted(refusal, Packet { numbers, data })
    }

    // The place behind what was written.
    fn write(self, numbers: &[u64], data: &[u8], buf: &mut [u8], place: u64) -> Result<u64, u64> {
        let mut next = 0;
        let refusal = match self {
            Family::Capture => console::ce_packet_write(numbers, data, buf, place, &mut next),
            Family::Pipeline => {
                console::pipeline_packet_write(numbers, data, buf, place, &mut next)
            }
        };
        accepted(refusal, next)
    }
}

// ---- the words of a question

// The words of a line, and empty ones behind them.
type Words<'a> = [&'a [u8]; WORDS];

fn words_of(line: &[u8]) -> Words<'_> {
    let mut words = [&line[..0]; WORDS];
    for (place, word) in words.iter_mut().zip(line.split(|byte| *byte == b' ')) {
        *place = word;
    }
    words
}

fn digit_of(byte: u8) -> u8
    ensures { result ≤ 15 }
{
    match byte {
        b'0'..=b'9' => byte - b'0',
        b'A'..=b'F' => byte - b'A' + 10,
        _ => 0,
    }
}

fn byte_of(digits: &[u8; 2]) -> u8 {
    let [high, low] = digits;
    digit_of(*high) * 16 + digit_of(*low)
}

fn bytes_of(alloc: Global, word: &[u8]) -> Result<Vec<u8>, AllocError> {
    let (pairs, _) = word.as_chunks::<2>();
    pairs.iter().take(MOST).map(byte_of).collect(alloc)
}

// Every NaN is one value: the language makes none of bits. (frame has one of its own: a test program of packets leans on
// no frame.)
#[tactic(auto, using(std::proofs::lemmas::Float::not_nan_f64_bits))]
fn float_of(bits: u64) -> f64 {
    if bits % 0x8000_0000_0000_0000 <= 0x7ff0_0000_0000_0000 {
        f64::from_bits(bits)
    } else {
        f64::NAN
    }
}

// A position that votes.
#[derive(Clone, Copy)]
struct Voter {
    n: u64,
    abort: f64,
    seed: u64,
    position: u64,
}

impl Voter {
    fn from_words([_, _, _, n, abort, seed, position, ..]: Words) -> Voter {
        Voter {
            n: number(n),
            abort: float_of(number(abort)),
            seed: number(seed),
            position: number(position),
        }
    }

    // Whether there was news, and how long the local text is afterwards. Before, the two are as long as `lens` says.
    fn merge(self, local: &mut [u8], received: &[u8], lens: (u64, u64)) -> Result<(u64, u64), u64> {
        let (mut len, received_len) = lens;
        let mut news = 0;
        let refusal = desk::ce_packet_merge(
            local,
            &mut len,
            received,
            received_len,
            self.n,
            self.position,
            self.abort,
            self.seed,
            &mut news,
        );
        accepted(refusal, (news, len))
    }

    // The place behind the proposal's text.
    fn propose(self, term: u64, buf: &mut [u8]) -> Result<u64, u64> {
        let mut next = 0;
        let refusal = desk::ce_packet_propose(
            term,
            self.n,
            self.position,
            self.abort,
            self.seed,
            buf,
            &mut next,
        );
        accepted(refusal, next)
    }
}

// ---- answers

fn buffer(alloc: Global, size: u64) -> Result<Vec<u8>, AllocError> {
    vec![in alloc; b'.'; MOST.min(size as usize)]
}

fn say_wrote(rt: &impl Print, wrote: Result<u64, u64>, buf: &[u8]) -> io::Result<()> {
    match wrote {
        Ok(next) => print!(rt; "{next} ")?,
        Err(refusal) => print!(rt; "refusal {refusal} ")?,
    }
    rt.write_all(buf)?;
    println!(rt)
}

fn write(
    rt: &(impl Print + AllocGlobal),
    family: Family,
    numbers: &[u64],
    data: &[u8],
    size: u64,
    place: u64,
) -> io::Result<()> {
    let mut buf = buffer(rt.alloc(), size)?;
    let wrote = family.write(numbers, data, &mut buf, place);
    say_wrote(rt, wrote, &buf)
}

fn read(rt: &(impl Print + AllocGlobal), family: Family, text: &[u8], len: u64) -> io::Result<()> {
    match family.read(text, len) {
        Ok(packet) => {
            let size = len.wrapping_add(2);
            write(rt, family, &packet.numbers, &packet.data, size, 1)
        }
        Err(refusal) => println!(rt; "refusal {refusal}"),
    }
}

// Each text lies in a buffer of the greatest size.
fn merge(
    rt: &(impl Print + AllocGlobal),
    mut local: Vec<u8>,
    mut received: Vec<u8>,
    voter: Voter,
) -> io::Result<()> {
    let lens = (local.len() as u64, received.len() as u64);
    local.resize(MOST, b'.')?;
    received.resize(MOST, b'.')?;
    match voter.merge(&mut local, &received, lens) {
        Ok((news, len)) => {
            let end = local.len().min(len as usize);
            print!(rt; "{news} ")?;
            rt.write_all(&local[..end])?;
            println!(rt)
        }
        Err(refusal) => println!(rt; "refusal {refusal}"),
    }
}

fn propose(rt: &(impl Print + AllocGlobal), size: u64, term: u64, voter: Voter) -> io::Result<()> {
    let mut buf = buffer(rt.alloc(), size)?;
    let wrote = voter.propose(term, &mut buf);
    say_wrote(rt, wrote, &buf)
}

// ---- a question

fn ask_read(
    rt: &(impl Print + AllocGlobal),
    family: Family,
    [_, text, len, ..]: Words,
) -> io::Result<()> {
    let text = bytes_of(rt.alloc(), text)?;
    read(rt, family, &text, number(len))
}

fn ask_write(rt: &(impl Print + AllocGlobal), family: Family, words: Words) -> io::Result<()> {
    let [_, data, size, place, ..] = words;
    let data = bytes_of(rt.alloc(), data)?;
    let numbers: Vec<u64> = words[4..]
        .iter()
        .map(|word| number(word))
        .collect(rt.alloc())?;
    write(rt, family, &numbers, &data, number(size), number(place))
}

fn ask_merge(rt: &(impl Print + AllocGlobal), words: Words) -> io::Result<()> {
    let [_, local, received, ..] = words;
    let local = bytes_of(rt.alloc(), local)?;
    let received = bytes_of(rt.alloc(), received)?;
    merge(rt, local, received, Voter::from_words(words))
}

fn ask_proposal(rt: &(impl Print + AllocGlobal), words: Words) -> io::Result<()> {
    let [_, size, term, ..] = words;
    propose(rt, number(size), number(term), Voter::from_words(words))
}

fn answer(rt: &(impl Print + AllocGlobal), words: Words) -> io::Result<()> {
    match number(words[0]) {
        1 => ask_read(rt, Family::Capture, words),
        2 => ask_read(rt, Family::Pipeline, words),
        3 => ask_write(rt, Family::Capture, words),
        4 => ask_write(rt, Family::Pipeline, words),
        5 => ask_merge(rt, words),
        6 => ask_proposal(rt, words),
        _ => println!(rt),
    }
}

// All of the questions are read before the first is answered.
fn main(rt: HostRuntime) -> io::Result<()> {
    let mut text = Vec::new(rt.alloc());
    rt.reader().read_to_end(&mut text)?;
    let ends = text.iter().filter(|byte| **byte == b'\n').count();
    for line in text.split(|byte| *byte == b'\n').take(ends) {
        answer(&rt, words_of(line))?;
    }
    Ok(())
}
