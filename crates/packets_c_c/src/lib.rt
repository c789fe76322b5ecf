// RULES 17. What C links of packets_c: each entry is the function of that crate of the same name, with its clauses and
// its parameters, which are C's.
#![tactic(auto)]

ghost use Rattle.std.specs.Prelude.{◌≡◌, length};
ghost use mir.Val.{bool_byte};
ghost use Rattle.limits.specs.Refusals.{answer_of};
ghost use Rattle.merges.specs.Votes.{no_of};
ghost use Rattle.packets_c.specs.Desk.{voters, desk_of, proposed_of, proposed_left};
ghost use Rattle.packets_c.specs.Console.{ce_numbers, pipeline_numbers, ce_told, pipeline_told, handed, ce_wrote, ce_left, pipeline_wrote, pipeline_left, next_of};

// 1 if the position votes no in the term, 0 if it votes yes. Nothing is refused.
#[unsafe(no_mangle)]
pub extern "C" fn ce_vote(term: u64, node_id: u64, abort_probability: f64, seed: u64) -> u64
    ensures { result ≡ bool_byte (no_of (voters 0 abort_probability seed) term node_id) }
{
    packets_c::asking::ce_vote(term, node_id, abort_probability, seed)
}

// Hands out the packet whose text the first text_len bytes of text are: 5 numbers and 32 bytes.
#[unsafe(no_mangle)]
pub extern "C" fn ce_packet_read(
    text: &[u8],
    text_len: u64,
    numbers: &mut [u64],
    bytes: &mut [u8],
) -> u64
    ensures value { result ≡ answer_of (ce_told text.now text_len (length numbers.old) (length bytes.old)) }
    ensures numbers_after { numbers.new ≡ handed (ce_told text.now text_len (length numbers.old) (length bytes.old)) ce_numbers numbers.old }
    ensures bytes_after { bytes.new ≡ handed (ce_told text.now text_len (length numbers.old) (length bytes.old)) (λ p. p.proposal_data.bytes) bytes.old }
{
    packets_c::console::ce_packet_read(text, text_len, numbers, bytes)
}

// Writes the text of the packet that 5 numbers and its data ask for into buf from index at on, and the place behind it
// into next.
#[unsafe(no_mangle)]
pub extern "C" fn ce_packet_write(
    numbers: &[u64],
    bytes: &[u8],
    buf: &mut [u8],
    at: u64,
    next: &mut u64,
) -> u64
    ensures value { result ≡ answer_of (ce_wrote numbers.now bytes.now buf.old at) }
    ensures buf_after { buf.new ≡ ce_left numbers.now bytes.now buf.old at }
    ensures next_after { next.new ≡ next_of (ce_wrote numbers.now bytes.now buf.old at) next.old }
{
    packets_c::console::ce_packet_write(numbers, bytes, buf, at, next)
}

// Hands out the packet whose text the first text_len bytes of text are: 12 numbers and 32 bytes.
#[unsafe(no_mangle)]
pub extern "C" fn pipeline_packet_read(
    text: &[u8],
    text_len: u64,
    numbers: &mut [u64],
    bytes: &mut [u8],
) -> u64
    ensures value { result ≡ answer_of (pipeline_told text.now text_len (length numbers.old) (length bytes.old)) }
    ensures numbers_after { numbers.new ≡ handed (pipeline_told text.now text_len (length numbers.old) (length bytes.old)) pipeline_numbers numbers.old }
    ensures bytes_after { bytes.new ≡ handed (pipeline_told text.now text_len (length numbers.old) (length bytes.old)) (λ p. p.transaction_data.bytes) bytes.old }
{
    packets_c::console::pipeline_packet_read(text, text_len, numbers, bytes)
}

// Writes the text of the packet that 12 numbers and its data ask for into buf from index at on, and the place behind
// it into next.
#[unsafe(no_mangle)]
pub extern "C" fn pipeline_packet_write(
    numbers: &[u64],
    bytes: &[u8],
    buf: &mut [u8],
    at: u64,
    next: &mut u64,
) -> u64
    ensures value { result ≡ answer_of (pipeline_wrote numbers.now bytes.now buf.old at) }
    ensures buf_after { buf.new ≡ pipeline_left numbers.now bytes.now buf.old at }
    ensures next_after { next.new ≡ next_of (pipeline_wrote numbers.now bytes.now buf.old at) next.old }
{
    packets_c::console::pipeline_packet_write(numbers, bytes, buf, at, next)
}

// Merges the received text into the local one, for position node_id of n. The answer is the refusal, 0 for none;
// `news` is 1 then if the local text is new, and 0 if it is as it was. A refused call writes nothing.
#[unsafe(no_mangle)]
pub extern "C" fn ce_packet_merge(
    local: &mut [u8],
    local_len: &mut u64,
    received: &[u8],
    received_len: u64,
    n: u64,
    node_id: u64,
    abort_probability: f64,
    seed: u64,
    news: &mut u64,
) -> u64
    ensures value { result ≡ (desk_of (voters n abort_probability seed) node_id local.old local_len.old received.now received_len news.old).refusal }
    ensures local_after { local.new ≡ (desk_of (voters n abort_probability seed) node_id local.old local_len.old received.now received_len news.old).text }
    ensures local_len_after { local_len.new ≡ (desk_of (voters n abort_probability seed) node_id local.old local_len.old received.now received_len news.old).len }
    ensures news_after { news.new ≡ (desk_of (voters n abort_probability seed) node_id local.old local_len.old received.now received_len news.old).news }
{
    packets_c::desk::ce_packet_merge(
        local,
        local_len,
        received,
        received_len,
        n,
        node_id,
        abort_probability,
        seed,
        news,
    )
}

// Writes the text of the packet that position initiator of n proposes after `term`, and its length into next. The
// answer is the refusal, 0 for none; a refused call writes nothing.
#[unsafe(no_mangle)]
pub extern "C" fn ce_packet_propose(
    term: u64,
    n: u64,
    initiator: u64,
    abort_probability: f64,
    seed: u64,
    buf: &mut [u8],
    next: &mut u64,
) -> u64
    ensures value { result ≡ answer_of (proposed_of (voters n abort_probability seed) initiator term buf.old) }
    ensures buf_after { buf.new ≡ proposed_left (voters n abort_probability seed) initiator term buf.old }
    ensures next_after { next.new ≡ next_of (proposed_of (voters n abort_probability seed) initiator term buf.old) next.old }
{
    packets_c::desk::ce_packet_propose(term, n, initiator, abort_probability, seed, buf, next)
}
