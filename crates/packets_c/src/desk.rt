// RULES 6.8 and 6.6. The merge on lent texts, for the C console.
ghost use Rattle.std.specs.Prelude.{◌≡◌, ◌&&◌, Ok, Err, leb, ltb, length};
ghost use Rattle.limits.specs.Limits.{positions};
ghost use Rattle.limits.specs.Refusals.{answer_of};
ghost use Rattle.limits.specs.declared.refusals.Refusal.TheVariants.{BadPositions, NoPosition};
ghost use Rattle.loops.specs.Pick.{either};
ghost use Rattle.packets_c.specs.Console.{next_of};
ghost use Rattle.packets_c.specs.Desk.{refusal_of, rewritten, voters, desk_of, propose_refusal, proposed_of, proposed_left};
ghost use Rattle.merges.specs.Merging.{payload_of};

use super::console;
use limits::refusals;
use limits::refusals::Refusal;
use merges::merging;
use merges::merging::{Held, Payload};
use merges::votes::Voting;
use packets::{CeTwoPcPacket, two_pc_ce};

// What the first len bytes of a text are.
#[tactic(auto, unfolding(merges::specs::Merging::payload_of))]
fn payload_of(text: &[u8], len: usize) -> Payload
    ensures { result ≡ payload_of text.now len }
{
    if len == 0 {
        return Payload::without(Held::Empty);
    }
    match two_pc_ce::read_ce_packet(text, len) {
        Ok(packet) => Payload {
            held: Held::Packet,
            packet,
        },
        Err(_) => Payload::without(Held::Unreadable),
    }
}

// (graph's `check_position` says the same; this crate does not lean on graph.)
fn check_position(n: usize, v: usize) -> Result<(), Refusal>
    ensures { result ≡ either (ltb 0 n && leb n positions) (either (ltb v n) (Ok tt) (Err NoPosition)) (Err BadPositions) }
{
    if n == 0 || n > limits::POSITIONS {
        return Err(Refusal::BadPositions);
    }
    if v >= n {
        return Err(Refusal::NoPosition);
    }
    Ok(())
}

// What is tested before any text is read: the position before any length.
#[tactic(auto, unfolding(crate::specs::Desk::refusal_of))]
fn check_merge(
    n: usize,
    node_id: usize,
    cap: usize,
    len: usize,
    rcap: usize,
    rlen: usize,
) -> Result<(), Refusal>
    ensures { result ≡ refusal_of n node_id cap len rcap rlen }
{
    check_position(n, node_id)?;
    if len > cap || rlen > rcap {
        return Err(Refusal::NoFit);
    }
    Ok(())
}

// Puts a new packet's text in the place of the local one.
#[tactic(auto, unfolding(crate::specs::Desk::rewritten, crate::specs::Console::next_of))]
fn rewrite(
    local: &mut [u8],
    local_len: &mut u64,
    news: &mut u64,
    p: CeTwoPcPacket,
) -> Result<(), Refusal>
    ensures value { answer_of result ≡ (rewritten local.old local_len.old news.old p).refusal }
    ensures local_after { local.new ≡ (rewritten local.old local_len.old news.old p).text }
    ensures local_len_after { local_len.new ≡ (rewritten local.old local_len.old news.old p).len }
    ensures news_after { news.new ≡ (rewritten local.old local_len.old news.old p).news }
{
    *local_len = two_pc_ce::write_ce_packet(local, 0, p)? as u64;
    *news = 1;
    Ok(())
}

#[tactic(auto, unfolding(crate::specs::Desk::desk_of, crate::specs::Desk::answered))]
fn merge(
    voting: Voting,
    node_id: usize,
    local: &mut [u8],
    local_len: &mut u64,
    received: &[u8],
    received_len: usize,
    news: &mut u64,
) -> Result<(), Refusal>
    ensures value { answer_of result ≡ (desk_of voting node_id local.old local_len.old received.now received_len news.old).refusal }
    ensures local_after { local.new ≡ (desk_of voting node_id local.old local_len.old received.now received_len news.old).text }
    ensures local_len_after { local_len.new ≡ (desk_of voting node_id local.old local_len.old received.now received_len news.old).len }
    ensures news_after { news.new ≡ (desk_of voting node_id local.old local_len.old received.now received_len news.old).news }
{
    let len = *local_len as usize;
    check_merge(
        voting.n,
        node_id,
        local.len(),
        len,
        received.len(),
        received_len,
    )?;
    let ours = payload_of(local, len);
    let theirs = payload_of(received, received_len);
    match merging::merge(voting, ours, theirs, node_id) {
        None => {
            *news = 0;
            Ok(())
        }
        Some(packet) => rewrite(local, local_len, news, packet),
    }
}

// Merges the received text into the local one, for position node_id of n. The answer is the refusal, 0 for none;
// `news` is 1 then if the local text is new, and 0 if it is as it was. A refused call writes nothing.
#[unsafe(no_mangle)]
pub extern "C" fn ce_packet_merge(
    local: &mut [u8],
    local_len: &mut u64,
    received: &[u8],
    received_len: u64,
    n: u64,
    node_id: u64,
    abort_probability: f64,
    seed: u64,
    news: &mut u64,
) -> u64
    ensures value { result ≡ (desk_of (voters n abort_probability seed) node_id local.old local_len.old received.now received_len news.old).refusal }
    ensures local_after { local.new ≡ (desk_of (voters n abort_probability seed) node_id local.old local_len.old received.now received_len news.old).text }
    ensures local_len_after { local_len.new ≡ (desk_of (voters n abort_probability seed) node_id local.old local_len.old received.now received_len news.old).len }
    ensures news_after { news.new ≡ (desk_of (voters n abort_probability seed) node_id local.old local_len.old received.now received_len news.old).news }
{
    let voting = Voting {
        n: n as usize,
        abort_probability,
        seed,
    };
    refusals::answer(merge(
        voting,
        node_id as usize,
        local,
        local_len,
        received,
        received_len as usize,
        news,
    ))
}

#[tactic(auto, unfolding(crate::specs::Desk::propose_refusal))]
fn check_proposal(n: usize, initiator: usize, term: u64) -> Result<(), Refusal>
    ensures { result ≡ propose_refusal n initiator term }
{
    check_position(n, initiator)?;
    if term == limits::LAST_TERM {
        return Err(Refusal::NoTerm);
    }
    Ok(())
}

#[tactic(auto, unfolding(crate::specs::Desk::proposed_of, crate::specs::Desk::proposed_left, crate::specs::Console::asked_wrote, crate::specs::Console::asked_left))]
fn propose(voting: Voting, initiator: usize, term: u64, buf: &mut [u8]) -> Result<usize, Refusal>
    ensures value { result ≡ proposed_of voting initiator term buf.old }
    ensures buf_after { buf.new ≡ proposed_left voting initiator term buf.old }
{
    check_proposal(voting.n, initiator, term)?;
    two_pc_ce::write_ce_packet(buf, 0, merging::init_proposal(voting, term, initiator))
}

// Writes the text of the packet that position initiator of n proposes after `term`, and its length into next. The
// answer is the refusal, 0 for none; a refused call writes nothing.
#[unsafe(no_mangle)]
pub extern "C" fn ce_packet_propose(
    term: u64,
    n: u64,
    initiator: u64,
    abort_probability: f64,
    seed: u64,
    buf: &mut [u8],
    next: &mut u64,
) -> u64
    ensures value { result ≡ answer_of (proposed_of (voters n abort_probability seed) initiator term buf.old) }
    ensures buf_after { buf.new ≡ proposed_left (voters n abort_probability seed) initiator term buf.old }
    ensures next_after { next.new ≡ next_of (proposed_of (voters n abort_probability seed) initiator term buf.old) next.old }
{
    let voting = Voting {
        n: n as usize,
        abort_probability,
        seed,
    };
    console::answered(propose(voting, initiator as usize, term, buf), next)
}
