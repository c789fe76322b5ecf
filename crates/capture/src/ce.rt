// RULES 8.5 and 8.6. Ported from phy/ce.rs: what positions hold after a capture slot, and the bytes that its flooders
// send. A slot is planned first (plan.rt), and then applied in place: whom a position hears floods, and who floods
// hears nobody, so what is read in a slot does not change in it (specs/Senders.antt).
ghost use Rattle.std.specs.Prelude.{◌≡◌, ◌<◌};
ghost use Rattle.capture.specs.Boards.{length_by, sent_by, decided_by, rests_by, Written, ToldOne, ToldAll};

use super::board;
use super::board::{DATA, FROM, LEN, MARKS, Phases, TERM};
use engines::network;
use graph::sets;
use merges::merging;
use merges::merging::Slip;
use merges::votes::Voting;
use packets::{TwoPcPhase, two_pc_ce};

// What positions hold so far in a slot, who can sleep by it, and to whom it was new.
#[derive(Clone, Copy)]
pub struct Told {
    pub phases: Phases,
    pub can_sleep: u64,
    pub new_info: u64,
}

// ---- bytes

// (Positions below 64, here and below: see board.rt.)
// The length of the payload that position i sends if it floods: that of its packet's text, 0 where it holds none.
fn text_len(p: Phases, table: &[u64; 576], i: usize) -> usize
    requires { i < 64 }
    ensures { result ≡ length_by p table.now i }
{
    if !board::holds(p, i) {
        return 0;
    }
    let s = board::slip_at(p, table, i);
    let from = (s.source % 64) as usize;
    two_pc_ce::ce_parts_len(s.term, s.phase, table[DATA + from] as usize, s.flags_bitmap)
}

// The bytes that the flooding positions send: each a header and the payload that it held at the slot's start.
pub(crate) fn bytes_of(flooding: u64, p: Phases, table: &[u64; 576]) -> u64
    ensures { result ≡ sent_by flooding p table.now }
{
    let mut sum: u64 = 0;
    for i in sets::iter(flooding) {
        sum = sum.wrapping_add(network::on_air(text_len(p, table, i) as u64));
    }
    sum
}

// ---- merges

fn is_decided(phase: TwoPcPhase) -> bool
    ensures { result ≡ decided_by phase }
{
    match phase {
        TwoPcPhase::Prepare => false,
        TwoPcPhase::Committed | TwoPcPhase::Aborted => true,
    }
}

// A decision is held, and its bitmap says that all hold it.
fn rests(n: usize, s: Slip) -> bool
    ensures { result ≡ rests_by n s }
{
    is_decided(s.phase) && merging::has_unanimity(n, s.flags_bitmap)
}

// Position i holds s from now on, which was new to it.
fn write(n: usize, t: Told, i: usize, s: Slip, table: &mut [u64; 576]) -> Told
    requires { i < 64 }
    ensures { Written n t i s table.old result table.new }
{
    let b = s.flags_bitmap;
    table[TERM + i] = s.term;
    table[LEN + i] = b.len as u64;
    table[MARKS + i] = b.marks;
    table[FROM + i] = s.source;
    Told {
        phases: board::put_phase(t.phases, i, s.phase),
        can_sleep: board::put(t.can_sleep, i, rests(n, s)),
        new_info: sets::with_mark(t.new_info, i),
    }
}

// Position i merges what src holds; who hears nobody (64) merges nothing.
fn tell(voting: Voting, t: Told, i: usize, src: usize, table: &mut [u64; 576]) -> Told
    requires { i < 64 }
    ensures { ToldOne voting t i src table.old result table.new }
{
    if 64 <= src {
        return t;
    }
    let p = t.phases;
    if !board::holds(p, src) {
        return t;
    }
    let held = board::held_by(p, i);
    let local = board::slip_at(p, table, i);
    let received = board::slip_at(p, table, src);
    let Some(news) = merging::hear(voting, held, local, received, i) else {
        return t;
    };
    write(voting.n, t, i, news, table)
}

// Each target merges what it heard. No target is heard, so all of it is as it was held at the slot's start.
pub(crate) fn tell_all(
    voting: Voting,
    targets: u64,
    hears: &[usize; 64],
    before: Told,
    table: &mut [u64; 576],
) -> Told
    ensures { ToldAll voting targets hears.now before table.old result table.new }
{
    let mut t = before;
    for i in sets::iter(targets) {
        t = tell(voting, t, i, hears[i], table);
    }
    t
}
