// RULES 13.3 and 13.4. The room that a frame asks for, and the calls that it makes.
ghost use Rattle.std.specs.Prelude.{◌≡◌, ◌<◌, Ok, OnErr};
ghost use Rattle.std.specs.Float.{binary64};
ghost use Rattle.std.specs.Float.Ieee.{of_bits};
ghost use Rattle.room.specs.Kinds.{positions_of};
ghost use Rattle.frame.specs.Play.{left_by, unless_refused, capture_end, pipeline_end, settings_of, asked_of, new_play, proposing, behind_proposal, capturing, capture_turn, play_capture, pipeline_turn, play_pipeline, play_of, accepted_by, played_in, links_of, played_of};

use crate::line::Frame;
use engines::network::Network;
use engines::settings::Settings;
use graph::network::NetworkGraph;
use limits::refusals::Refusal;
use pipeline::pipeline::PipelinePart;
use room::capture_calls::CapturePart;
use room::room::{Asked, Room, RoomConf, RoomKind};
use room::{capture_calls, pipeline_calls, room as rooms};

// ---- the room

// The value of a pattern of bits. Every NaN is one value: the language makes none of bits. Without its sign a NaN's
// pattern stands above that of infinity.
#[tactic(auto, using(std::proofs::lemmas::Float::not_nan_f64_bits, crate::proofs::Floats::nan_above))]
fn float_of(bits: u64) -> f64
    ensures { result ≡ of_bits binary64 bits }
{
    if bits % 0x8000_0000_0000_0000 <= 0x7ff0_0000_0000_0000 {
        f64::from_bits(bits)
    } else {
        f64::NAN
    }
}

#[tactic(auto, unfolding(crate::specs::Play::settings_of))]
fn settings_of(f: Frame) -> Settings
    ensures { result ≡ settings_of f }
{
    Settings {
        loss_rate: float_of(f.loss),
        abort_probability: float_of(f.abort),
        seed: f.seed,
        listen_timeout: f.span as u64,
        flood_repeats: f.span,
        round_slots: f.slots as u64,
        slots_given: f.slots as u64 != Room::LAST_SLOT,
    }
}

#[tactic(auto, unfolding(crate::specs::Play::asked_of))]
fn asked_of(f: Frame, graph: NetworkGraph) -> Asked
    ensures { result ≡ asked_of f graph }
{
    let kind = f.kind;
    let settings = settings_of(f);
    Asked {
        kind,
        graph,
        settings,
        transactions: f.transactions as usize,
        term: 0,
        interval: Room::LAST_SLOT,
        bound: Room::LAST_SLOT,
    }
}

// What an accepted room goes by: so it has a position.
#[derive(Clone, Copy)]
pub struct AcceptedRoom {
    pub conf: RoomConf,
    ghost has_positions: { 0 < positions_of conf },
}

// ---- the calls of a room. They move its network and the part of its kind: a frame needs nothing else of a room.

// Where the calls have come to: the words drawn, the rows used, the network, and the part of the room's kind. The words
// and what the room goes by are passed beside it: no call changes them, and the rules speak of what calls change.
#[derive(Clone, Copy)]
pub struct Playing<P> {
    pub cursor: usize,
    pub used: usize,
    pub network: Network,
    pub part: P,
}

fn new_play<P>(part: P) -> Playing<P>
    ensures { result ≡ new_play part }
{
    Playing {
        cursor: 0,
        used: 0,
        network: Network::new(),
        part,
    }
}

#[tactic(auto, unfolding(crate::specs::Play::proposing), using(crate::proofs::Refused::proposal_stays))]
fn propose(conf: RoomConf, v: usize, s: &mut Playing<CapturePart>) -> Result<(), Refusal>
    ensures told { left_by result s.new ≡ proposing conf v s.old }
    ensures refused { OnErr result (s.new ≡ s.old) }
{
    capture_calls::propose(conf, &mut s.part, v)
}

// The row that a round writes is not read.
#[tactic(auto, unfolding(crate::specs::Play::capturing), using(crate::proofs::Refused::round_stays))]
fn capture_next(words: &[u64], conf: RoomConf, s: &mut Playing<CapturePart>) -> Result<(), Refusal>
    ensures told { left_by result s.new ≡ capturing words.now conf s.old }
    ensures refused { OnErr result (s.new ≡ s.old) }
{
    let mut row = [0u64; limits::ROW];
    let w = &mut s.network;
    capture_calls::capture_round(
        words,
        &mut s.cursor,
        &mut row,
        &mut s.used,
        conf,
        w,
        &mut s.part,
    )
}

// A refused turn leaves what its proposal left.
#[tactic(auto, unfolding(crate::specs::Play::capture_turn))]
fn capture_turn(
    words: &[u64],
    room: AcceptedRoom,
    k: usize,
    s: &mut Playing<CapturePart>,
) -> Result<(), Refusal>
    ensures told { left_by result s.new ≡ capture_turn words.now room.conf k s.old }
    ensures refused { OnErr result (s.new ≡ behind_proposal room.conf k s.old) }
{
    propose(room.conf, k % room.conf.round.graph.n, s)?;
    capture_next(words, room.conf, s)
}

fn play_capture(words: &[u64], room: AcceptedRoom, t: u8) -> Result<u64, Refusal>
    ensures { result ≡ unless_refused capture_end (play_capture t words.now room.conf) }
{
    let mut captured = new_play(CapturePart::new(0));
    for k in 0..t {
        capture_turn(words, room, k as usize, &mut captured)?;
    }
    Ok(captured.network.bytes_sent)
}

// The same as `capture_next`, of another call: one function of both would be given the call as a closure, and be no
// shorter.
#[tactic(auto, unfolding(crate::specs::Play::pipeline_turn), using(crate::proofs::Refused::flood_stays))]
fn pipeline_turn(
    words: &[u64],
    conf: RoomConf,
    s: &mut Playing<PipelinePart>,
) -> Result<(), Refusal>
    ensures told { left_by result s.new ≡ pipeline_turn words.now conf s.old }
    ensures refused { OnErr result (s.new ≡ s.old) }
{
    let mut row = [0u64; limits::ROW];
    let w = &mut s.network;
    pipeline_calls::pipeline_round(
        words,
        &mut s.cursor,
        &mut row,
        &mut s.used,
        conf,
        w,
        &mut s.part,
    )
}

fn play_pipeline(words: &[u64], conf: RoomConf, t: u8) -> Result<u64, Refusal>
    ensures { result ≡ unless_refused pipeline_end (play_pipeline t words.now conf) }
{
    let mut ran = new_play(PipelinePart::new());
    for k in 0..t as usize + 1002 {
        if ran.part.stop {
            return Ok(ran.network.bytes_sent);
        }
        pipeline_turn(words, conf, &mut ran)?;
    }
    Ok(ran.network.bytes_sent)
}

// ---- what comes of them

// The bytes sent.
fn play(f: Frame, words: &[u64], room: AcceptedRoom) -> Result<u64, Refusal>
    ensures { result ≡ play_of f words.now room.conf }
{
    match f.kind {
        RoomKind::Pipeline => play_pipeline(words, room.conf, f.transactions),
        RoomKind::Capture => play_capture(words, room, f.transactions),
    }
}

#[tactic(auto, using(room::proofs::Calling::opened_size))]
fn accepted(asked: Asked) -> Result<AcceptedRoom, Refusal>
    ensures { unless_refused (λ room. Ok room.conf) result ≡ accepted_by asked }
{
    asked.check()?;
    Ok(AcceptedRoom {
        conf: rooms::conf_of(asked),
    })
}

#[tactic(auto, unfolding(crate::specs::Play::played_in))]
fn play_in(f: Frame, words: &[u64], graph: NetworkGraph) -> Result<u64, Refusal>
    ensures { result ≡ played_in f words.now graph }
{
    let room = accepted(asked_of(f, graph))?;
    play(f, words, room)
}

fn links_of(f: Frame) -> Result<NetworkGraph, Refusal>
    ensures { result ≡ links_of f }
{
    NetworkGraph::from_topology(f.topology as u64, f.positions as usize, f.argument as usize)
}

// Refusals 2 and 3, and then the room.
#[tactic(auto, unfolding(crate::specs::Play::played_of))]
pub(crate) fn play_frame(f: Frame, words: &[u64]) -> Result<u64, Refusal>
    ensures { result ≡ played_of f words.now }
{
    if f.positions < 2 {
        return Err(Refusal::BadPositions);
    }
    if Room::POSITIONS < f.positions as usize {
        return Err(Refusal::BadPositions);
    }
    let graph = links_of(f)?;
    play_in(f, words, graph)
}
