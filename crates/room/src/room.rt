// RULES 11.2 and 11.4. A room of 1 to 64 positions: opened once with all that is fixed, then called. Capture rooms
// take proposals and capture rounds, pipeline rooms pipeline rounds. A refused call says why, and leaves everything as
// it was.
ghost use Rattle.std.specs.Prelude.{◌≡◌, ◌&&◌, length, ◌==◌};
ghost use Rattle.graph.specs.Paths.{length_of};
ghost use Rattle.std.specs.Result.{result_unwrap_or};
ghost use Rattle.room.specs.Kinds.{is_pipeline, kind_number, kind_numbered, kind_test};
ghost use Rattle.room.specs.Rooms.{room_limits, open_test, round_length, new_room, conf_of, open_of, propose_of, capture_of, capture_buffer, pipeline_of, pipeline_buffer};

use super::capture_calls::CapturePart;
use super::{capture_calls, pipeline_calls};
use engines::network::{Network, RoundConf};
use engines::settings;
use engines::settings::Settings;
use flood::flood as engine;
use graph::network::NetworkGraph;
use limits::refusals::Refusal;
use pipeline::pipeline::PipelinePart;

// With the numbers that a frame and C have for them.
#[derive(Clone, Copy, Debug, PartialEq, Eq)]
pub enum RoomKind {
    Pipeline = 1,
    Capture = 2,
}

impl From<RoomKind> for u64 {
    ghost from_gives = { λ k n. n ≡ kind_number k };

    fn from(kind: RoomKind) -> u64 {
        kind as u64
    }
}

// And the way back. Every number but 1 is a capture room: C's lists may have any, and a frame refuses all but 1 and 2
// before it comes to this.
impl From<u64> for RoomKind {
    ghost from_gives = { λ n k. k ≡ kind_numbered n };

    fn from(n: u64) -> RoomKind {
        match n {
            1 => RoomKind::Pipeline,
            _ => RoomKind::Capture,
        }
    }
}

// What is fixed at the opening: the kind, what a round goes by, and of a pipeline room the number of transactions and
// the slot bound.
#[derive(Clone, Copy)]
pub struct RoomConf {
    pub kind: RoomKind,
    pub round: RoundConf,
    pub transactions: usize,
    pub bound: u64,
}

// The part of the other kind stays as it was opened.
#[derive(Clone, Copy)]
pub struct Room {
    pub conf: RoomConf,
    pub network: Network,
    pub capture: CapturePart,
    pub pipeline: PipelinePart,
}

// What an opening is asked for.
#[derive(Clone, Copy)]
pub struct Asked {
    pub kind: RoomKind,
    pub graph: NetworkGraph,
    pub settings: Settings,
    pub transactions: usize,
    pub term: u64,
    pub interval: u64,
    pub bound: u64,
}

// What a room never exceeds.
#[derive(Clone, Copy)]
pub struct Limits {
    pub positions: usize,
    pub transactions: usize,
    pub last_slot: u64,
    pub bitmap_entries: usize,
    pub data_bytes: usize,
}

impl Room {
    pub const POSITIONS: usize = limits::POSITIONS;

    pub const TRANSACTIONS: usize = limits::TRANSACTIONS;

    pub const LAST_SLOT: u64 = limits::LAST_SLOT;

    pub const BITMAP: usize = limits::BITMAP;

    pub const DATA: usize = limits::DATA;

    // All of them at once, for who sizes buffers by them.
    pub fn limits() -> Limits
        ensures { result ≡ room_limits }
    {
        Limits {
            positions: Room::POSITIONS,
            transactions: Room::TRANSACTIONS,
            last_slot: Room::LAST_SLOT,
            bitmap_entries: Room::BITMAP,
            data_bytes: Room::DATA,
        }
    }
}

// ---- opening

impl RoomKind {
    // Refusal 11 of a call for a room of the wanted kind.
    pub fn check(self, wanted: RoomKind) -> Result<(), Refusal>
        ensures { result ≡ kind_test wanted self }
    {
        if self != wanted {
            return Err(Refusal::OtherKind);
        }
        Ok(())
    }
}

fn no_repeats(kind: RoomKind, repeats: u32) -> bool
    ensures { result ≡ (is_pipeline kind && repeats == 0) }
{
    kind == RoomKind::Pipeline && repeats == 0
}

impl Asked {
    // Refusals 2 to 7.
    #[tactic(auto, unfolding(crate::specs::Rooms::open_test))]
    pub fn check(&self) -> Result<(), Refusal>
        ensures { result ≡ open_test self.now }
    {
        self.graph.check()?;
        if !settings::loss_accepted(self.settings.loss_rate) {
            return Err(Refusal::BadLoss);
        }
        if no_repeats(self.kind, self.settings.flood_repeats) {
            return Err(Refusal::NoRepeats);
        }
        if self.interval == 0 {
            return Err(Refusal::NoInterval);
        }
        if Room::TRANSACTIONS < self.transactions {
            return Err(Refusal::ManyTransactions);
        }
        Ok(())
    }
}

// Only a flood's length needs the diameter.
fn round_length(kind: RoomKind, s: Settings, g: NetworkGraph) -> u64
    ensures { result ≡ round_length kind s (result_unwrap_or (length_of g) 0) }
{
    match kind {
        RoomKind::Pipeline => {
            let diameter = g.diameter().unwrap_or(0);
            engine::flood_length(s.slots_given, s.round_slots, diameter, s.flood_repeats)
        }
        RoomKind::Capture => s.round_slots,
    }
}

pub fn conf_of(a: Asked) -> RoomConf
    ensures { result ≡ conf_of a }
{
    let kind = a.kind;
    let graph = a.graph;
    let settings = a.settings;
    let length = round_length(kind, settings, graph);
    RoomConf {
        kind,
        round: RoundConf {
            graph,
            settings,
            interval: a.interval,
            length,
        },
        transactions: a.transactions,
        bound: a.bound,
    }
}

fn new_room(conf: RoomConf, term: u64) -> Room
    ensures { result ≡ new_room conf term }
{
    Room {
        conf,
        network: Network::new(),
        capture: CapturePart::new(term),
        pipeline: PipelinePart::new(),
    }
}

// ---- the calls

impl Room {
    // A refused opening gives no room.
    #[tactic(auto, unfolding(crate::specs::Rooms::open_of))]
    pub fn open(asked: Asked) -> Result<Room, Refusal>
        ensures { result ≡ open_of asked }
    {
        asked.check()?;
        Ok(new_room(conf_of(asked), asked.term))
    }

    // Position v proposes in the next term.
    #[tactic(auto, unfolding(crate::specs::Rooms::propose_of))]
    pub fn propose(&mut self, v: usize) -> Result<(), Refusal>
        ensures { record { told = result; room = self.new } ≡ propose_of self.old v }
    {
        capture_calls::propose(self.conf, &mut self.capture, v)
    }

    // One capture round with the words from the cursor on; its rows are written behind the rows already used. It and
    // the next have one line each, and hand their own part to their own call: one for both would take both as
    // arguments.
    #[tactic(auto, unfolding(crate::specs::Rooms::capture_of))]
    pub fn capture_round(
        &mut self,
        words: &[u64],
        cursor: &mut usize,
        rows: &mut [u64],
        used: &mut usize,
    ) -> Result<(), Refusal>
        ensures value { record { told = result; cursor = cursor.new; used = used.new; room = self.new } ≡ capture_of words.now (length rows.old) used.old self.old cursor.old }
        ensures rows_after { rows.new ≡ capture_buffer words.now rows.old used.old self.old cursor.old }
    {
        let w = &mut self.network;
        capture_calls::capture_round(words, cursor, rows, used, self.conf, w, &mut self.capture)
    }

    // One pipeline round: prepare, flood, process.
    #[tactic(auto, unfolding(crate::specs::Rooms::pipeline_of))]
    pub fn pipeline_round(
        &mut self,
        words: &[u64],
        cursor: &mut usize,
        rows: &mut [u64],
        used: &mut usize,
    ) -> Result<(), Refusal>
        ensures value { record { told = result; cursor = cursor.new; used = used.new; room = self.new } ≡ pipeline_of words.now (length rows.old) used.old self.old cursor.old }
        ensures rows_after { rows.new ≡ pipeline_buffer words.now rows.old used.old self.old cursor.old }
    {
        let w = &mut self.network;
        pipeline_calls::pipeline_round(words, cursor, rows, used, self.conf, w, &mut self.pipeline)
    }
}
