// RULES 5. The text of both packet families: written into a lent buffer, measured, and read. The forms are those of
// two_pc_ce.rs and two_pc_pipeline.rs.
#![tactic(auto)]

ghost use Rattle.std.specs.Prelude.{◌≡◌};
ghost use Rattle.packets.specs.Packets.{phase_text};

mod field;
pub mod len;
mod put;
mod read;
pub mod two_pc_ce;
pub mod two_pc_pipeline;

// TwoPcCePhase and TwoPcState in one: both have these variants.
#[derive(Clone, Copy, Debug, PartialEq, Eq, PartialOrd, Ord)]
pub enum TwoPcPhase {
    Prepare = 0,
    Committed = 1,
    Aborted = 2,
}

impl TwoPcPhase {
    // Its name in quotation marks.
    fn text(self) -> &'static [u8]
        ensures { result.now ≡ phase_text self }
    {
        match self {
            TwoPcPhase::Prepare => b"\"Prepare\"",
            TwoPcPhase::Committed => b"\"Committed\"",
            TwoPcPhase::Aborted => b"\"Aborted\"",
        }
    }
}

// The first len marks of a word: mark i is bit i.
#[derive(Clone, Copy, Debug, PartialEq, Eq)]
pub struct Bitmap {
    pub len: usize,
    pub marks: u64,
}

// The first len of 32 bytes. No ArrayVec, which is not Copy, while packets are copied. And the type does not bound len:
// C may state any. A longer one is refused where it counts, and behind the last position goes back to C as it came.
#[derive(Clone, Copy)]
pub struct Data {
    pub len: usize,
    pub bytes: [u8; 32],
}

#[derive(Clone, Copy)]
pub struct CeTwoPcPacket {
    pub term: u64,
    pub phase: TwoPcPhase,
    pub proposal_data: Data,
    pub flags_bitmap: Bitmap,
}

#[derive(Clone, Copy)]
pub struct TwoPcPacket {
    pub transaction_id: u64,
    pub state: TwoPcPhase,
    pub flags_bitmap: Bitmap,
    pub abort_flag: bool,
    pub nack_tx_id: u64,
    pub transaction_data: Data,
    pub sender: u64,
    pub piggyback_tx: Option<u64>,
    pub piggyback_state: Option<TwoPcPhase>,
}
