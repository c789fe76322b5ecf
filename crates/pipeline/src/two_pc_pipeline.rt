// RULES 10.1. Ported from protocol/two_pc_pipeline.rs: what a position knows of transactions, and what a round's
// packet says. A pending transaction's data is never read again, so it is not held; nor is the highest transaction
// seen, which nobody reads.
use engines::words::Draw;

// A finished transaction, and whether it was committed.
#[derive(Clone, Copy)]
pub struct LogEntry {
    pub tx: u8,
    pub committed: bool,
}

// The first len entries, in the order in which they were entered. No fact bounds len: a state that C lends may say any
// number, and is taken as it is.
#[derive(Clone, Copy)]
pub struct TxLog {
    pub len: usize,
    pub entries: [LogEntry; 64],
}

// PendingTx by fields: a mark for each pending transaction and for each that has an abort, and the yes votes of each,
// a mark for each position. The list of the Rust is always in rising order, since each transaction's data is on air
// in one round only. Votes are no Option: C is given back also those that it lent of a transaction that is not pending.
#[derive(Clone, Copy)]
pub struct NodeTwoPcState {
    pub log: TxLog,
    pub pending: u64,
    pub aborts: u64,
    pub votes: [u64; 64],
}

// The votes on a transaction once a position has added its own.
#[derive(Clone, Copy)]
pub struct Vote {
    pub bits: u64,
    pub abort: bool,
    pub draw: Draw,
}

// An outcome that a packet tells besides. Not a LogEntry: the transaction is any number that C lends, and an entry of a
// log has one byte for it.
#[derive(Clone, Copy, Debug, PartialEq, Eq)]
pub struct Outcome {
    pub tx: usize,
    pub committed: bool,
}

// What a round's packet says. The rest of a TwoPcPacket follows: the phase is Prepare, the bitmap has an entry for
// each position, and the data is that of the transaction if it is new. `fresh` stands beside the number and is no
// Option of it: a packet without data names its transaction too. Nack 0 asks for nothing: the text has no other word
// for it.
#[derive(Clone, Copy, Debug, PartialEq, Eq)]
pub struct RoundPacket {
    pub tx: usize,
    pub bits: u64,
    pub abort: bool,
    pub nack: usize,
    pub fresh: bool,
    pub sender: usize,
    pub piggyback: Option<Outcome>,
}

// The room's records: the outcomes in the order in which they were recorded, and the slot at which each transaction's
// was.
#[derive(Clone, Copy)]
pub struct Records {
    pub log: TxLog,
    pub ends: [u64; 64],
}

// How many transactions were generated, and for each the slot and the round in which it was. Two arrays, as C lends
// them and is given them back: all slots, and behind them all rounds.
#[derive(Clone, Copy)]
pub struct Txs {
    pub counter: usize,
    pub starts: [u64; 64],
    pub rounds: [u64; 64],
}
