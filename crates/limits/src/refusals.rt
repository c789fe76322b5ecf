// RULES 15. Why a call is refused, and the numbers of the refusals. Where several hold the lowest is told, but for
// NoFit of a stated length, which comes before BadPacket.
ghost use Rattle.std.specs.Prelude.{◌≡◌};
ghost use Rattle.limits.specs.Refusals.{number_of, answer_of, after};

use std::error::Error;
use std::fmt;

#[derive(Clone, Copy, Debug, PartialEq, Eq, Hash)]
pub enum Refusal {
    // A frame line: a digit, its length, its kind or its name.
    BadLine = 1,

    // Not 1 to 64 positions; in a frame, not 2 to 64.
    BadPositions = 2,

    // A topology that is none, an argument that it does not take, or a neighbour that is no position.
    BadLinks = 3,

    // A loss outside of [0, 1), or no number.
    BadLoss = 4,

    // A pipeline room without repeats.
    NoRepeats = 5,

    // No interval between rows.
    NoInterval = 6,

    // More transactions than a room has place for.
    ManyTransactions = 7,

    // A position at or above the number of positions.
    NoPosition = 8,

    // A packet's text outside of the grammar, or its bitmap or data too long.
    BadPacket = 9,

    // A text that does not fit, or a stated length beyond its buffer.
    NoFit = 10,

    // A call for the other kind of room.
    OtherKind = 11,

    // A capture round before any proposal.
    NoProposal = 12,

    // A proposal behind the last term.
    NoTerm = 13,

    // A pipeline room that has stopped, or whose slot has reached its bound.
    Stopped = 14,

    // A round whose full length passes the last slot.
    TooLong = 15,

    // A round that draws more words than there are.
    WordsShort = 16,

    // A round with more rows due than the buffer has place for.
    RowsShort = 17,
}

impl From<Refusal> for u64 {
    ghost from_gives = { λ k n. n ≡ number_of k };

    fn from(refusal: Refusal) -> u64 {
        refusal as u64
    }
}

impl fmt::Display for Refusal {
    fn fmt<W: fmt::Write>(&self, f: &mut fmt::Formatter<W>) -> fmt::Result {
        f.write_str(match self {
            Refusal::BadLine => "no frame line",
            Refusal::BadPositions => "no such number of positions",
            Refusal::BadLinks => "no such links",
            Refusal::BadLoss => "no such loss",
            Refusal::NoRepeats => "no repeats",
            Refusal::NoInterval => "no interval between rows",
            Refusal::ManyTransactions => "too many transactions",
            Refusal::NoPosition => "no such position",
            Refusal::BadPacket => "no packet",
            Refusal::NoFit => "does not fit",
            Refusal::OtherKind => "a call for the other kind of room",
            Refusal::NoProposal => "nobody has proposed",
            Refusal::NoTerm => "no term is left",
            Refusal::Stopped => "the room has stopped",
            Refusal::TooLong => "passes the last slot",
            Refusal::WordsShort => "words ran short",
            Refusal::RowsShort => "the rows do not fit",
        })
    }
}

impl Error for Refusal {}

// What a call for C answers: the refusal's number, 0 for none.
pub fn answer<T: Drop>(told: Result<T, Refusal>) -> u64
    ensures { result ≡ answer_of told }
{
    match told {
        Ok(_) => 0,
        Err(refusal) => u64::from(refusal),
    }
}

// The same, and what is told goes to the place that C lent for it, which a refused call leaves.
pub fn tell<T: Copy>(told: Result<T, Refusal>, place: &mut T) -> u64
    ensures value { result ≡ answer_of told }
    ensures place_after { place.new ≡ after told (λ x. x) place.old }
{
    match told {
        Ok(x) => {
            *place = x;
            0
        }
        Err(refusal) => u64::from(refusal),
    }
}
