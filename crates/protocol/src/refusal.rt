// Why a call on a field is refused.
ghost use Rattle.std.specs.Prelude.{◌≡◌, Some};
ghost use Rattle.protocol.specs.Refusals.{fault, shown};
ghost use Rattle.protocol.specs.declared.refusal.Refusal.TheVariants.{Closed};

use link::gate::GateClosed;
use std::error::Error;
use std::fmt;

// The refusals of a field, in the order of their numbers, which begin with 1.
#[derive(Clone, Copy, PartialEq, Eq, Debug)]
pub enum Refusal {
    // the station is not in the field
    NoStation,
    // the trace was not opened
    NoTrace,
    // 32 traces were opened
    TracesSpent,
    // the sender is the receiver
    ToItself,
    // the station does not hold the trace
    NotHeld,
    // the owner would drop its own trace
    DropByOwner,
    // another than the owner would erase the trace
    EraseByOther,
    // there are uses
    InUse,
    // the owner's list is not empty
    Listed,
    // there is a sent entry of this trace from this station
    CopyOut,
    // there are 255 uses
    UsesSpent,
    // there are no uses
    NoUse,
    // there are 64 sent entries
    SentFull,
    // the station's packet numbers are spent
    PacketsSpent,
    // the sender's gate is closed, with the depth
    Closed(GateClosed),
    // there is no such duty
    NoDuty,
    // a dirty call has to wait in ccitnil
    DirtyInCcitNil,
    // no offer has that place
    NoOffer,
    // the message is out of place
    OutOfPlace,
    // the number of stations is not 2 to 16
    StationCount,
    // there are fewer rows than traces
    FewRows,
}

impl Refusal {
    // The number of the refusal. It is no `From`, since it leaves out the depth.
    pub fn number(self) -> u8
        ensures { result ≡ (fault self).number }
    {
        match self {
            Refusal::NoStation => 1,
            Refusal::NoTrace => 2,
            Refusal::TracesSpent => 3,
            Refusal::ToItself => 4,
            Refusal::NotHeld => 5,
            Refusal::DropByOwner => 6,
            Refusal::EraseByOther => 7,
            Refusal::InUse => 8,
            Refusal::Listed => 9,
            Refusal::CopyOut => 10,
            Refusal::UsesSpent => 11,
            Refusal::NoUse => 12,
            Refusal::SentFull => 13,
            Refusal::PacketsSpent => 14,
            Refusal::Closed(_) => 15,
            Refusal::NoDuty => 16,
            Refusal::DirtyInCcitNil => 17,
            Refusal::NoOffer => 18,
            Refusal::OutOfPlace => 19,
            Refusal::StationCount => 20,
            Refusal::FewRows => 21,
        }
    }

    // The depth at which the gate is closed, where that is the refusal.
    pub fn depth(self) -> Option<u8>
        ensures { result ≡ (fault self).depth }
    {
        match self {
            Refusal::Closed(closed) => Some(closed.depth),
            _ => None,
        }
    }
}

// A closed gate is kept whole.
impl From<GateClosed> for Refusal {
    ghost from_gives = { λ gate r. r ≡ Closed gate };

    fn from(gate: GateClosed) -> Refusal {
        Refusal::Closed(gate)
    }
}

impl fmt::Display for Refusal {
    ghost output = { λ refusal. Some (shown (fault refusal)) };

    fn fmt<W: fmt::Write>(&self, f: &mut fmt::Formatter<W>) -> fmt::Result {
        let number = self.number();
        match self.depth() {
            Some(depth) => write!(f, "refused {number} at depth {depth}"),
            None => write!(f, "refused {number}"),
        }
    }
}

impl Error for Refusal {}
