// Messages and their kinds.
ghost use Rattle.std.specs.Prelude.{◌≡◌, Some, codes};
ghost use Rattle.link.specs.Kinds.{ReadsKind, carried, kind_number, kind_words};

use std::error::Error;
use std::fmt;

// What a message is for. A copy passes a reference on; dirty asks the owner of a trace to list the sender
// as one who refers to it, and clean to list it no longer; each has its ack.
#[derive(Clone, Copy, PartialEq, Eq, Debug)]
pub enum Kind {
    Copy = 1,
    CopyAck = 2,
    Dirty = 3,
    DirtyAck = 4,
    Clean = 5,
    CleanAck = 6,
}

// A number of no kind.
#[derive(Clone, Copy, PartialEq, Eq, Debug)]
pub struct UnknownKind(pub u8);

// The number by which a message carries the kind.
impl From<Kind> for u8 {
    ghost from_gives = { λ kind number. number ≡ kind_number kind };

    fn from(kind: Kind) -> u8 {
        kind as u8
    }
}

// The kind with a number, if there is one.
impl TryFrom<u8> for Kind {
    type Error = UnknownKind;

    ghost try_from_gives = { ReadsKind };

    fn try_from(number: u8) -> Result<Kind, UnknownKind> {
        match number {
            1 => Ok(Kind::Copy),
            2 => Ok(Kind::CopyAck),
            3 => Ok(Kind::Dirty),
            4 => Ok(Kind::DirtyAck),
            5 => Ok(Kind::Clean),
            6 => Ok(Kind::CleanAck),
            _ => Err(UnknownKind(number)),
        }
    }
}

impl fmt::Display for Kind {
    ghost output = { λ kind. Some (kind_words kind) };

    fn fmt<W: fmt::Write>(&self, f: &mut fmt::Formatter<W>) -> fmt::Result {
        f.write_str(match self {
            Kind::Copy => "copy",
            Kind::CopyAck => "copy ack",
            Kind::Dirty => "dirty",
            Kind::DirtyAck => "dirty ack",
            Kind::Clean => "clean",
            Kind::CleanAck => "clean ack",
        })
    }
}

impl fmt::Display for UnknownKind {
    ghost output = { λ _. Some (codes "unknown kind") };

    fn fmt<W: fmt::Write>(&self, f: &mut fmt::Formatter<W>) -> fmt::Result {
        f.write_str("unknown kind")
    }
}

impl Error for UnknownKind {}

// A message as the radio has it, from one station (gauge, relay or logger) to another, about a trace, which
// is a stretch of readings in its owner's memory. The kind is a number, since a radio can carry any: a `Kind` would
// write only six, and a `Result<Kind, UnknownKind>` the six in two ways. The packet number tells the copies that a
// station sends apart.
#[derive(Clone, Copy, PartialEq, Eq, Debug)]
pub struct Message {
    pub kind: u8,
    pub sender: u8,
    pub receiver: u8,
    pub trace: u8,
    pub packet: u32,
}

impl Message {
    // A message of one of the six kinds; all but copies and copy acks carry packet number 0.
    pub fn new(kind: Kind, sender: u8, receiver: u8, trace: u8, packet: u32) -> Message
        ensures { result ≡ record { kind = kind_number kind; sender = sender; receiver = receiver; trace = trace; packet = carried kind packet } }
    {
        let packet = match kind {
            Kind::Copy | Kind::CopyAck => packet,
            _ => 0,
        };
        Message {
            kind: u8::from(kind),
            sender,
            receiver,
            trace,
            packet,
        }
    }
}
