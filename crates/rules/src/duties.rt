// Duties, as far as the tables go: the message that one asks for, and the cell once it is done.
ghost use Rattle.std.specs.Prelude.{◌≡◌};
ghost use Rattle.link.specs.Kinds.{kind_number};
ghost use Rattle.protocol.specs.HouseCalls.{done, kind_due, receiver_of, sender_of};

use cells::{Cell, Duty, State};
use link::message::{Kind, Message};

// The message that a duty of a station and a trace asks for.
pub fn message_due(duty: Duty, station: u8, owner: u8, trace: u8) -> Message
    ensures { result ≡ record { kind = kind_number (kind_due duty); sender = sender_of duty station owner; receiver = receiver_of duty station owner; trace = trace; packet = 0 } }
{
    match duty {
        Duty::Dirty => Message::new(Kind::Dirty, station, owner, trace, 0),
        Duty::DirtyAck => Message::new(Kind::DirtyAck, owner, station, trace, 0),
        Duty::Clean => Message::new(Kind::Clean, station, owner, trace, 0),
        Duty::CleanAck => Message::new(Kind::CleanAck, owner, station, trace, 0),
    }
}

// The cell once the duty is done: a clean call leaves the state ccit.
pub fn done(duty: Duty, cell: Cell) -> Cell
    ensures { result ≡ done duty cell }
{
    let cell = cell.with_duty(duty, false);
    match duty {
        Duty::Clean => cell.in_state(State::Ccit),
        _ => cell,
    }
}
