// Deliveries, as far as the tables go: which messages are out of place, and what the others change. Tables and message
// are two parameters and no struct: it would hold the tables borrowed and say nothing of its own.
#![tactic(auto)]

ghost use Rattle.std.specs.Prelude.{◌≡◌, true, false, Some, MatchOption};
ghost use Rattle.link.specs.Kinds.{kind_of};
ghost use Rattle.protocol.specs.Delivery.{acked, delivered, handed, misplaced, out_of_place, with_ack_owed, with_copy};

use cells::{Duty, State};
use link::message::{Kind, Message};
use slots::Every;
use tables::entries::{HandOn, Received, free};
use tables::tables::{ENTRIES, Tables};

// The hand-on that a copy carries out. It and the next are no `From`: a message has two of them, as a copy and as an
// ack.
pub fn handed(message: Message) -> HandOn
    ensures { result ≡ handed message }
{
    HandOn {
        packet: message.packet,
        sender: message.sender,
        receiver: message.receiver,
        trace: message.trace,
    }
}

// The hand-on that a copy ack answers.
fn acked(message: Message) -> HandOn
    ensures { result ≡ acked message }
{
    handed(Message {
        sender: message.receiver,
        receiver: message.sender,
        ..message
    })
}

// Whether a message of a kind cannot be delivered here: a match on state and kind, as in `bring`.
fn misplaced(tables: &Tables, message: Message, kind: Kind) -> bool
    ensures { result ≡ misplaced tables.now message (Some kind) }
{
    let state = tables.cell(message.receiver, message.trace).state;
    let owner = tables.trace(message.trace).owner;
    match (state, kind) {
        (_, Kind::Copy) => slots::count(&tables.received, &Every) >= ENTRIES,
        (_, Kind::CopyAck) => !tables.has_sent(acked(message)),
        (_, Kind::Dirty | Kind::Clean) => message.receiver != owner,
        (State::Nil, Kind::DirtyAck) => false,
        (State::Ccit | State::CcitNil, Kind::CleanAck) => false,
        (_, Kind::DirtyAck | Kind::CleanAck) => true,
    }
}

// The kind of a message that is not out of place; none for one that is.
pub fn in_place(tables: &Tables, message: Message) -> Option<Kind>
    ensures { MatchOption result (out_of_place tables.now message ≡ true) (λ k. (out_of_place tables.now message ≡ false) × (kind_of message.kind ≡ Some k)) }
{
    if !tables.has_station(message.sender) || !tables.has_station(message.receiver) {
        return None;
    }
    if message.sender == message.receiver || !tables.has_trace(message.trace) {
        return None;
    }
    let kind = Kind::try_from(message.kind).ok()?;
    if misplaced(tables, message, kind) {
        return None;
    }
    Some(kind)
}

// Notes a copy that came, due or blocked.
fn receive(tables: &mut Tables, message: Message, due: bool)
    ensures { tables.new ≡ with_copy message due tables.old }
{
    let copy = handed(message);
    // there is room: that was checked
    let _ = slots::place(&mut tables.received, Received { copy, due });
}

// Lists or unlists the sender, to which an ack is then owed.
fn list(tables: &mut Tables, message: Message, listed: bool, ack: Duty)
    ensures { tables.new ≡ with_ack_owed message listed ack tables.old }
{
    let cell = tables
        .cell(message.sender, message.trace)
        .with_listed(listed);
    tables.set_cell(message.sender, message.trace, cell.with_duty(ack, true));
}

// Brings a message of a kind into the tables, by the state at the receiver. It is one match on both, to be read
// against the rules line by line, and no table of functions.
pub fn bring(tables: &mut Tables, message: Message, kind: Kind)
    ensures { tables.new ≡ delivered tables.old message (Some kind) }
{
    let (receiver, trace) = (message.receiver, message.trace);
    let cell = tables.cell(receiver, trace);
    match (cell.state, kind) {
        (State::Ok, Kind::Copy) => {
            tables.set_cell(receiver, trace, cell.with_duty(Duty::Clean, false));
            receive(tables, message, true);
        }
        (State::None, Kind::Copy) => {
            tables.set_cell(receiver, trace, cell.awaiting(State::Nil));
            receive(tables, message, false);
        }
        (State::Ccit, Kind::Copy) => {
            tables.set_cell(receiver, trace, cell.awaiting(State::CcitNil));
            receive(tables, message, false);
        }
        // it awaits the trace already
        (_, Kind::Copy) => receive(tables, message, false),
        (_, Kind::CopyAck) => tables.strike_sent(acked(message)),
        (_, Kind::Dirty) => list(tables, message, true, Duty::DirtyAck),
        (_, Kind::Clean) => list(tables, message, false, Duty::CleanAck),
        (_, Kind::DirtyAck) => {
            tables.set_cell(receiver, trace, cell.in_state(State::Ok));
            free(&mut tables.received, receiver, trace);
        }
        (State::Ccit, Kind::CleanAck) => {
            tables.set_cell(receiver, trace, cell.in_state(State::None));
        }
        (State::CcitNil, Kind::CleanAck) => {
            tables.set_cell(receiver, trace, cell.in_state(State::Nil));
        }
        // out of place
        (_, Kind::CleanAck) => {}
    }
}
