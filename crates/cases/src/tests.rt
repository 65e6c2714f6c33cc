// The cases, and what several of them share: calls with the answers that they should get, and messages.
use cells::Duty;
use field::Field;
use field::modes::Working;
use link::interface::Link;
use link::message::{Kind, Message};
use protocol::refusal::Refusal;
use script::{Call, carry_out};
use std::process::Abort;

mod fields;
mod links;
mod order;
mod piles;
mod words;

// The number of the refusal, where there is one.
fn refused<T: Drop>(answer: Result<T, Refusal>) -> Option<u8> {
    answer.err().map(|refusal| refusal.number())
}

// A call, and the number of the refusal that it should get, as the rules give it; none where it should be accepted.
type Step = (Call, Option<u8>);

// Makes the calls one after the other.
fn play<L: Link>(rt: &impl Abort, field: &mut Field<L, Working>, calls: &[Step]) {
    for &(call, number) in calls {
        assert_eq!(rt; refused(carry_out(field, call)), number);
    }
}

// Station 0 opens trace 0 and hands it on to station 1, which then holds it, and nothing waits.
fn handed_on(first: u32) -> [Step; 8] {
    [
        (Call::Open(0), None),
        (Call::HandOn(0, 1, 0), None),
        (Call::Deliver(0), None),
        (Call::Send(Duty::Dirty, 1, 0), None),
        (Call::Deliver(0), None),
        (Call::Send(Duty::DirtyAck, 1, 0), None),
        (Call::Deliver(0), None),
        (Call::CopyAck(1, 0, first), None),
    ]
}

// Station 1, which holds trace 0 of station 0, gives it up and gets it again before its clean is delivered.
fn to_ccitnil() -> [Step; 5] {
    [
        (Call::Deliver(0), None),
        (Call::Drop(1, 0), None),
        (Call::Send(Duty::Clean, 1, 0), None),
        (Call::HandOn(0, 1, 0), None),
        (Call::Deliver(1), None),
    ]
}

// A copy of trace 0.
fn copy(sender: u8, receiver: u8, packet: u32) -> Message {
    Message::new(Kind::Copy, sender, receiver, 0, packet)
}
