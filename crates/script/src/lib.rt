// Calls on a working field as values, and carrying them out.
#![tactic(auto)]

ghost use Rattle.field.specs.Carried.{Carried};
ghost use Rattle.script.specs.Scripts.{step_of};

use cells::Duty;
use field::Field;
use field::modes::Working;
use link::interface::Link;
use protocol::refusal::Refusal;

// A call with its arguments: the duty, the station, the other station, the trace or the packet number, or the place.
// It is a value and no closure, since calls are listed, shown and compared with what they answered.
#[derive(Clone, Copy)]
pub enum Call {
    Open(u8),
    Use(u8, u8),
    GiveBack(u8, u8),
    HandOn(u8, u8, u8),
    Drop(u8, u8),
    Erase(u8, u8),
    CopyAck(u8, u8, u32),
    Send(Duty, u8, u8),
    Deliver(u32),
}

// Makes the call; the answer has the number of the trace or the packet where the call answers one.
pub fn carry_out<L: Link>(field: &mut Field<L, Working>, call: Call) -> Result<Option<u32>, Refusal>
    ensures { Carried L.Link.meaning (λ m. m) (step_of call) field.old field.new result }
{
    let done = |()| None;
    match call {
        Call::Open(station) => field.open(station).map(|trace| Some(u32::from(trace))),
        Call::Use(station, trace) => field.use_trace(station, trace).map(done),
        Call::GiveBack(station, trace) => field.give_back(station, trace).map(done),
        Call::HandOn(sender, receiver, trace) => field.hand_on(sender, receiver, trace).map(Some),
        Call::Drop(station, trace) => field.drop_trace(station, trace).map(done),
        Call::Erase(station, trace) => field.erase(station, trace).map(done),
        Call::CopyAck(station, sender, packet) => field
            .send_copy_ack(station, sender, packet)
            .map(done),
        Call::Send(duty, station, trace) => field.send(duty, station, trace).map(done),
        Call::Deliver(place) => field.deliver(place).map(done),
    }
}
