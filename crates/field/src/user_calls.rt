// The calls that users make on a field that works. Each takes plain numbers, as users have them: a struct of a station
// and a trace, or of a sender and a receiver, would be made for one call and taken apart in it.
ghost use Rattle.field.specs.Carried.{Carried};
ghost use Rattle.protocol.specs.UserCalls.{dropping, erasing, giving_back, handing_on, making_use, opening};

use crate::Field;
use crate::modes::Working;
use cells::{Duty, State};
use delivery::handed;
use link::interface::Link;
use link::message::{Kind, Message};
use protocol::refusal::Refusal;
use rules::checks::{may_drop, may_erase, may_give_back, may_hand_on, may_use};

impl<L: Link> Field<L, Working> {
    // Opens a trace at a station, and answers its number.
    pub fn open(&mut self, station: u8) -> Result<u8, Refusal>
        ensures { Carried L.Link.meaning (λ m. m) (opening station) self.old self.new result }
    {
        if !self.tables.has_station(station) {
            return Err(Refusal::NoStation);
        }
        self.tables.open(station).ok_or(Refusal::TracesSpent)
    }

    // Takes one more use of a trace at a station. This call and the next differ in their check alone; with that as a
    // parameter each would be as long as it is.
    pub fn use_trace(&mut self, station: u8, trace: u8) -> Result<(), Refusal>
        ensures { Carried L.Link.meaning (λ m. m) (making_use station trace) self.old self.new result }
    {
        let cell = may_use(&self.tables, station, trace)?;
        self.tables.set_cell(station, trace, cell);
        Ok(())
    }

    // Gives one use of a trace at a station back.
    pub fn give_back(&mut self, station: u8, trace: u8) -> Result<(), Refusal>
        ensures { Carried L.Link.meaning (λ m. m) (giving_back station trace) self.old self.new result }
    {
        let cell = may_give_back(&self.tables, station, trace)?;
        self.tables.set_cell(station, trace, cell);
        Ok(())
    }

    // Hands a trace on from a station to another, and answers the packet number of the copy.
    pub fn hand_on(&mut self, sender: u8, receiver: u8, trace: u8) -> Result<u32, Refusal>
        ensures { Carried L.Link.meaning (λ m. m) (handing_on sender receiver trace) self.old self.new result }
    {
        let packet = may_hand_on(&self.tables, sender, receiver, trace)?;
        let copy = Message::new(Kind::Copy, sender, receiver, trace, packet);
        self.link.post(copy)?;
        // there is room: that was checked
        let _ = slots::place(&mut self.tables.sent, handed(copy));
        self.tables.spend(sender);
        Ok(packet)
    }

    // Drops a trace at a station that holds it: the station owes a clean call.
    pub fn drop_trace(&mut self, station: u8, trace: u8) -> Result<(), Refusal>
        ensures { Carried L.Link.meaning (λ m. m) (dropping station trace) self.old self.new result }
    {
        let cell = may_drop(&self.tables, station, trace)?;
        let cell = cell.with_duty(Duty::Clean, true);
        self.tables.set_cell(station, trace, cell);
        Ok(())
    }

    // Erases a trace at its owner.
    pub fn erase(&mut self, station: u8, trace: u8) -> Result<(), Refusal>
        ensures { Carried L.Link.meaning (λ m. m) (erasing station trace) self.old self.new result }
    {
        let cell = may_erase(&self.tables, station, trace)?;
        self.tables.erase(trace);
        let cell = cell.in_state(State::None);
        self.tables.set_cell(station, trace, cell);
        Ok(())
    }
}
