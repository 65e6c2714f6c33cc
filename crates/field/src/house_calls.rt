// The calls that the house makes for the stations, sendings and deliveries, in a field of any mode.
ghost use Rattle.protocol.specs.Delivery.{delivering};
ghost use Rattle.protocol.specs.HouseCalls.{sending, sending_copy_ack};
ghost use Rattle.field.specs.Carried.{Carried};

use crate::Field;
use crate::modes::Mode;
use cells::Duty;
use delivery::{bring, in_place};
use link::interface::Link;
use link::message::{Kind, Message};
use protocol::refusal::Refusal;
use rules::checks::may_send;
use rules::duties::{done, message_due};
use tables::keys::DueFrom;

impl<L: Link, M: Mode> Field<L, M> {
    // Sends what a duty of a station and a trace asks for: dirty or clean from the station to the owner, dirty
    // ack or clean ack from the owner to the station.
    pub fn send(&mut self, duty: Duty, station: u8, trace: u8) -> Result<(), Refusal>
        ensures { Carried L.Link.meaning M.Mode.counted (sending duty station trace) self.old self.new result }
    {
        let cell = may_send(&self.tables, duty, station, trace)?;
        let owner = self.tables.trace(trace).owner;
        self.link.post(message_due(duty, station, owner, trace))?;
        self.tables.set_cell(station, trace, done(duty, cell));
        self.mode.count();
        Ok(())
    }

    // Sends the copy ack that is due at a station for a packet number of a sender.
    pub fn send_copy_ack(&mut self, station: u8, sender: u8, packet: u32) -> Result<(), Refusal>
        ensures { Carried L.Link.meaning M.Mode.counted (sending_copy_ack station sender packet) self.old self.new result }
    {
        if !self.tables.has_station(station) || !self.tables.has_station(sender) {
            return Err(Refusal::NoStation);
        }
        let key = DueFrom {
            receiver: station,
            sender,
            packet,
        };
        let entry = slots::first(&self.tables.received, &key).ok_or(Refusal::NoDuty)?;
        self.link.post(Message::new(Kind::CopyAck, station, sender, entry.copy.trace, packet))?;
        let _ = slots::strike(&mut self.tables.received, &key);
        self.mode.count();
        Ok(())
    }

    // Delivers the offer at a place. What is out of place stays on the link.
    pub fn deliver(&mut self, place: u32) -> Result<(), Refusal>
        ensures { Carried L.Link.meaning M.Mode.counted (delivering place) self.old self.new result }
    {
        let message = self.link.offer(place).ok_or(Refusal::NoOffer)?;
        let kind = in_place(&self.tables, message).ok_or(Refusal::OutOfPlace)?;
        let _ = self.link.take(place);
        bring(&mut self.tables, message, kind);
        self.mode.count();
        Ok(())
    }
}
