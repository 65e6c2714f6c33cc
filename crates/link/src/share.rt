// The share: a layer over any link that lets each station have only so many messages waiting.
ghost use Rattle.std.specs.Prelude.{◌≡◌, []};
ghost use Rattle.link.specs.Meaning.{Posted, Taken};
ghost use Rattle.link.specs.Sharing.{in_force, share_meaning};
ghost use Rattle.link.specs.Layers.{shared_lawful};

use crate::gate::{Gate, GateClosed, gate_of};
use crate::interface::Link;
use crate::message::Message;

// A link whose stations have only so many messages waiting each.
#[derive(Drop)]
pub struct Share<L: Link> {
    below: L,
    // as it was given: 0 counts as 1, and more than 128 as 128. That it stays is said at each call that could change
    // it: it is given when the program runs, and a const parameter would ask of callers to know it before.
    limit: u8,
}

impl<L: Link> Share<L> {
    // A share over `below`.
    pub fn new(below: L, limit: u8) -> Self
        ensures { result ≡ record { below = below; limit = limit } }
    {
        Share { below, limit }
    }

    // The limit as it counts.
    pub fn limit(&self) -> u8
        ensures { result ≡ in_force self.now.limit }
    {
        self.limit.clamp(1, 128)
    }
}

impl<L: Link> Link for Share<L> {
    ghost meaning = { share_meaning L.Link.meaning };

    ghost lawful = { λ l. shared_lawful l.limit _ (L.Link.lawful l.below) };

    fn clear(&mut self)
        ensures cleared { (share_meaning L.Link.meaning self.new).bag ≡ [] }
        ensures limit_unchanged { self.new.limit ≡ self.old.limit }
    {
        self.below.clear();
    }

    fn post(&mut self, message: Message) -> Result<(), GateClosed>
        ensures posted { Posted (share_meaning L.Link.meaning) message self.old self.new result }
        ensures limit_unchanged { self.new.limit ≡ self.old.limit }
    {
        self.gate(message.sender)?;
        self.below.post(message)
    }

    fn take(&mut self, place: u32) -> Option<Message>
        ensures taken { Taken (share_meaning L.Link.meaning) place self.old self.new result }
        ensures limit_unchanged { self.new.limit ≡ self.old.limit }
    {
        self.below.take(place)
    }

    fn offer(&self, place: u32) -> Option<Message> {
        self.below.offer(place)
    }

    fn offers(&self) -> u16 {
        self.below.offers()
    }

    fn waiting(&self) -> u16 {
        self.below.waiting()
    }

    fn waiting_from(&self, station: u8) -> u16 {
        self.below.waiting_from(station)
    }

    fn waiting_of(&self, kind: u8) -> u16 {
        self.below.waiting_of(kind)
    }

    fn gate(&self, station: u8) -> Gate {
        // first, so that nothing is counted for a station that has no gate
        gate_of(station, Ok(()))?;
        if self.below.waiting_from(station) >= u16::from(self.limit()) {
            return Err(GateClosed { depth: 0 });
        }
        self.below.gate(station).map_err(GateClosed::deeper)
    }
}
