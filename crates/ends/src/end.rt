// An end: a link of 128 places that stands alone. What it offers is a parameter of its type.
ghost use Rattle.std.specs.Prelude.{◌≡◌, List, [], length};
ghost use Rattle.std.specs.List.{slice_get};
ghost use Rattle.slots.specs.Entries.{entries};
ghost use Rattle.link.specs.Meaning.{Posted, Taken};
ghost use Rattle.link.specs.declared.message.Message.{Message};
ghost use Rattle.places.specs.Posting.{enqueued};
ghost use Rattle.ends.specs.Ends.{Drawn, dequeued};
ghost use Rattle.ends.specs.Queues.{end_meaning, queue};
ghost use Rattle.ends.specs.EndsLemmas.{end_lawful};
ghost use Rattle.places.proofs.Room.{entries_few};

use link::gate::{Gate, GateClosed};
use link::interface::Link;
use link::message::Message;
use places::Places;
use places::keys::{KindNumber, Sender};
use std::marker::PhantomData;

// Which of the messages that wait are on offer.
pub trait Offering {
    // of the messages, in the order of posting, those on offer
    ghost offered: { List Message → List Message };

    // The offer at a place.
    fn offer(places: &Places, place: u32) -> Option<Message>
        ensures { result ≡ slice_get (offered (entries places.now.slots)) place };

    // How many offers there are.
    fn offers(places: &Places) -> u16
        ensures { result ≡ length (offered (entries places.now.slots)) };

    ghost drawn: { (queue : List Message) → Drawn queue (offered queue) };
}

// An end, by the places of its messages.
#[derive(Drop)]
pub struct End<O: Offering> {
    places: Places,
    offering: PhantomData<O>,
}

impl<O: Offering> End<O> {
    // An empty end.
    pub fn new() -> Self
        ensures { queue result ≡ [] }
    {
        End {
            places: Places::new(),
            offering: PhantomData,
        }
    }
}

impl<O: Offering> Link for End<O> {
    ghost meaning = { end_meaning O.Offering.offered };

    ghost lawful = { λ l. end_lawful O.Offering.offered _ (O.Offering.drawn _) (entries_few _ l.places.sized) };

    fn clear(&mut self) {
        self.places = Places::new();
    }

    // A message that is let in goes behind all others.
    fn post(&mut self, message: Message) -> Result<(), GateClosed>
        ensures posted { Posted (end_meaning O.Offering.offered) message self.old self.new result }
        ensures order { queue self.new ≡ enqueued message result (queue self.old) }
    {
        self.places.post(message)
    }

    // The messages that stay keep their order.
    fn take(&mut self, place: u32) -> Option<Message>
        ensures taken { Taken (end_meaning O.Offering.offered) place self.old self.new result }
        ensures order { queue self.new ≡ dequeued result (queue self.old) }
    {
        let message = self.offer(place)?;
        self.places.strike(message)
    }

    fn offer(&self, place: u32) -> Option<Message> {
        O::offer(&self.places, place)
    }

    fn offers(&self) -> u16 {
        O::offers(&self.places)
    }

    fn waiting(&self) -> u16 {
        self.places.waiting()
    }

    fn waiting_from(&self, station: u8) -> u16 {
        self.places.count(&Sender(station))
    }

    fn waiting_of(&self, kind: u8) -> u16 {
        self.places.count(&KindNumber(kind))
    }

    fn gate(&self, station: u8) -> Gate {
        self.places.gate(station)
    }
}
