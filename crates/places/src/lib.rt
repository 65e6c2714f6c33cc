// The 128 places of a link that stands alone, in which messages wait in the order of posting.
#![tactic(auto)]

ghost use Rattle.std.specs.Prelude.{◌≡◌, ◌≤◌, false, [], length, is_ok, count_by};
ghost use Rattle.std.specs.List.{slice_get};
ghost use Rattle.slots.specs.Entries.{Packed, entries, first, without};
ghost use Rattle.link.specs.Messages.{same};
ghost use Rattle.places.specs.Posting.{end_gate, enqueued};

use link::gate::{Gate, GateClosed, gate_of};
use link::message::Message;
use slots::{Every, Exactly, Matches};

pub mod keys;

// How many messages fit.
const PLACES: usize = 128;

// Places of which the first are taken, in the order of posting, and the rest are empty. They are an array, since
// the rules speak of 128 places, each empty or taken; and they have no `Model`, since the row reads the slots and the
// law of an end their number.
#[derive(Drop)]
pub struct Places {
    pub slots: [Option<Message>; PLACES],
    ghost sized: { length slots ≡ 128 },
    ghost packed: { Packed slots },
}

impl Places {
    // All places empty.
    pub fn new() -> Places
        ensures { entries result.slots ≡ [] }
    {
        Places {
            slots: [None; PLACES],
        }
    }

    // How many messages match `key`.
    pub fn count<K>(&self, key: &K) -> u16
    where
        Message: Matches<K>,
        ensures value { result ≡ count_by (⟦<Message as Matches<K>>⟧.fits key.now) (entries self.now.slots) }
        ensures bound { result ≤ 128 }
    {
        slots::count(&self.slots, key) as u16
    }

    // How many messages wait.
    pub fn waiting(&self) -> u16
        ensures value { result ≡ length (entries self.now.slots) }
        ensures bound { result ≤ 128 }
    {
        self.count(&Every)
    }

    // The message at a place, oldest first.
    pub fn at(&self, place: u32) -> Option<Message>
        ensures { result ≡ slice_get (entries self.now.slots) place }
    {
        self.slots.get(place as usize).copied().flatten()
    }

    // A station's gate: closed for every station while all places are taken.
    pub fn gate(&self, station: u8) -> Gate
        ensures { result ≡ end_gate (entries self.now.slots) station }
    {
        // first, so that nothing is counted for a station that has no gate
        gate_of(station, Ok(()))?;
        if self.waiting() == PLACES as u16 {
            return Err(GateClosed { depth: 0 });
        }
        Ok(())
    }

    // Lets a message in behind the others if its sender's gate is open; else nothing changes.
    pub fn post(&mut self, message: Message) -> Result<(), GateClosed>
        ensures value { result ≡ end_gate (entries self.old.slots) message.sender }
        ensures order { entries self.new.slots ≡ enqueued message result (entries self.old.slots) }
        ensures same { is_ok result ≡ false → self.new ≡ self.old }
    {
        self.gate(message.sender)?;
        // an open gate is an empty place
        let _ = slots::place(&mut self.slots, message);
        Ok(())
    }

    // Takes the oldest message like this one out; the others keep their order.
    pub fn strike(&mut self, message: Message) -> Option<Message>
        ensures value { result ≡ first (same message) self.old.slots }
        ensures after { entries self.new.slots ≡ without (same message) (entries self.old.slots) }
    {
        slots::strike(&mut self.slots, &Exactly(message))
    }
}
