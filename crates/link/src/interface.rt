// What every link does, told by its meaning alone.
ghost use Rattle.std.specs.Prelude.{◌≡◌, min, [], length, count_by};
ghost use Rattle.std.specs.List.{slice_get};
ghost use Rattle.link.specs.Meaning.{Lawful, Meaning, Posted, Taken};
ghost use Rattle.link.specs.Messages.{of_kind, sent_by};

use crate::gate::{Gate, GateClosed};
use crate::message::Message;

// A radio link: messages wait on it in a bag, some of them are on offer, and each station has a gate.
pub trait Link {
    // the bag, the offers and the gates
    ghost meaning: { Self → Meaning };

    // Empties the link.
    fn clear(&mut self)
        ensures { (meaning self.new).bag ≡ [] };

    // Adds the message if its sender's gate is open; else nothing changes and the answer is the depth.
    fn post(&mut self, message: Message) -> Result<(), GateClosed>
        ensures { Posted meaning message self.old self.new result };

    // Takes the offer at a place off the link; where there is none, nothing changes.
    fn take(&mut self, place: u32) -> Option<Message>
        ensures { Taken meaning place self.old self.new result };

    // The offer at a place.
    fn offer(&self, place: u32) -> Option<Message>
        ensures { result ≡ slice_get (meaning self.now).offers place };

    // How many offers there are.
    fn offers(&self) -> u16
        ensures { result ≡ length (meaning self.now).offers };

    // How many messages wait; like the next two, the answer stops at 65,535. The three are no generic question,
    // since a link has to know how to count by these two keys and by no other; and none by an enum of the three,
    // which each link would take apart into three again.
    fn waiting(&self) -> u16
        ensures { result ≡ min 65535 (length (meaning self.now).bag) };

    // How many messages from a station wait.
    fn waiting_from(&self, station: u8) -> u16
        ensures { result ≡ min 65535 (count_by (sent_by station) (meaning self.now).bag) };

    // How many messages with this kind number wait; it is any number, as in a message.
    fn waiting_of(&self, kind: u8) -> u16
        ensures { result ≡ min 65535 (count_by (of_kind kind) (meaning self.now).bag) };

    // A station's gate.
    fn gate(&self, station: u8) -> Gate
        ensures { result ≡ (meaning self.now).gate station };

    ghost lawful: { (l : Self) → Lawful (meaning l) };
}
