// The row: an end that offers each message that has no older one of the same sender and receiver.
ghost use Rattle.std.specs.Prelude.{◌≡◌, []};
ghost use Rattle.std.specs.List.{slice_get};
ghost use Rattle.slots.specs.Entries.{entries};
ghost use Rattle.ends.specs.Ends.{front_at, fronts};
ghost use Rattle.ends.specs.EndsLemmas.{fronts_drawn};

use crate::end::{End, Offering};
use link::message::Message;
use places::Places;
use places::keys::Way;

// The oldest message of each sender and receiver is on offer, in the order of posting.
#[derive(Clone, Copy)]
pub struct Fronts;

pub type Row = End<Fronts>;

// The message in slot `i` if no older one has its sender and receiver. The slots before it are read too, so what goes
// over the slots below goes over their numbers.
fn front(slots: &[Option<Message>], i: usize) -> Option<Message>
    ensures { result ≡ front_at slots.now i }
{
    let message = slots.get(i).copied().flatten()?;
    let way = Way {
        sender: message.sender,
        receiver: message.receiver,
    };
    if slots::count(&slots[..i], &way) > 0 {
        return None;
    }
    Some(message)
}

// The offer at a place: a loop, since `filter_map` with `nth` takes half as long again over a row that is nearly empty.
fn nth_front(slots: &[Option<Message>], place: u32) -> Option<Message>
    ensures { result ≡ slice_get (fronts [] (entries slots.now)) place }
{
    let mut left = place;
    for i in 0..slots.len() {
        if let Some(message) = front(slots, i) {
            if left == 0 {
                return Some(message);
            }
            left -= 1;
        }
    }
    None
}

impl Offering for Fronts {
    ghost offered = { fronts [] };

    ghost drawn = { fronts_drawn };

    fn offer(places: &Places, place: u32) -> Option<Message> {
        nth_front(&places.slots, place)
    }

    fn offers(places: &Places) -> u16 {
        let slots = &places.slots;
        (0..slots.len()).filter_map(|i| front(slots, i)).count() as u16
    }
}
