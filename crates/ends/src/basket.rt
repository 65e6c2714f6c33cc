// The basket: an end that offers all that waits.
ghost use Rattle.ends.specs.EndsLemmas.{all_drawn};

use crate::end::{End, Offering};
use link::message::Message;
use places::Places;

// All messages are on offer.
#[derive(Clone, Copy)]
pub struct All;

pub type Basket = End<All>;

impl Offering for All {
    ghost offered = { λ queue. queue };

    ghost drawn = { all_drawn };

    fn offer(places: &Places, place: u32) -> Option<Message> {
        places.at(place)
    }

    fn offers(places: &Places) -> u16 {
        places.waiting()
    }
}
