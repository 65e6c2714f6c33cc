// The keys by which the links tell messages apart.
ghost use Rattle.link.specs.Messages.{between, of_kind, sent_by};

use link::message::Message;
use slots::Matches;

// The messages from a station.
#[derive(Clone, Copy)]
pub struct Sender(pub u8);

// The messages with a kind number, which is any number: a message of no kind waits and is counted too.
#[derive(Clone, Copy)]
pub struct KindNumber(pub u8);

// The messages from one station to another.
#[derive(Clone, Copy)]
pub struct Way {
    pub sender: u8,
    pub receiver: u8,
}

impl Matches<Sender> for Message {
    ghost fits = { λ k. sent_by k.0 };

    fn matches(&self, key: &Sender) -> bool {
        self.sender == key.0
    }
}

impl Matches<KindNumber> for Message {
    ghost fits = { λ k. of_kind k.0 };

    fn matches(&self, key: &KindNumber) -> bool {
        self.kind == key.0
    }
}

impl Matches<Way> for Message {
    ghost fits = { λ k. between k.sender k.receiver };

    fn matches(&self, key: &Way) -> bool {
        self.sender == key.sender && self.receiver == key.receiver
    }
}
