// The keys by which entries are told.
ghost use Rattle.tables.specs.Copies.{due_from, sent_by};

use crate::entries::{HandOn, Received};
use slots::Matches;

// The sent entries of a trace from a station.
#[derive(Clone, Copy)]
pub struct SentBy {
    pub sender: u8,
    pub trace: u8,
}

// The due received entries at a station with a number of a sender's.
#[derive(Clone, Copy)]
pub struct DueFrom {
    pub receiver: u8,
    pub sender: u8,
    pub packet: u32,
}

impl Matches<SentBy> for HandOn {
    ghost fits = { λ k. sent_by k.sender k.trace };

    fn matches(&self, key: &SentBy) -> bool {
        self.sender == key.sender && self.trace == key.trace
    }
}

impl Matches<DueFrom> for Received {
    ghost fits = { λ k. due_from k.receiver k.sender k.packet };

    fn matches(&self, key: &DueFrom) -> bool {
        self.due
            && self.copy.receiver == key.receiver
            && self.copy.sender == key.sender
            && self.copy.packet == key.packet
    }
}
