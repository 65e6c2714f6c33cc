// All that a field keeps, but for its link.
ghost use Rattle.std.specs.Prelude.{◌≡◌, ltb, if◌then◌else◌, Some, None, nat_lt};
ghost use Rattle.slots.specs.Entries.{struck, times};
ghost use Rattle.tables.specs.Copies.{same_hand_on, sent_by};
ghost use Rattle.tables.specs.Kept.{cell_at, list_empty, listed, next_packet, rigged, trace_at, with_cell, with_erased, with_opened, with_sent, with_spent};

use crate::entries::{HandOn, Received};
use crate::keys::SentBy;
use cells::{Cell, State};
use slots::Exactly;

// How many stations a field has at most. That as many have a gate is a rule of links, with a number of its own.
pub const STATIONS: usize = 16;
// How many traces a field opens at most.
pub const TRACES: usize = 32;
// How many sent entries, and how many received entries, a field keeps at most.
pub const ENTRIES: usize = 64;

// A trace that was opened: the station in whose memory it lies, and whether it was erased.
#[derive(Clone, Copy)]
pub struct Trace {
    pub owner: u8,
    pub erased: bool,
}

// A place for a trace, before one is opened.
const UNOPENED: Trace = Trace {
    owner: 0,
    erased: false,
};

// The tables of a field: arrays, since their sizes are rules of a field, in a gauge's memory, and the rules speak of
// their places. Stations and traces go by their numbers, for which there is a place also before one is opened. A station
// and a trace are two parameters here and above: each call is given numbers, and a struct would be made there
// (`let at = At { station, trace };`) only to be taken apart here.
#[derive(Drop)]
pub struct Tables {
    // how many stations there are
    pub stations: u8,
    // how many traces were opened, which is the number of the next
    pub opened: u8,
    pub traces: [Trace; TRACES],
    // by station, then trace; a cell and a packet number of one station are never written together
    pub cells: [[Cell; TRACES]; STATIONS],
    pub sent: [Option<HandOn>; ENTRIES],
    pub received: [Option<Received>; ENTRIES],
    // each station's next packet number; none once its numbers are spent
    pub next: [Option<u32>; STATIONS],
}

impl Tables {
    // The tables of a field that was just rigged: each station's numbering starts at `first`.
    pub fn new(stations: u8, first: u32) -> Tables
        ensures { result ≡ rigged stations first }
    {
        Tables {
            stations,
            opened: 0,
            traces: [UNOPENED; TRACES],
            cells: [[Cell::blank(); TRACES]; STATIONS],
            sent: [None; ENTRIES],
            received: [None; ENTRIES],
            next: [Some(first); STATIONS],
        }
    }

    // Whether a station is in the field.
    pub fn has_station(&self, station: u8) -> bool
        ensures { result ≡ nat_lt station self.now.stations }
    {
        station < self.stations
    }

    // Whether a trace was opened.
    pub fn has_trace(&self, trace: u8) -> bool
        ensures { result ≡ nat_lt trace self.now.opened }
    {
        trace < self.opened
    }

    // The cell of a station and a trace; a blank one outside the tables.
    pub fn cell(&self, station: u8, trace: u8) -> Cell
        ensures { result ≡ cell_at self.now station trace }
    {
        let traces = self.cells.get(usize::from(station));
        let cell = traces.and_then(|traces| traces.get(usize::from(trace)));
        cell.copied().unwrap_or(Cell::blank())
    }

    // Puts another cell for a station and a trace; outside the tables nothing changes.
    pub fn set_cell(&mut self, station: u8, trace: u8, cell: Cell)
        ensures { self.new ≡ with_cell station trace cell self.old }
    {
        // by index here and below, and not by `get_mut`, tried in each: what the borrow leaves of the array was not
        // proved
        let (row, column) = (usize::from(station), usize::from(trace));
        if row < STATIONS && column < TRACES {
            self.cells[row][column] = cell;
        }
    }

    // A trace's owner, and whether it was erased.
    pub fn trace(&self, trace: u8) -> Trace
        ensures { result ≡ trace_at self.now trace }
    {
        self.traces
            .get(usize::from(trace))
            .copied()
            .unwrap_or(UNOPENED)
    }

    // Opens a trace at its owner, which has it in ok, and answers its number; none once 32 are opened.
    pub fn open(&mut self, owner: u8) -> Option<u8>
        ensures value { result ≡ (if ltb self.old.opened 32 then Some self.old.opened else None) }
        ensures after { self.new ≡ (if ltb self.old.opened 32 then with_opened owner self.old else self.old) }
    {
        let trace = self.opened;
        if usize::from(trace) >= TRACES {
            return None;
        }
        self.traces[usize::from(trace)] = Trace {
            owner,
            erased: false,
        };
        self.opened = trace + 1;
        let cell = self.cell(owner, trace);
        self.set_cell(owner, trace, cell.in_state(State::Ok));
        Some(trace)
    }

    // Notes that a trace is erased.
    pub fn erase(&mut self, trace: u8)
        ensures { self.new ≡ with_erased trace self.old }
    {
        if usize::from(trace) < TRACES {
            self.traces[usize::from(trace)].erased = true;
        }
    }

    // A station's next packet number; none once its numbers are spent.
    pub fn next_packet(&self, station: u8) -> Option<u32>
        ensures { result ≡ next_packet self.now station }
    {
        self.next.get(usize::from(station)).copied().flatten()
    }

    // Spends a station's next packet number; 4,294,967,295 is the last.
    pub fn spend(&mut self, station: u8)
        ensures { self.new ≡ with_spent station self.old }
    {
        let after = self
            .next_packet(station)
            .and_then(|packet| packet.checked_add(1));
        if usize::from(station) < STATIONS {
            self.next[usize::from(station)] = after;
        }
    }

    // How many stations the owner of a trace lists. A sum: `filter` with `count` takes twice as long.
    pub fn listed(&self, trace: u8) -> u8
        ensures { result ≡ listed self.now trace }
    {
        (0..STATIONS as u8)
            .map(|station| u8::from(self.cell(station, trace).listed))
            .sum()
    }

    // How many sent entries of a trace are from a station.
    pub fn copies_out(&self, station: u8, trace: u8) -> usize
        ensures { result ≡ times (sent_by station trace) self.now.sent }
    {
        let sender = station;
        slots::count(&self.sent, &SentBy { sender, trace })
    }

    // Whether there is a sent entry of this hand-on.
    pub fn has_sent(&self, hand_on: HandOn) -> bool
        ensures { result ≡ nat_lt 0 (times (same_hand_on hand_on) self.now.sent) }
    {
        slots::count(&self.sent, &Exactly(hand_on)) > 0
    }

    // Strikes the sent entry of a hand-on; where there is none, nothing changes.
    pub fn strike_sent(&mut self, hand_on: HandOn)
        ensures { self.new ≡ with_sent (struck (same_hand_on hand_on) self.old.sent) self.old }
    {
        let _ = slots::strike(&mut self.sent, &Exactly(hand_on));
    }

    // Whether the owner's list is empty: nobody is listed, and no sent entry is the owner's.
    pub fn list_is_empty(&self, trace: u8) -> bool
        ensures { result ≡ list_empty self.now trace }
    {
        let owner = self.trace(trace).owner;
        self.listed(trace) == 0 && self.copies_out(owner, trace) == 0
    }
}
