// What a field keeps for one station and one trace.
#![tactic(auto)]

ghost use Rattle.std.specs.Prelude.{◌≡◌};
ghost use Rattle.cells.specs.Cells.{awaiting, awaits, blank, given_back, holds, in_state, owes, used, with_duty, with_listed};

// How a station stands to a trace. Nil: a copy came, and the owner has not confirmed it. Ccit: a clean call
// is in transit, sent and not confirmed. CcitNil: as Ccit, and a copy came since.
#[derive(Clone, Copy, PartialEq, Eq, Debug)]
pub enum State {
    None,
    Nil,
    Ok,
    Ccit,
    CcitNil,
}

// A message that is still to be sent: the calls by the station to the owner, the acks by the owner to the
// station.
#[derive(Clone, Copy)]
pub enum Duty {
    Dirty,
    DirtyAck,
    Clean,
    CleanAck,
}

// One station and one trace.
#[derive(Clone, Copy)]
pub struct Cell {
    pub state: State,
    pub uses: u8,
    // the owner lists the station
    pub listed: bool,
    // the four duties
    pub dirty: bool,
    pub dirty_ack: bool,
    pub clean: bool,
    pub clean_ack: bool,
}

impl Cell {
    // A station that has nothing to do with the trace.
    pub fn blank() -> Cell
        ensures { result ≡ blank }
    {
        Cell {
            state: State::None,
            uses: 0,
            listed: false,
            dirty: false,
            dirty_ack: false,
            clean: false,
            clean_ack: false,
        }
    }

    // Whether the station holds the trace: it is in ok, and no clean call is due.
    pub fn holds(self) -> bool
        ensures { result ≡ holds self }
    {
        matches!(self.state, State::Ok) && !self.clean
    }

    // Whether the station awaits the trace: a copy came, and the owner has not confirmed it.
    pub fn awaits(self) -> bool
        ensures { result ≡ awaits self }
    {
        matches!(self.state, State::Nil | State::CcitNil)
    }

    // Whether this duty is due.
    pub fn owes(self, duty: Duty) -> bool
        ensures { result ≡ owes duty self }
    {
        match duty {
            Duty::Dirty => self.dirty,
            Duty::DirtyAck => self.dirty_ack,
            Duty::Clean => self.clean,
            Duty::CleanAck => self.clean_ack,
        }
    }

    // The cell with the duty due, or struck.
    pub fn with_duty(self, duty: Duty, due: bool) -> Cell
        ensures { result ≡ with_duty duty due self }
    {
        let mut cell = self;
        match duty {
            Duty::Dirty => cell.dirty = due,
            Duty::DirtyAck => cell.dirty_ack = due,
            Duty::Clean => cell.clean = due,
            Duty::CleanAck => cell.clean_ack = due,
        }
        cell
    }

    // The cell in another state.
    pub fn in_state(self, state: State) -> Cell
        ensures { result ≡ in_state state self }
    {
        Cell { state, ..self }
    }

    // The cell of a station that now awaits the trace, in this state, and owes a dirty call.
    pub fn awaiting(self, state: State) -> Cell
        ensures { result ≡ awaiting state self }
    {
        self.in_state(state).with_duty(Duty::Dirty, true)
    }

    // The cell with the station listed, or unlisted.
    pub fn with_listed(self, listed: bool) -> Cell
        ensures { result ≡ with_listed listed self }
    {
        Cell { listed, ..self }
    }

    // One use more; there are at most 255.
    pub fn used(self) -> Option<Cell>
        ensures { result ≡ used self }
    {
        let uses = self.uses.checked_add(1)?;
        Some(Cell { uses, ..self })
    }

    // One use less. It differs from the last in `checked_sub` alone, and a closure for that would be no shorter.
    pub fn given_back(self) -> Option<Cell>
        ensures { result ≡ given_back self }
    {
        let uses = self.uses.checked_sub(1)?;
        Some(Cell { uses, ..self })
    }
}
