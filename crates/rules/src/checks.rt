// The checks of the calls, in their order, but for the gates of the link. They take the tables and plain numbers, as the
// calls are given them. They are no methods of `Tables`, since refusals are of a crate above that one.
ghost use Rattle.protocol.specs.Calls.{Answers};
ghost use Rattle.protocol.specs.Known.{held_unused, known};
ghost use Rattle.protocol.specs.UserCalls.{may_drop, may_erase, may_give_back, may_hand_on, may_use, number};
ghost use Rattle.protocol.specs.HouseCalls.{may_send};
ghost use Rattle.cells.specs.Cells.{one_less, one_more};
ghost use Rattle.tables.specs.Kept.{cell_at, next_packet};

use cells::{Cell, Duty, State};
use protocol::refusal::Refusal;
use slots::Every;
use tables::tables::{ENTRIES, Tables};

// The station is in the field, and the trace was opened.
fn known(tables: &Tables, station: u8, trace: u8) -> Result<(), Refusal>
    ensures { Answers (known tables.now station trace) tt result }
{
    if !tables.has_station(station) {
        return Err(Refusal::NoStation);
    }
    if !tables.has_trace(trace) {
        return Err(Refusal::NoTrace);
    }
    Ok(())
}

// The station of the cell holds the trace and has no use of it.
fn held_unused(cell: Cell) -> Result<(), Refusal>
    ensures { Answers (held_unused cell) tt result }
{
    if !cell.holds() {
        return Err(Refusal::NotHeld);
    }
    if cell.uses > 0 {
        return Err(Refusal::InUse);
    }
    Ok(())
}

// All checks of a use; the answer is the cell with it.
pub fn may_use(tables: &Tables, station: u8, trace: u8) -> Result<Cell, Refusal>
    ensures { Answers (may_use tables.now station trace) (one_more (cell_at tables.now station trace)) result }
{
    known(tables, station, trace)?;
    let cell = tables.cell(station, trace);
    if !cell.holds() {
        return Err(Refusal::NotHeld);
    }
    cell.used().ok_or(Refusal::UsesSpent)
}

// All checks of a give-back; the answer is the cell without the use.
pub fn may_give_back(tables: &Tables, station: u8, trace: u8) -> Result<Cell, Refusal>
    ensures { Answers (may_give_back tables.now station trace) (one_less (cell_at tables.now station trace)) result }
{
    known(tables, station, trace)?;
    tables
        .cell(station, trace)
        .given_back()
        .ok_or(Refusal::NoUse)
}

// All checks of a drop; the answer is the cell.
pub fn may_drop(tables: &Tables, station: u8, trace: u8) -> Result<Cell, Refusal>
    ensures { Answers (may_drop tables.now station trace) (cell_at tables.now station trace) result }
{
    known(tables, station, trace)?;
    if station == tables.trace(trace).owner {
        return Err(Refusal::DropByOwner);
    }
    let cell = tables.cell(station, trace);
    held_unused(cell)?;
    if tables.copies_out(station, trace) > 0 {
        return Err(Refusal::CopyOut);
    }
    Ok(cell)
}

// All checks of an erasing; the answer is the cell.
pub fn may_erase(tables: &Tables, station: u8, trace: u8) -> Result<Cell, Refusal>
    ensures { Answers (may_erase tables.now station trace) (cell_at tables.now station trace) result }
{
    known(tables, station, trace)?;
    if station != tables.trace(trace).owner {
        return Err(Refusal::EraseByOther);
    }
    let cell = tables.cell(station, trace);
    held_unused(cell)?;
    if !tables.list_is_empty(trace) {
        return Err(Refusal::Listed);
    }
    Ok(cell)
}

// All checks of a hand-on but that of the gate; the answer is the packet number.
pub fn may_hand_on(tables: &Tables, sender: u8, receiver: u8, trace: u8) -> Result<u32, Refusal>
    ensures { Answers (may_hand_on tables.now sender receiver trace) (number (next_packet tables.now sender)) result }
{
    if !tables.has_station(sender) || !tables.has_station(receiver) {
        return Err(Refusal::NoStation);
    }
    if !tables.has_trace(trace) {
        return Err(Refusal::NoTrace);
    }
    if sender == receiver {
        return Err(Refusal::ToItself);
    }
    if !tables.cell(sender, trace).holds() {
        return Err(Refusal::NotHeld);
    }
    if slots::count(&tables.sent, &Every) >= ENTRIES {
        return Err(Refusal::SentFull);
    }
    tables.next_packet(sender).ok_or(Refusal::PacketsSpent)
}

// All checks of the sending of a duty but that of the gate; the answer is the cell of the duty.
pub fn may_send(tables: &Tables, duty: Duty, station: u8, trace: u8) -> Result<Cell, Refusal>
    ensures { Answers (may_send duty tables.now station trace) (cell_at tables.now station trace) result }
{
    known(tables, station, trace)?;
    let cell = tables.cell(station, trace);
    if !cell.owes(duty) {
        return Err(Refusal::NoDuty);
    }
    match (duty, cell.state) {
        (Duty::Dirty, State::CcitNil) => Err(Refusal::DirtyInCcitNil),
        _ => Ok(cell),
    }
}
