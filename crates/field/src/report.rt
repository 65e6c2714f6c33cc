// The report: one row for each trace.
ghost use Rattle.std.specs.Prelude.{◌≡◌};
ghost use Rattle.protocol.specs.Calls.{told};
ghost use Rattle.protocol.specs.Reports.{reported, row_of, rows_after};

use crate::Field;
use crate::modes::Mode;
use link::interface::Link;
use protocol::refusal::Refusal;
use protocol::report::{Row, Word};
use tables::tables::Tables;

// The row of a trace.
fn row_of(tables: &Tables, trace: u8) -> Row
    ensures { result ≡ row_of tables.now trace }
{
    let kept = tables.trace(trace);
    let word = if kept.erased {
        Word::Erased
    } else if tables.list_is_empty(trace) {
        Word::Free
    } else {
        Word::Kept
    };
    Row {
        trace,
        owner: kept.owner,
        word,
        listed: tables.listed(trace),
    }
}

impl<L: Link, M: Mode> Field<L, M> {
    // Fills one row for each trace and answers how many; further rows stay as they were. With fewer rows
    // than traces it is refused, and no row changes. The rows are lent, since a field has no memory for a report.
    pub fn report(&self, rows: &mut [Row]) -> Result<u8, Refusal>
        ensures value { told result ≡ reported self.now.tables rows.old }
        ensures after { rows.new ≡ rows_after self.now.tables rows.old }
    {
        if rows.len() < usize::from(self.tables.opened) {
            return Err(Refusal::FewRows);
        }
        // by number, and not `.zip(rows.iter_mut())`, tried: what is written through `zip` was not proved
        for trace in 0..self.tables.opened {
            rows[usize::from(trace)] = row_of(&self.tables, trace);
        }
        Ok(self.tables.opened)
    }
}
