// A field of stations over any link: rigging, the calls of users and of the house, and the report.
#![tactic(auto)]

ghost use Rattle.std.specs.Prelude.{◌≡◌, [], length};
ghost use Rattle.std.specs.List.{slice_get};
ghost use Rattle.tables.specs.Kept.{cell_at, rigged};
ghost use Rattle.days.specs.Days.{OnEveryDay};
ghost use Rattle.days.specs.Promises.{AllInPlace, FewWait, ListsExact, NoListEmptyEarly};
ghost use Rattle.field.specs.Carried.{situation};

use crate::modes::{Mode, Working};
use cells::Cell;
use link::interface::Link;
use link::message::Message;
use protocol::rigging::Rigging;
use tables::tables::Tables;

pub mod house_calls;
pub mod modes;
pub mod report;
pub mod user_calls;

// The stations, their tables and their link, in a mode that says which calls there are.
#[derive(Drop)]
pub struct Field<L: Link, M: Mode> {
    tables: Tables,
    link: L,
    mode: M,
}

impl<L: Link> Field<L, Working> {
    // A working field of the rigged stations over a link, which is cleared. On every day that begins with it, no
    // list is empty early, every message that waits can be delivered, lists name exactly the stations that they
    // should, and few messages wait.
    pub fn new(rigging: Rigging, link: L) -> Self
        ensures tables { result.tables ≡ rigged rigging.stations rigging.first }
        ensures link { (L.Link.meaning result.link).bag ≡ [] }
        ensures early { OnEveryDay NoListEmptyEarly (situation L.Link.meaning result) }
        ensures place { OnEveryDay AllInPlace (situation L.Link.meaning result) }
        ensures exact { OnEveryDay ListsExact (situation L.Link.meaning result) }
        ensures few { OnEveryDay FewWait (situation L.Link.meaning result) }
    {
        let mut link = link;
        link.clear();
        Field {
            tables: Tables::new(rigging.stations(), rigging.first()),
            link,
            mode: Working,
        }
    }
}

impl<L: Link, M: Mode> Field<L, M> {
    // What the field keeps for a station and a trace; a blank cell outside the tables.
    pub fn cell(&self, station: u8, trace: u8) -> Cell
        ensures { result ≡ cell_at self.now.tables station trace }
    {
        self.tables.cell(station, trace)
    }

    // The message that a delivery at a place would take.
    pub fn offer(&self, place: u32) -> Option<Message>
        ensures { result ≡ slice_get (L.Link.meaning self.now.link).offers place }
    {
        self.link.offer(place)
    }

    // How many offers there are.
    pub fn offers(&self) -> u16
        ensures { result ≡ length (L.Link.meaning self.now.link).offers }
    {
        self.link.offers()
    }
}
