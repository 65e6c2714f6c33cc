// Gates: whether a station may post, and the link's refusal.
ghost use Rattle.std.specs.Prelude.{◌≡◌, ◌++◌, Some, codes, decimal};
ghost use Rattle.link.specs.Gates.{deeper, gate_of};

use std::error::Error;
use std::fmt;

// How many stations have a gate. That a field has no more stations is another rule, with a number of its own.
pub const STATIONS: u8 = 16;

// The refusal of a post: the sender's gate is closed. The depth is the number of layers from the one asked
// down to the one that closed it.
#[derive(Clone, Copy, PartialEq, Eq, Debug)]
pub struct GateClosed {
    pub depth: u8,
}

// A station's gate: open, or closed at a depth.
pub type Gate = Result<(), GateClosed>;

impl GateClosed {
    // The refusal as the layer above tells it: one deeper, up to 255.
    pub fn deeper(self) -> GateClosed
        ensures { result ≡ deeper self }
    {
        GateClosed {
            depth: self.depth.saturating_add(1),
        }
    }
}

// A station's gate on a link: above 15 there is none, and such a station finds it closed at depth 0.
pub fn gate_of(station: u8, gate: Gate) -> Gate
    ensures { result ≡ gate_of station gate }
{
    if station < STATIONS {
        gate
    } else {
        Err(GateClosed { depth: 0 })
    }
}

impl fmt::Display for GateClosed {
    ghost output = { λ closed. Some (codes "the gate is closed at depth " ++ decimal closed.depth) };

    fn fmt<W: fmt::Write>(&self, f: &mut fmt::Formatter<W>) -> fmt::Result {
        let depth = self.depth;
        write!(f, "the gate is closed at depth {depth}")
    }
}

impl Error for GateClosed {}
