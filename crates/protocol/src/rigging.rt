// Rigging: how many stations a field has, and where their packet numbers start.
ghost use Rattle.std.specs.Prelude.{◌≡◌, ◌≤◌, MatchResult};
ghost use Rattle.protocol.specs.Refusals.{fault, numbered};

use crate::refusal::Refusal;
use tables::tables::STATIONS;

// An accepted rigging: 2 to 16 stations.
#[derive(Clone, Copy)]
pub struct Rigging {
    stations: u8,
    first: u32,
    ghost some: { 2 ≤ stations },
    ghost few: { stations ≤ 16 },
}

impl Rigging {
    // A field of so many stations, each of which numbers its packets from `first` on.
    pub fn new(stations: u8, first: u32) -> Result<Rigging, Refusal>
        ensures { MatchResult result (λ g. (g.stations ≡ stations) × (g.first ≡ first)) (λ e. (fault e ≡ numbered 20) × (2 ≤ stations → stations ≤ 16 → ⊥)) }
    {
        if stations < 2 || usize::from(stations) > STATIONS {
            return Err(Refusal::StationCount);
        }
        Ok(Rigging { stations, first })
    }

    // How many stations there are.
    pub fn stations(&self) -> u8
        ensures { result ≡ self.now.stations }
    {
        self.stations
    }

    // The first packet number of each station.
    pub fn first(&self) -> u32
        ensures { result ≡ self.now.first }
    {
        self.first
    }
}
