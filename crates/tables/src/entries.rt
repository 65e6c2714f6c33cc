// The entries by which stations remember copies under way.
ghost use Rattle.std.specs.Prelude.{◌≡◌, map};
ghost use Rattle.tables.specs.Copies.{freed};

// One hand-on: the sender passed a reference to the trace on to the receiver, in the copy with this packet
// number. A sent entry is one of these.
#[derive(Clone, Copy, PartialEq, Eq)]
pub struct HandOn {
    pub packet: u32,
    pub sender: u8,
    pub receiver: u8,
    pub trace: u8,
}

// A copy that came. It is due for its copy ack, or else blocked until the owner has confirmed the receiver; the
// copy is known in both cases, so that `due` is no `Option`.
#[derive(Clone, Copy)]
pub struct Received {
    pub copy: HandOn,
    pub due: bool,
}

// The place after the owner has confirmed a station for a trace.
fn freed(slot: Option<Received>, station: u8, trace: u8) -> Option<Received>
    ensures { result ≡ freed station trace slot }
{
    let entry = slot?;
    let due = entry.due || entry.copy.receiver == station && entry.copy.trace == trace;
    Some(Received { due, ..entry })
}

// Makes every blocked entry of a station and a trace due.
pub fn free(received: &mut [Option<Received>], station: u8, trace: u8)
    ensures { received.new ≡ map (freed station trace) received.old }
{
    for slot in received.iter_mut() {
        *slot = freed(*slot, station, trace);
    }
}
