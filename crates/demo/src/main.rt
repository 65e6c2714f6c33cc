// A day of one trace on a field of three stations, over a share of two on a row. A gauge opens the trace and
// records into it, hands it on to a logger, and the logger hands it on to a relay; packets overtake each
// other; the owner may erase the trace once nobody refers to it any more.
#![tactic(auto)]

use cells::Duty;
use ends::row::Row;
use field::Field;
use field::modes::Working;
use link::interface::Link;
use link::message::{Kind, Message};
use link::share::Share;
use protocol::refusal::Refusal;
use protocol::report::{Row as ReportRow, Word};
use protocol::rigging::Rigging;
use script::{Call, carry_out};
use std::{fmt, io};

const GAUGE: u8 = 0;

const LOGGER: u8 = 1;

const RELAY: u8 = 2;

const TRACE: u8 = 0;

// A station by its name in the story.
#[derive(Clone, Copy)]
struct Station(u8);

impl fmt::Display for Station {
    fn fmt<W: fmt::Write>(&self, f: &mut fmt::Formatter<W>) -> fmt::Result {
        f.write_str(match self.0 {
            GAUGE => "gauge",
            LOGGER => "logger",
            RELAY => "relay",
            _ => "stranger",
        })
    }
}

// A message in words; only copies and their acks have a packet number to show.
#[derive(Clone, Copy)]
struct Shown(Message);

impl fmt::Display for Shown {
    fn fmt<W: fmt::Write>(&self, f: &mut fmt::Formatter<W>) -> fmt::Result {
        let Shown(message) = *self;
        let kind = Kind::try_from(message.kind);
        match kind {
            Ok(kind) => write!(f, "{kind} ")?,
            Err(unknown) => write!(f, "{unknown} ")?,
        }
        if matches!(kind, Ok(Kind::Copy | Kind::CopyAck)) {
            write!(f, "{} ", message.packet)?;
        }
        let sender = Station(message.sender);
        let receiver = Station(message.receiver);
        write!(f, "of trace {} from {sender} to {receiver}", message.trace)
    }
}

// A line of the story: a call, or a report. It is a value, since lines stand in lists, and no `Option<Call>`, since a
// report is not the want of a call.
#[derive(Clone, Copy)]
enum Line {
    Make(Call),
    Report,
}

// What a station does about a duty.
#[derive(Clone, Copy)]
struct Does(Duty);

impl fmt::Display for Does {
    fn fmt<W: fmt::Write>(&self, f: &mut fmt::Formatter<W>) -> fmt::Result {
        f.write_str(match self.0 {
            Duty::Dirty => "sends dirty",
            Duty::DirtyAck => "is sent dirty ack",
            Duty::Clean => "sends clean",
            Duty::CleanAck => "is sent clean ack",
        })
    }
}

// A call in words.
#[derive(Clone, Copy)]
struct Worded(Call);

impl fmt::Display for Worded {
    fn fmt<W: fmt::Write>(&self, f: &mut fmt::Formatter<W>) -> fmt::Result {
        match self.0 {
            Call::Open(s) => write!(f, "{} opens a trace", Station(s)),
            Call::Use(s, t) => write!(f, "{} uses trace {t}", Station(s)),
            Call::GiveBack(s, t) => write!(f, "{} gives back a use of trace {t}", Station(s)),
            Call::HandOn(s, d, t) => write!(
                f,
                "{} hands trace {t} on to {}",
                Station(s),
                Station(d)
            ),
            Call::Drop(s, t) => write!(f, "{} drops trace {t}", Station(s)),
            Call::Erase(s, t) => write!(f, "{} erases trace {t}", Station(s)),
            Call::CopyAck(s, p, k) => write!(
                f,
                "{} sends copy ack for {k} of {}",
                Station(s),
                Station(p)
            ),
            Call::Send(duty, s, t) => write!(f, "{} {} for trace {t}", Station(s), Does(duty)),
            Call::Deliver(place) => write!(f, "deliver at {place}"),
        }
    }
}

fn show_answer(rt: &HostRuntime, answer: Result<Option<u32>, Refusal>) -> io::Result<()> {
    match answer {
        Ok(None) => println!(rt; ": done"),
        Ok(Some(number)) => println!(rt; ": answer {number}"),
        Err(refusal) => println!(rt; ": {refusal}"),
    }
}

// Prints a report's rows.
fn report<L: Link>(rt: &HostRuntime, field: &Field<L, Working>) -> io::Result<()> {
    let blank = ReportRow {
        trace: 0,
        owner: 0,
        word: Word::Free,
        listed: 0,
    };
    let mut rows = [blank; 1];
    print!(rt; "report")?;
    let answer = field.report(&mut rows);
    show_answer(rt, answer.map(|filled| Some(u32::from(filled))))?;
    for row in &rows {
        let owner = Station(row.owner);
        println!(rt;
            "  trace {} of {owner}: {}, {} listed",
            row.trace, row.word, row.listed
        )?;
    }
    Ok(())
}

// Makes a call and prints it with its answer; a delivery shows what it brings.
fn make<L: Link>(rt: &HostRuntime, field: &mut Field<L, Working>, call: Call) -> io::Result<()> {
    let worded = Worded(call);
    print!(rt; "{worded}")?;
    if let Call::Deliver(place) = call {
        if let Some(message) = field.offer(place) {
            let shown = Shown(message);
            print!(rt; ", {shown}")?;
        }
    }
    show_answer(rt, carry_out(field, call))
}

// Tells the lines one after the other.
fn tell<L: Link>(
    rt: &HostRuntime,
    field: &mut Field<L, Working>,
    lines: &[Line],
) -> io::Result<()> {
    for line in lines {
        match *line {
            Line::Make(call) => make(rt, field, call)?,
            Line::Report => report(rt, field)?,
        }
    }
    Ok(())
}

// The gauge opens a trace and hands it on to the logger, as far as its share of the link lets it.
fn hand_on() -> [Line; 9] {
    let to_logger = Line::Make(Call::HandOn(GAUGE, LOGGER, TRACE));
    [
        Line::Make(Call::Open(GAUGE)),
        Line::Make(Call::Use(GAUGE, TRACE)),
        Line::Make(Call::Use(LOGGER, TRACE)),
        to_logger,
        to_logger,
        to_logger,
        Line::Make(Call::Erase(GAUGE, TRACE)),
        Line::Make(Call::GiveBack(GAUGE, TRACE)),
        Line::Make(Call::Erase(GAUGE, TRACE)),
    ]
}

// Two copies reach the logger; the owner lists it, and its ack makes both copies due.
fn list_logger() -> [Line; 7] {
    [
        Line::Report,
        Line::Make(Call::Deliver(0)),
        Line::Make(Call::Deliver(0)),
        Line::Make(Call::Send(Duty::Dirty, LOGGER, TRACE)),
        Line::Make(Call::Deliver(0)),
        Line::Make(Call::Send(Duty::DirtyAck, LOGGER, TRACE)),
        Line::Make(Call::Deliver(0)),
    ]
}

// The logger hands the trace on to the relay. Its first copy ack overtakes that copy, its second finds the
// gate closed.
fn overtake() -> [Line; 9] {
    [
        Line::Make(Call::HandOn(LOGGER, RELAY, TRACE)),
        Line::Make(Call::CopyAck(LOGGER, GAUGE, 100)),
        Line::Make(Call::CopyAck(LOGGER, GAUGE, 101)),
        Line::Make(Call::Drop(LOGGER, TRACE)),
        Line::Make(Call::Deliver(1)),
        Line::Make(Call::CopyAck(LOGGER, GAUGE, 101)),
        Line::Make(Call::Deliver(1)),
        Line::Make(Call::Erase(GAUGE, TRACE)),
        Line::Report,
    ]
}

// The relay is listed and acknowledges; only then may the logger drop the trace.
fn list_relay() -> [Line; 9] {
    [
        Line::Make(Call::Deliver(0)),
        Line::Make(Call::Send(Duty::Dirty, RELAY, TRACE)),
        Line::Make(Call::Deliver(0)),
        Line::Make(Call::Send(Duty::DirtyAck, RELAY, TRACE)),
        Line::Make(Call::Deliver(0)),
        Line::Make(Call::CopyAck(RELAY, LOGGER, 100)),
        Line::Make(Call::Drop(LOGGER, TRACE)),
        Line::Make(Call::Deliver(0)),
        Line::Make(Call::Drop(LOGGER, TRACE)),
    ]
}

// Both drop it; the owner unlists them, one after the other.
fn clean() -> [Line; 10] {
    [
        Line::Report,
        Line::Make(Call::Send(Duty::Clean, LOGGER, TRACE)),
        Line::Make(Call::Drop(RELAY, TRACE)),
        Line::Make(Call::Send(Duty::Clean, RELAY, TRACE)),
        Line::Make(Call::Deliver(1)),
        Line::Make(Call::Erase(GAUGE, TRACE)),
        Line::Make(Call::Deliver(0)),
        Line::Report,
        Line::Make(Call::Erase(GAUGE, TRACE)),
        Line::Make(Call::Erase(GAUGE, TRACE)),
    ]
}

// The last acks are still on their way when the trace is gone.
fn end() -> [Line; 6] {
    [
        Line::Make(Call::Send(Duty::CleanAck, LOGGER, TRACE)),
        Line::Make(Call::Send(Duty::CleanAck, RELAY, TRACE)),
        Line::Make(Call::Deliver(0)),
        Line::Make(Call::Deliver(0)),
        Line::Make(Call::Deliver(0)),
        Line::Report,
    ]
}

fn main(rt: HostRuntime) -> io::Result<()> {
    match Rigging::new(3, 100) {
        Ok(rigging) => {
            let mut field = Field::new(rigging, Share::new(Row::new(), 2));
            tell(&rt, &mut field, &hand_on())?;
            tell(&rt, &mut field, &list_logger())?;
            tell(&rt, &mut field, &overtake())?;
            tell(&rt, &mut field, &list_relay())?;
            tell(&rt, &mut field, &clean())?;
            tell(&rt, &mut field, &end())
        }
        Err(refusal) => println!(rt; "rig: {refusal}"),
    }
}
