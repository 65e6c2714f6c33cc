// The order of refusals: for each call, arguments under which two conditions hold.
use super::{handed_on, play, to_ccitnil};
use cells::Duty;
use ends::row::Row;
use field::Field;
use link::share::Share;
use protocol::rigging::Rigging;
use script::Call;
use std::test::Fail;

const OUT: u8 = 200;

#[test]
fn opening_and_uses(rt: HostRuntime) -> Result<(), Fail> {
    let mut field = Field::new(Rigging::new(2, 0)?, Row::new());
    let calls = [
        (Call::Use(OUT, OUT), Some(1)),
        (Call::Use(0, OUT), Some(2)),
        (Call::GiveBack(OUT, OUT), Some(1)),
        (Call::GiveBack(0, OUT), Some(2)),
    ];
    play(&rt, &mut field, &calls);
    play(&rt, &mut field, &[(Call::Open(0), None); 32]);
    play(
        &rt,
        &mut field,
        &[
            (Call::Open(OUT), Some(1)),
            (Call::Use(1, 0), Some(5)),
            (Call::GiveBack(1, 0), Some(12)),
        ],
    );
    play(&rt, &mut field, &[(Call::Use(0, 0), None); 255]);
    play(&rt, &mut field, &[(Call::Use(0, 0), Some(11))]);
    Ok(())
}

#[test]
fn handing_on(rt: HostRuntime) -> Result<(), Fail> {
    let mut field = Field::new(Rigging::new(3, u32::MAX - 63)?, Row::new());
    let calls = [
        (Call::HandOn(0, OUT, OUT), Some(1)),
        (Call::HandOn(OUT, 0, OUT), Some(1)),
        (Call::HandOn(0, 0, OUT), Some(2)),
        (Call::Open(0), None),
        (Call::HandOn(1, 1, 0), Some(4)),
    ];
    play(&rt, &mut field, &calls);
    play(&rt, &mut field, &[(Call::HandOn(0, 1, 0), None); 64]);
    // 64 sent entries, and the numbers of station 0 are spent
    play(
        &rt,
        &mut field,
        &[
            (Call::HandOn(1, 2, 0), Some(5)),
            (Call::HandOn(0, 1, 0), Some(13)),
        ],
    );
    Ok(())
}

#[test]
fn numbers_are_checked_before_gates(rt: HostRuntime) -> Result<(), Fail> {
    let mut field = Field::new(Rigging::new(2, u32::MAX)?, Share::new(Row::new(), 1));
    play(
        &rt,
        &mut field,
        &[
            (Call::Open(0), None),
            (Call::HandOn(0, 1, 0), None),
            (Call::HandOn(0, 1, 0), Some(14)),
        ],
    );
    Ok(())
}

#[test]
fn dropping(rt: HostRuntime) -> Result<(), Fail> {
    let mut field = Field::new(Rigging::new(3, 0)?, Row::new());
    play(
        &rt,
        &mut field,
        &[(Call::Drop(OUT, OUT), Some(1)), (Call::Drop(0, 0), Some(2))],
    );
    play(&rt, &mut field, &handed_on(0));
    let calls = [
        (Call::Use(0, 0), None),
        (Call::Drop(0, 0), Some(6)),
        (Call::Use(1, 0), None),
        (Call::HandOn(1, 2, 0), None),
        (Call::Drop(1, 0), Some(8)),
        (Call::Drop(2, 0), Some(5)),
        (Call::GiveBack(1, 0), None),
        (Call::Drop(1, 0), Some(10)),
    ];
    play(&rt, &mut field, &calls);
    Ok(())
}

#[test]
fn erasing(rt: HostRuntime) -> Result<(), Fail> {
    let mut field = Field::new(Rigging::new(2, 0)?, Row::new());
    let calls = [
        (Call::Erase(OUT, OUT), Some(1)),
        (Call::Erase(1, OUT), Some(2)),
        (Call::Open(0), None),
        (Call::Erase(1, 0), Some(7)),
        (Call::Use(0, 0), None),
        (Call::HandOn(0, 1, 0), None),
        (Call::Erase(0, 0), Some(8)),
        (Call::GiveBack(0, 0), None),
        (Call::Erase(0, 0), Some(9)),
        (Call::Open(1), None),
        (Call::Erase(1, 1), None),
        (Call::Erase(1, 1), Some(5)),
        (Call::Drop(1, 1), Some(6)),
    ];
    play(&rt, &mut field, &calls);
    Ok(())
}

#[test]
fn sendings(rt: HostRuntime) -> Result<(), Fail> {
    let mut field = Field::new(Rigging::new(3, 0)?, Share::new(Row::new(), 1));
    let calls = [
        (Call::CopyAck(OUT, 0, 0), Some(1)),
        (Call::CopyAck(0, OUT, 0), Some(1)),
        (Call::Send(Duty::Dirty, OUT, OUT), Some(1)),
        (Call::Send(Duty::DirtyAck, 0, OUT), Some(2)),
        (Call::Send(Duty::Clean, 0, OUT), Some(2)),
        (Call::Send(Duty::CleanAck, 0, OUT), Some(2)),
        (Call::Open(0), None),
        (Call::HandOn(0, 1, 0), None),
    ];
    play(&rt, &mut field, &calls);
    // the gate of station 0, the owner, is closed now
    let calls = [
        (Call::CopyAck(0, 1, 0), Some(16)),
        (Call::Send(Duty::Dirty, 0, 0), Some(16)),
        (Call::Send(Duty::DirtyAck, 1, 0), Some(16)),
        (Call::Send(Duty::Clean, 0, 0), Some(16)),
        (Call::Send(Duty::CleanAck, 1, 0), Some(16)),
        (Call::Deliver(1), Some(18)),
    ];
    play(&rt, &mut field, &calls);
    Ok(())
}

#[test]
fn a_dirty_in_ccitnil_before_gates(rt: HostRuntime) -> Result<(), Fail> {
    let mut field = Field::new(Rigging::new(2, 0)?, Share::new(Row::new(), 1));
    play(&rt, &mut field, &handed_on(0));
    play(&rt, &mut field, &to_ccitnil());
    play(
        &rt,
        &mut field,
        &[(Call::Send(Duty::Dirty, 1, 0), Some(17))],
    );
    Ok(())
}

#[test]
fn an_ack_asks_the_gate_of_the_owner(rt: HostRuntime) -> Result<(), Fail> {
    let mut field = Field::new(Rigging::new(3, 0)?, Share::new(Row::new(), 1));
    let calls = [
        (Call::Open(0), None),
        (Call::HandOn(0, 1, 0), None),
        (Call::Deliver(0), None),
        (Call::Send(Duty::Dirty, 1, 0), None),
        (Call::Deliver(0), None),
        (Call::HandOn(0, 2, 0), None),
        (Call::Send(Duty::DirtyAck, 1, 0), Some(15)),
        (Call::Deliver(0), None),
        (Call::Send(Duty::DirtyAck, 1, 0), None),
    ];
    play(&rt, &mut field, &calls);
    Ok(())
}
