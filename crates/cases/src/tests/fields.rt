// Fields: the worked examples of rigging, opening, dropping, cleaning, numbering, gates and reports.
use super::{handed_on, play, refused, to_ccitnil};
use cells::{Duty, State};
use ends::basket::Basket;
use ends::row::Row;
use field::Field;
use link::share::Share;
use protocol::report::{Row as ReportRow, Word};
use protocol::rigging::Rigging;
use script::Call;
use std::test::Fail;

#[test]
fn two_to_sixteen_stations_rig(rt: HostRuntime) {
    assert_eq!(rt; refused(Rigging::new(2, 0)), None);
    assert_eq!(rt; refused(Rigging::new(16, 0)), None);
    assert_eq!(rt; refused(Rigging::new(1, 0)), Some(20));
    assert_eq!(rt; refused(Rigging::new(17, 0)), Some(20));
}

#[test]
fn the_thirty_third_trace_is_refused(rt: HostRuntime) -> Result<(), Fail> {
    let mut field = Field::new(Rigging::new(2, 0)?, Row::new());
    play(&rt, &mut field, &[(Call::Open(0), None); 31]);
    assert_eq!(rt; field.open(1)?, 31);
    assert_eq!(rt; refused(field.open(0)), Some(3));
    Ok(())
}

#[test]
fn a_drop_waits_for_the_copy_ack(rt: HostRuntime) -> Result<(), Fail> {
    let mut field = Field::new(Rigging::new(3, 7)?, Row::new());
    play(&rt, &mut field, &handed_on(7));
    let calls = [
        (Call::Deliver(0), None),
        (Call::HandOn(1, 2, 0), None),
        (Call::Drop(1, 0), Some(10)),
        (Call::Deliver(0), None),
        (Call::Send(Duty::Dirty, 2, 0), None),
        (Call::Deliver(0), None),
        (Call::Send(Duty::DirtyAck, 2, 0), None),
        (Call::Deliver(0), None),
        (Call::CopyAck(2, 1, 7), None),
        (Call::Drop(1, 0), Some(10)),
        (Call::Deliver(0), None),
        (Call::Drop(1, 0), None),
    ];
    play(&rt, &mut field, &calls);
    Ok(())
}

#[test]
fn a_copy_in_ok_strikes_the_clean_duty(rt: HostRuntime) -> Result<(), Fail> {
    let mut field = Field::new(Rigging::new(2, 0)?, Basket::new());
    play(&rt, &mut field, &handed_on(0));
    play(
        &rt,
        &mut field,
        &[
            (Call::Deliver(0), None),
            (Call::Drop(1, 0), None),
            (Call::HandOn(0, 1, 0), None),
        ],
    );
    assert!(rt; field.cell(1, 0).clean);
    play(
        &rt,
        &mut field,
        &[
            (Call::Deliver(0), None),
            (Call::Send(Duty::Clean, 1, 0), Some(16)),
            (Call::CopyAck(1, 0, 1), None),
        ],
    );
    assert!(rt; field.cell(1, 0).holds());
    Ok(())
}

#[test]
fn a_copy_in_ccit_makes_ccitnil(rt: HostRuntime) -> Result<(), Fail> {
    let mut field = Field::new(Rigging::new(2, 0)?, Row::new());
    play(&rt, &mut field, &handed_on(0));
    play(&rt, &mut field, &to_ccitnil());
    play(
        &rt,
        &mut field,
        &[(Call::Send(Duty::Dirty, 1, 0), Some(17))],
    );
    assert_eq!(rt; field.cell(1, 0).state, State::CcitNil);
    let calls = [
        (Call::Deliver(0), None),
        (Call::Send(Duty::CleanAck, 1, 0), None),
        (Call::Deliver(0), None),
        (Call::Send(Duty::Dirty, 1, 0), None),
    ];
    play(&rt, &mut field, &calls);
    assert_eq!(rt; field.cell(1, 0).state, State::Nil);
    assert!(rt; field.cell(1, 0).awaits());
    Ok(())
}

#[test]
fn the_last_packet_number_is_a_good_one(rt: HostRuntime) -> Result<(), Fail> {
    let mut field = Field::new(Rigging::new(2, u32::MAX)?, Row::new());
    play(&rt, &mut field, &[(Call::Open(0), None)]);
    assert_eq!(rt; field.hand_on(0, 1, 0)?, u32::MAX);
    assert_eq!(rt; refused(field.hand_on(0, 1, 0)), Some(14));
    Ok(())
}

#[test]
fn a_share_of_one_closes_at_depth_0(rt: HostRuntime) -> Result<(), Fail> {
    let mut field = Field::new(Rigging::new(2, 0)?, Share::new(Row::new(), 1));
    play(
        &rt,
        &mut field,
        &[(Call::Open(0), None), (Call::HandOn(0, 1, 0), None)],
    );
    match field.hand_on(0, 1, 0) {
        Ok(_) => assert!(rt; false),
        Err(refusal) => assert_eq!(rt; (refusal.number(), refusal.depth()), (15, Some(0))),
    }
    play(&rt, &mut field, &[(Call::Deliver(0), None)]);
    assert_eq!(rt; field.hand_on(0, 1, 0)?, 1);
    Ok(())
}

#[test]
fn a_dirty_ack_frees_every_blocked_entry(rt: HostRuntime) -> Result<(), Fail> {
    let mut field = Field::new(Rigging::new(2, 0)?, Row::new());
    let calls = [
        (Call::Open(0), None),
        (Call::HandOn(0, 1, 0), None),
        (Call::HandOn(0, 1, 0), None),
        (Call::Deliver(0), None),
        (Call::Deliver(0), None),
        (Call::CopyAck(1, 0, 0), Some(16)),
        (Call::Send(Duty::Dirty, 1, 0), None),
        (Call::Deliver(0), None),
        (Call::Send(Duty::DirtyAck, 1, 0), None),
        (Call::Deliver(0), None),
        (Call::CopyAck(1, 0, 1), None),
        (Call::CopyAck(1, 0, 0), None),
    ];
    play(&rt, &mut field, &calls);
    Ok(())
}

#[test]
fn the_report_fills_a_row_for_each_trace(rt: HostRuntime) -> Result<(), Fail> {
    let mut field = Field::new(Rigging::new(2, 0)?, Row::new());
    play(
        &rt,
        &mut field,
        &[
            (Call::Open(0), None),
            (Call::Open(1), None),
            (Call::HandOn(0, 1, 0), None),
        ],
    );
    let blank = ReportRow {
        trace: 9,
        owner: 9,
        word: Word::Erased,
        listed: 9,
    };
    let mut rows = [blank; 3];
    assert_eq!(rt; refused(field.report(&mut rows[0..1])), Some(21));
    assert_eq!(rt; rows, [blank; 3]);
    assert_eq!(rt; field.report(&mut rows)?, 2);
    let kept = ReportRow {
        trace: 0,
        owner: 0,
        word: Word::Kept,
        listed: 0,
    };
    let free = ReportRow {
        trace: 1,
        owner: 1,
        word: Word::Free,
        listed: 0,
    };
    assert_eq!(rt; rows, [kept, free, blank]);
    Ok(())
}
