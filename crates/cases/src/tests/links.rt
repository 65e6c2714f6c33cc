// Messages, and the links that stand alone.
use super::copy;
use ends::basket::Basket;
use ends::row::Row;
use link::gate::GateClosed;
use link::interface::Link;
use link::message::{Kind, Message, UnknownKind};
use std::process::Abort;
use std::test::Fail;

// Posts 128 messages, eight from each station: the gates close with the last.
fn fills<L: Link>(rt: &impl Abort, link: &mut L) {
    for packet in 0..128u32 {
        assert_eq!(rt; link.gate(15), Ok(()));
        assert_eq!(rt; link.post(copy((packet % 16) as u8, 7, packet)), Ok(()));
    }
    assert_eq!(rt; link.gate(0), Err(GateClosed { depth: 0 }));
    assert_eq!(rt; link.gate(15), Err(GateClosed { depth: 0 }));
    assert_eq!(rt; link.post(copy(3, 7, 128)), Err(GateClosed { depth: 0 }));
    assert_eq!(rt; link.waiting(), 128);
    assert_eq!(rt; link.waiting_from(3), 8);
    assert_eq!(rt; link.waiting_of(1), 128);
}

// Taking one message opens the gates again, and clearing takes all.
fn empties<L: Link>(rt: &impl Abort, link: &mut L) {
    assert_eq!(rt; link.take(0), Some(copy(0, 7, 0)));
    assert_eq!(rt; link.gate(0), Ok(()));
    assert_eq!(rt; link.take(70_000), None);
    assert_eq!(rt; link.waiting(), 127);
    link.clear();
    assert_eq!(rt; link.waiting(), 0);
    assert_eq!(rt; link.offers(), 0);
    assert_eq!(rt; link.take(0), None);
}

#[test]
fn kinds_and_numbers(rt: HostRuntime) -> Result<(), Fail> {
    assert_eq!(rt; Kind::try_from(0), Err(UnknownKind(0)));
    assert_eq!(rt; Kind::try_from(7), Err(UnknownKind(7)));
    for number in 1..7u8 {
        let kind = Kind::try_from(number)?;
        assert_eq!(rt; u8::from(kind), number);
    }
    assert_eq!(rt; Message::new(Kind::CopyAck, 1, 2, 3, 4).packet, 4);
    assert_eq!(rt; Message::new(Kind::Dirty, 1, 2, 3, 4).packet, 0);
    Ok(())
}

#[test]
fn a_basket_closes_when_full(rt: HostRuntime) {
    let mut basket = Basket::new();
    fills(&rt, &mut basket);
    assert_eq!(rt; basket.offers(), 128);
    empties(&rt, &mut basket);
}

#[test]
fn a_row_closes_when_full(rt: HostRuntime) {
    let mut row = Row::new();
    fills(&rt, &mut row);
    assert_eq!(rt; row.offers(), 16);
    empties(&rt, &mut row);
}

#[test]
fn a_row_keeps_the_order_of_posting(rt: HostRuntime) {
    let mut row = Row::new();
    let _ = row.post(copy(0, 1, 1));
    let _ = row.post(copy(0, 2, 2));
    let _ = row.post(copy(0, 1, 3));
    let _ = row.post(copy(2, 1, 4));
    assert_eq!(rt; row.offers(), 3);
    assert_eq!(rt; row.offer(2), Some(copy(2, 1, 4)));
    assert_eq!(rt; row.take(1), Some(copy(0, 2, 2)));
    assert_eq!(rt; row.offer(1), Some(copy(2, 1, 4)));
    assert_eq!(rt; row.take(0), Some(copy(0, 1, 1)));
    assert_eq!(rt; row.offer(0), Some(copy(0, 1, 3)));
    assert_eq!(rt; row.offer(1), Some(copy(2, 1, 4)));
    assert_eq!(rt; row.offer(2), None);
}

#[test]
fn the_same_message_can_wait_twice(rt: HostRuntime) {
    let mut basket = Basket::new();
    let mut row = Row::new();
    for _ in 0..2 {
        assert_eq!(rt; basket.post(copy(0, 1, 5)), Ok(()));
        assert_eq!(rt; row.post(copy(0, 1, 5)), Ok(()));
    }
    assert_eq!(rt; basket.offers(), 2);
    assert_eq!(rt; row.offers(), 1);
    assert_eq!(rt; basket.take(1), Some(copy(0, 1, 5)));
    assert_eq!(rt; row.take(0), Some(copy(0, 1, 5)));
    assert_eq!(rt; basket.waiting(), 1);
    assert_eq!(rt; row.offer(0), Some(copy(0, 1, 5)));
}

#[test]
fn station_16_has_no_gate(rt: HostRuntime) {
    let mut row = Row::new();
    let mut basket = Basket::new();
    assert_eq!(rt; row.gate(15), Ok(()));
    assert_eq!(rt; row.gate(16), Err(GateClosed { depth: 0 }));
    assert_eq!(rt; basket.gate(255), Err(GateClosed { depth: 0 }));
    assert_eq!(rt; row.post(copy(16, 1, 1)), Err(GateClosed { depth: 0 }));
    assert_eq!(rt; basket.post(copy(16, 1, 1)), Err(GateClosed { depth: 0 }));
    assert_eq!(rt; row.post(copy(1, 16, 1)), Ok(()));
}
