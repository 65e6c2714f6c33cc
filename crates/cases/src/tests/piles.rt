// Shares, alone and in piles.
use super::copy;
use ends::basket::Basket;
use ends::row::Row;
use link::gate::{Gate, GateClosed};
use link::interface::Link;
use link::share::Share;

#[test]
fn a_limit_counts_from_1_to_128(rt: HostRuntime) {
    let mut tight = Share::new(Basket::new(), 0);
    assert_eq!(rt; tight.limit(), 1);
    assert_eq!(rt; tight.post(copy(0, 7, 1)), Ok(()));
    assert_eq!(rt; tight.post(copy(0, 7, 2)), Err(GateClosed { depth: 0 }));
    assert_eq!(rt; tight.post(copy(1, 7, 3)), Ok(()));
    assert_eq!(rt; Share::new(Basket::new(), 128).limit(), 128);
    assert_eq!(rt; Share::new(Basket::new(), 200).limit(), 128);
}

#[test]
fn a_gate_is_one_deeper_in_each_layer(rt: HostRuntime) {
    let mut pile = Share::new(Share::new(Row::new(), 1), 3);
    assert_eq!(rt; pile.gate(0), Ok(()));
    assert_eq!(rt; pile.post(copy(0, 7, 1)), Ok(()));
    assert_eq!(rt; pile.post(copy(0, 7, 2)), Err(GateClosed { depth: 1 }));
    assert_eq!(rt; pile.gate(1), Ok(()));
    assert_eq!(rt; pile.gate(16), Err(GateClosed { depth: 0 }));
    assert_eq!(rt; pile.post(copy(16, 7, 3)), Err(GateClosed { depth: 0 }));
    assert_eq!(rt; pile.take(0), Some(copy(0, 7, 1)));
    assert_eq!(rt; pile.gate(0), Ok(()));
}

#[test]
fn a_full_row_lies_below_two_shares(rt: HostRuntime) {
    let mut pile = Share::new(Share::new(Row::new(), 128), 9);
    for packet in 0..128u32 {
        assert_eq!(rt; pile.post(copy((packet % 16) as u8, 7, packet)), Ok(()));
    }
    assert_eq!(rt; pile.gate(5), Err(GateClosed { depth: 2 }));
    assert_eq!(rt; pile.post(copy(5, 7, 128)), Err(GateClosed { depth: 2 }));
    assert_eq!(rt; pile.gate(16), Err(GateClosed { depth: 0 }));
}

#[test]
fn a_depth_stops_at_255(rt: HostRuntime) {
    assert_eq!(rt;
        GateClosed { depth: 254 }.deeper(),
        GateClosed { depth: 255 }
    );
    assert_eq!(rt;
        GateClosed { depth: 255 }.deeper(),
        GateClosed { depth: 255 }
    );
    let open: Gate = Ok(());
    assert_eq!(rt; open.map_err(GateClosed::deeper), Ok(()));
}
