//! The events of some structs, worked out by hand.

use std::test::Fail;
use wire_events::{WireEvent, WireEvents};
use wire_scan::scan_wire;

#[test]
fn events_of_a_struct(rt: HostRuntime) -> Result<(), Fail> {
    // Field 1, an i32 of 1, and the end.
    let bytes = b"\x15\x02\x00".as_slice();
    scan_wire(bytes)?;
    let mut events = WireEvents::new(bytes);
    assert!(rt; matches!(events.next(), Some(WireEvent::Struct)));
    assert!(rt; matches!(events.next(), Some(WireEvent::Field(1))));
    assert!(rt; matches!(events.next(), Some(WireEvent::I32(1))));
    assert_eq!(rt; events.place(), 2);
    assert!(rt; matches!(events.next(), Some(WireEvent::End)));
    assert!(rt; events.next().is_none());
    assert_eq!(rt; events.place(), 3);
    Ok(())
}
