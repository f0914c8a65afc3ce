//! Events that were packed come out as they were.

use crate::asserts::is_equal;
use std::process::Abort;
use task_code::event::Event;
use task_code::packed_event::PackedEvent;

/// The packed event stands for that one.
fn stands_for(rt: &impl Abort, packed: PackedEvent, event: Event) {
    is_equal(rt, packed.event(), event);
}

#[test]
fn events_come_out_as_they_were(rt: HostRuntime) {
    let first = Event::Begin { worker: 0, item: 1 };
    stands_for(&rt, PackedEvent::new(first), first);
    let last = Event::Back {
        worker: 63,
        item: u64::MAX,
    };
    stands_for(&rt, PackedEvent::new(last), last);
    let ended = Event::End {
        worker: 63,
        item: 0x0102_0304_0506_0708,
    };
    stands_for(&rt, PackedEvent::new(ended), ended);
}

#[test]
fn an_event_takes_nine_bytes(rt: HostRuntime) {
    is_equal(&rt, size_of::<PackedEvent>(), 9);
}
