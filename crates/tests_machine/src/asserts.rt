//! What a test asserts, as functions.

use std::fmt::Debug;
use std::process::Abort;
use task_code::event::Event;
use task_code::packed_event::PackedEvent;

/// Ends the test where the two are not equal, and shows both.
pub fn is_equal<T: PartialEq + Debug + Drop>(rt: &impl Abort, left: T, right: T) {
    assert_eq!(rt; left, right);
}

/// The last event of a history.
pub fn last_of(history: &[PackedEvent]) -> Option<Event> {
    let packed = history.last()?;
    Some(packed.event())
}

/// Returns true if a history has these events.
pub fn are_events(history: &[PackedEvent], events: &[Event]) -> bool {
    if history.len() != events.len() {
        return false;
    }
    for (packed, event) in history.iter().zip(events) {
        if packed.event() != *event {
            return false;
        }
    }
    true
}
