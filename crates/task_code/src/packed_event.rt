//! A compact encoding of run events in nine bytes each, for the history of a board.
//!
//! A packed event has an item number of eight bytes and one byte, the mark, for the kind of event and the worker.

ghost use Rattle.std.specs.Prelude.{◌≡◌, ◌<◌};
ghost use Rattle.task_code.specs.View.{event_view};
ghost use Rattle.dataflow.specs.Events.{worker_of};
ghost use Rattle.task_code.specs.Packed.{unpacked};
ghost use Rattle.values.specs.Limits.{max_threads};

use crate::event::Event;
use std::marker::Model;
use values::limits::MAX_THREADS;

/// Offset of the mark of an event that ends its item. The mark of an event that begins its item is the worker itself.
const ENDS: u8 = MAX_THREADS as u8;

/// Offset of the mark of an event that gives its item back.
const GIVES_BACK: u8 = 2 * ENDS;

/// An event in nine bytes: eight for the number of its item, and one for the kind of event and the worker.
#[derive(Clone, Copy, Drop)]
pub struct PackedEvent {
    item: [u8; 8],
    mark: u8,
}

impl Model for PackedEvent {
    ghost use Rattle.std.specs.Prelude.{◌≡◌};
    ghost use Rattle.std.specs.Int.{w64, from_le_bytes, to_le_bytes};
    ghost use Rattle.std.proofs.Common.{ap, ◌∙◌};
    ghost use Rattle.task_code.specs.declared.event.Event.{Event};
    ghost use Rattle.task_code.specs.Packed.{mark_again, mark_of, number_again, number_of, unpacked};

    ghost Value = { Event };

    ghost view = { λ a. unpacked a.mark (from_le_bytes w64 a.item) };

    ghost invariant = { λ a. to_le_bytes w64 (from_le_bytes w64 a.item) ≡ a.item };

    ghost inverse = { λ event. record { item = to_le_bytes w64 (number_of event); mark = mark_of event } };

    ghost inverse_ok = { λ a h i. record {
      item = (ap (to_le_bytes w64) (number_again a.mark (from_le_bytes w64 a.item)) ∙ h) i;
      mark = mark_again a.mark (from_le_bytes w64 a.item) i;
    } };
}

impl PackedEvent {
    /// Packs an event.
    #[inline(always)]
    pub fn new(event: Event) -> PackedEvent
        requires { worker_of (event_view event) < max_threads }
        ensures { result ≡ event }
    {
        match event {
            Event::Begin { worker, item } => PackedEvent::marked(worker, item),
            Event::End { worker, item } => PackedEvent::marked(worker + ENDS, item),
            Event::Back { worker, item } => PackedEvent::marked(worker + GIVES_BACK, item),
        }
    }

    /// Creates the event with this mark and item.
    #[inline(always)]
    fn marked(mark: u8, item: u64) -> PackedEvent
        ensures { result ≡ unpacked mark item }
    {
        PackedEvent {
            item: item.to_le_bytes(),
            mark,
        }
    }

    /// Returns the event that was packed.
    #[inline(always)]
    pub fn event(self) -> Event
        ensures { result ≡ self }
    {
        let item = u64::from_le_bytes(self.item);
        if self.mark < ENDS {
            Event::Begin {
                worker: self.mark,
                item,
            }
        } else if self.mark < GIVES_BACK {
            Event::End {
                worker: self.mark - ENDS,
                item,
            }
        } else {
            Event::Back {
                worker: self.mark - GIVES_BACK,
                item,
            }
        }
    }
}
