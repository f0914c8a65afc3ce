//! Event counts of workers.
ghost use Rattle.std.specs.Prelude.{◌≡◌, ◌<◌, ◌≤◌, ◌+◌, length, map, slice_index, slice_set};
ghost use Rattle.task_code.specs.View.{event_view};
ghost use Rattle.dataflow.specs.Events.{worker_of};
ghost use Rattle.board_runs.specs.Report.{AreTallies};

use task_code::event::Event;
use task_code::packed_event::PackedEvent;
use values::limits::MAX_THREADS;

/// Returns the number of events of each worker. None exceeds the number of all events.
pub(crate) fn tallies(history: &Vec<PackedEvent>) -> [u32; MAX_THREADS]
    requires { length history.now.items ≤ u32.MAX }
    ensures { AreTallies (map event_view history.now.items) result }
{
    let mut tallies = [0u32; MAX_THREADS];
    for event in history {
        count(&mut tallies, worker_of_event(event));
    }
    tallies
}

/// Increments the count of this worker, if its number is less than `MAX_THREADS`.
fn count(tallies: &mut [u32; MAX_THREADS], worker: usize)
    requires { slice_index tallies.old worker < u32.MAX }
    ensures { tallies.new ≡ slice_set tallies.old worker (slice_index tallies.old worker + 1) }
{
    if worker < tallies.len() {
        tallies[worker] += 1;
    }
}

/// Returns the worker of an event.
fn worker_of_event(event: &PackedEvent) -> usize
    ensures { result ≡ worker_of (event_view event.now) }
{
    match event.event() {
        Event::Begin { worker, .. } => worker as usize,
        Event::End { worker, .. } => worker as usize,
        Event::Back { worker, .. } => worker as usize,
    }
}
