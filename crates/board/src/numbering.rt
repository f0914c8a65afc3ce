//! Overflow checks for the counts that grow when an item opens instances.

ghost use Rattle.std.specs.Prelude.{◌≡◌, ◌+◌, ◌*◌, ◌<◌, ◌^◌, Some, IfSome, IsTrue};
ghost use Rattle.board_history.specs.Ending.{home};
ghost use Rattle.board_history.specs.Fields.{Frame, slot_at};
ghost use Rattle.board_instances.specs.Made.{FitsAround};
ghost use Rattle.board_instances.specs.View.{frames_view, job_view};

use board_instances::instance::Instance;
use board_instances::item::ItemTask;
use slab::Slab;

/// Returns true if the instance with key `at` exists and its count of live children can grow by `count` without
/// overflow.
#[tactic(auto, using(crate::proofs::Counting::fits_there))]
fn fits_in(instances: &Slab<Instance>, at: usize, count: usize) -> bool
    ensures { IsTrue result → (f : Frame) × (slot_at (frames_view instances.now.slots) at ≡ Some f) × (f.live + count < 2 ^ 64) }
{
    match instances.get(at) {
        Some(found) => match found.live.checked_add(count) {
            Some(_) => true,
            None => false,
        },
        None => false,
    }
}

/// Returns true if the instance of the item can count `count` more child instances. The script item has no such
/// instance, so it always can.
pub fn fits_around(instances: &Slab<Instance>, job: ItemTask, count: usize) -> bool
    ensures { IsTrue result → FitsAround (frames_view instances.now.slots) (home (job_view job)) count }
{
    match job {
        ItemTask::Script => true,
        ItemTask::Does { instance, .. } => fits_in(instances, instance, count),
    }
}

/// Returns an upper bound on the names of all items: `rows` old items count once, and `opened * entries` new ones
/// twice. Each item has at most `most` names. `None` if the bound overflows.
pub fn name_count_after(rows: usize, opened: usize, entries: usize, most: usize) -> Option<usize>
    ensures sum { IfSome result (λ sum. sum ≡ rows * most + (opened * (entries * most) + opened * (entries * most))) }
    ensures few { IfSome result (λ sum. sum < 2 ^ 64) }
{
    let new = opened.checked_mul(entries.checked_mul(most)?)?;
    rows.checked_mul(most)?.checked_add(new.checked_add(new)?)
}
