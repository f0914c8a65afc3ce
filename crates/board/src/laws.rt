//! Theorems about the fields of a board and about the work of its items.

ghost use Rattle.std.specs.Prelude.{ℕ, ℤ, List};
ghost use Rattle.dataflow.specs.Machine.{Event};
ghost use Rattle.task_code.specs.Machine.{Run};
ghost use Rattle.task_code.specs.Whole.{IsCode};
ghost use Rattle.board_work.specs.Assigned.{Assigned};
ghost use Rattle.board.specs.Board.{Accepts, IsItems, IsOwn, IsTheirs, Seen};
ghost use Rattle.board_history.specs.Fields.{Fields, Layout};
ghost use Rattle.board_history.specs.Stands.{Stands};
ghost use Rattle.task_code.specs.Code.{Code, Kind};
ghost use Rattle.board.specs.Queues.{SameNumbers, with_queue};

/// States that the order of the queue does not matter. Fields that have the same numbers in the queue, each once, stand
/// for the same state.
#[tactic(auto, using(crate::proofs::Queues::queue_kept))]
pub fn queues_by_members()
    ensures { (C : Code) (L : Layout) (events : List Event) (F : Fields) → Stands C L events F →
        (q : Kind → ℤ → List ℕ) → SameNumbers F.queue q → Stands C L events (with_queue q F) }
{}

/// States that work which is an item's own on a worker belongs to that item, and that this is stable. It remains so
/// after any accepted event, and the work is the item's own on any worker on which the item runs.
pub fn work_stays()
    ensures begun { (b : Seen) → IsCode b.code → Run b.code b.history b.state →
        (w : ℕ) (work : Assigned) → IsOwn b w work → IsItems b work }
    ensures stays { (old new : Seen) → IsCode old.code → Run old.code old.history old.state →
        (e : Event) → Accepts old e new → (work : Assigned) → IsItems old work → IsItems new work }
    ensures own { (b : Seen) (w : ℕ) (work : Assigned) → IsItems b work → IsTheirs b w work.item → IsOwn b w work }
{}
