//! Theorems about items where the fields of a board stand for the state of a history.
ghost use Rattle.std.specs.Prelude.{◌≡◌, ◌≤◌, ◌++◌, ℕ, List, [], Option, Some, length, map};
ghost use Rattle.dataflow.specs.Machine.{Event};
ghost use Rattle.std.specs.List.{AllZip, filter, flat_map};
ghost use Rattle.std.specs.Prelude.{nat_lt};
ghost use Rattle.dataflow.specs.System.{In, Opening};
ghost use Rattle.rules.specs.declared.input.Input.{Input};
ghost use Rattle.smallvec.specs.SmallVec.{SmallVec};
ghost use Rattle.task_code.specs.Effects.{Task};
ghost use Rattle.task_code.specs.Places.{Place};
ghost use Rattle.board_history.specs.Ending.{Instance, NewlyAfter, jobs_after, QueueAfter, WaitsAfter, ended_rows, new_row};
ghost use Rattle.board_history.specs.Fields.{Counted, Does, Fields, Frame, Job, Layout, Row, Waiting as waiting_status, Want, row_of, slot_at};
ghost use Rattle.board_history.specs.Stands.{Stands};
ghost use Rattle.rules.specs.Waiting.{Waiting};
ghost use Rattle.task_code.specs.Code.{Code, Control, Leaf, body, entry};
ghost use Rattle.task_code.specs.Whole.{IsCode};
ghost use Rattle.board_program.specs.Spots.{layout_of};
ghost use Rattle.board_items.specs.Ended.{AreSettled, AreToSettle, IsSeen, ItemsFit, numbers_behind};
ghost use Rattle.board_items.specs.Learnt.{HaveLearnt};
ghost use Rattle.board_instances.specs.View.{rows_view};
ghost use Rattle.board_items.specs.Progress.{AreOld, jobs_behind};
ghost use Rattle.board_items.specs.Room.{AreSpare, IsRoomy, IsRoomyFor, apart_in};
ghost use Rattle.board_items.specs.declared.items.Items.{Items as AllItems};
ghost use Rattle.board_items.specs.View.{waiters_view};

/// States the premises of the calls on items, for fields that stand for the state of a history.
///
/// The waiting items are those marked as waiting, each once and for at least one input. The queue holds the items
/// marked as ready, each once. No waiting item has yet been notified of an input. In an instance of a body that has an
/// entry, the item of that entry can be inspected.
pub fn fitting_items()
    ensures stands { (C : Code) → IsCode C → (L : Layout) (events : List Event) (F : Fields) → Stands C L events F → ItemsFit F }
    ensures nothing { (F : Fields) (start : List Waiting) → ItemsFit F → F.waiting ≡ waiters_view start → HaveLearnt [] F.waiting start [] }
    ensures seen { (C : Code) → IsCode C → (fs : List (Option Frame)) (k e c : ℕ) (f : Frame) → slot_at fs k ≡ Some f → In e (body C f.body).entries
        → IsSeen C fs (Does k e c) }
{}

/// States that new rows leave room for all items that wait or run, if memory was reserved for them and they were
/// counted.
pub fn roomy_items()
    ensures placed { (C : Code) (controls leaves : ℕ) (old new : AllItems) (more : List Row) → IsRoomyFor C controls leaves old
        → rows_view new.rows.items ≡ rows_view old.rows.items ++ more → apart_in C Control more ≤ controls → apart_in C Leaf more ≤ leaves →
        new.queue ≡ old.queue → new.apart ≡ old.apart → new.newly ≡ old.newly → IsRoomy C new }
{}

/// States that preallocated lists for the items of new instances, in order, serve all new items.
pub fn spare_lists()
    ensures made { (C : Code) (made : List Instance) (j : Job) (os : List (Opening Task Place)) (rows : List Row) (lists : List (SmallVec Input)) →
        AllZip (λ n (l : SmallVec Input). n ≤ l.capacity)
        (flat_map (λ (m : Instance). filter (nat_lt 2) (map (λ e. length (entry C e).needs) (body C m.body).entries)) made) lists →
        AreSpare C (jobs_behind (length rows) (rows ++ map new_row (jobs_after C made j os))) lists }
{}

/// States that the woken items and the new items, which follow the old rows, are waiting, each once. The item that
/// ended is not among them.
pub fn items_to_settle()
    ensures old { (F : Fields) (jobs : List Job) (known : List (Want ℕ)) (left : List Waiting) (woken : List ℕ) → ItemsFit F
        → HaveLearnt known F.waiting left woken → AreOld (length F.rows) woken }
    ensures all { (F : Fields) (jobs : List Job) (known : List (Want ℕ)) (left : List Waiting) (woken : List ℕ) → ItemsFit F
        → HaveLearnt known F.waiting left woken →
        (C : Code) (fs : List (Option Frame)) (cs : List (Option Counted)) (n : ℕ) (own : Row) → row_of F.rows n ≡ Some own → (own.status ≡ waiting_status → ⊥) →
        ((m : ℕ) (r : Row) → row_of (F.rows ++ map new_row jobs) m ≡ Some r → r.status ≡ waiting_status → IsSeen C fs r.job) →
        AreToSettle C fs cs (F.rows ++ map new_row jobs) (length F.rows) n (woken ++ numbers_behind (length F.rows) (length jobs)) }
{}

/// States the rows, waiting items, queue and newly enabled items after the end of an item. The premise is that the
/// woken items and the new items were settled.
pub fn ended_items()
    ensures waits { (C : Code) (F G : Fields) (n : ℕ) (jobs : List Job) (known : List (Want ℕ)) (left : List Waiting) (woken : List ℕ) → ItemsFit F
        → HaveLearnt known F.waiting left woken →
        AreSettled C G.frames G.cells (F.rows ++ map new_row jobs) (length F.rows) n (waiters_view left) F.queue
        (woken ++ numbers_behind (length F.rows) (length jobs)) G.rows G.waiting G.queue G.newly →
        WaitsAfter C (layout_of C) F G (F.rows ++ map new_row jobs) known }
    ensures newly { (C : Code) (F G : Fields) (n : ℕ) (jobs : List Job) (known : List (Want ℕ)) (left : List Waiting) (woken : List ℕ) → ItemsFit F
        → HaveLearnt known F.waiting left woken →
        AreSettled C G.frames G.cells (F.rows ++ map new_row jobs) (length F.rows) n (waiters_view left) F.queue
        (woken ++ numbers_behind (length F.rows) (length jobs)) G.rows G.waiting G.queue G.newly →
        NewlyAfter G (F.rows ++ map new_row jobs) }
    ensures rows { (C : Code) (F G : Fields) (n : ℕ) (jobs : List Job) (known : List (Want ℕ)) (left : List Waiting) (woken : List ℕ) → ItemsFit F
        → HaveLearnt known F.waiting left woken →
        AreSettled C G.frames G.cells (F.rows ++ map new_row jobs) (length F.rows) n (waiters_view left) F.queue
        (woken ++ numbers_behind (length F.rows) (length jobs)) G.rows G.waiting G.queue G.newly →
        G.rows ≡ ended_rows F.rows n G.newly jobs }
    ensures queue { (C : Code) (F G : Fields) (n : ℕ) (jobs : List Job) (known : List (Want ℕ)) (left : List Waiting) (woken : List ℕ) → ItemsFit F
        → HaveLearnt known F.waiting left woken →
        AreSettled C G.frames G.cells (F.rows ++ map new_row jobs) (length F.rows) n (waiters_view left) F.queue
        (woken ++ numbers_behind (length F.rows) (length jobs)) G.rows G.waiting G.queue G.newly →
        QueueAfter C F G }
{}
