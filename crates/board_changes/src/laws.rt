//! Theorems about the steps of an End: instances, data and known inputs afterwards.
ghost use Rattle.std.specs.Prelude.{◌≡◌, ◌++◌, ◌<◌, ◌^◌, ℕ, Bool, List, [], Option, Some, None, length, map, if◌then◌else◌};
ghost use Rattle.dataflow.specs.Machine.{Event};
ghost use Rattle.dataflow.specs.System.{In, Opening};
ghost use Rattle.data_store.specs.Stores.{Store, at};
ghost use Rattle.board_history.specs.Ending.{AreMade, BecomesKnown, CellsAfter, FramesOpen, Instance, NamesLead, TakenOff, added_times, given_times, home, job_stores, leaving, made_jobs, new_row};
ghost use Rattle.board_history.specs.Fields.{Does, Fields, Frame, Job, Layout, Over, Row, Script, Whole, path_of, row_of, slot_at, task_of};
ghost use Rattle.board_history.specs.Stands.{Stands};
ghost use Rattle.board_history.specs.Static.{rests};
ghost use Rattle.task_code.specs.Code.{Code};
ghost use Rattle.task_code.specs.Compute.{Computed, Elements};
ghost use Rattle.task_code.specs.Effects.{Task, is_some_list};
ghost use Rattle.task_code.specs.Places.{Place};
ghost use Rattle.task_code.specs.Whole.{IsCode};
ghost use Rattle.board_program.specs.Spots.{layout_of};
ghost use Rattle.board_program.specs.Tables.{is_place};
ghost use Rattle.board_data.specs.Openings.{AreOpenings};
ghost use Rattle.board_instances.specs.Made.{FitsAround, made_as};
ghost use Rattle.board_data.specs.Ended.{Covers};
ghost use Rattle.board_data.specs.Holds.{Fit};
ghost use Rattle.board_data.specs.Stored.{StoresIn};
ghost use Rattle.board_data.specs.View.{cells_view};
ghost use Rattle.board_instances.specs.Openings.{Put};
ghost use Rattle.board_changes.specs.World.{CanStore, Goes, LetsGo, target_of, told_of, values_of};
ghost use Rattle.board_changes.specs.declared.data_state.Change.{Change as TheChange};
ghost use Rattle.board_instances.specs.Nested.{IsNested};
ghost use Rattle.board_instances.specs.declared.pending.PendingInstances.{PendingInstances as TheOpenings};
ghost use Rattle.board_changes.specs.Blocks.{AreBlocks};
ghost use Rattle.board_changes.specs.Data.{MakesData};
ghost use Rattle.board_changes.specs.Opened.{AreOpened};

/// States that instances opened for the blocks of an End are the instances that the End creates. They have the rows of
/// their items and their data: a new datum for each variable that some entry names.
pub fn opened_blocks()
    ensures made { (C : Code) (j : Job) (x : Computed) (o : TheOpenings) (fs gs : List (Option Frame)) (old new : List Row) (s t : Store) → AreBlocks C fs j x o
        → (w : AreOpened C j o fs gs old new s t) →
        AreMade C (map (made_as fs (home j)) w.placed.puts) (task_of fs j) x }
    ensures rows { (C : Code) (j : Job) (x : Computed) (o : TheOpenings) (fs gs : List (Option Frame)) (old new : List Row) (s t : Store) → AreBlocks C fs j x o
        → (w : AreOpened C j o fs gs old new s t) →
        new ≡ old ++ map new_row (made_jobs C (map (made_as fs (home j)) w.placed.puts)) }
    ensures opens { (C : Code) (j : Job) (x : Computed) (o : TheOpenings) (fs gs : List (Option Frame)) (old new : List Row) (s t : Store)
        → AreBlocks C fs j x o → (w : AreOpened C j o fs gs old new s t) →
        FitsAround fs (home j) (length o.list.items) → FramesOpen C fs (home j) (map (made_as fs (home j)) w.placed.puts) gs }
    ensures nested { (C : Code) (j : Job) (x : Computed) (o : TheOpenings) (fs gs : List (Option Frame)) (old new : List Row) (s t : Store)
        → AreBlocks C fs j x o → AreOpened C j o fs gs old new s t →
        FitsAround fs (home j) (length o.list.items) → IsNested fs → IsNested gs }
    ensures makes { (C : Code) → IsCode C → (j : Job) (x : Computed) (o : TheOpenings) (fs gs : List (Option Frame)) (old new : List Row) (s t : Store)
        → AreBlocks C fs j x o → (w : AreOpened C j o fs gs old new s t) →
        MakesData C (layout_of C) fs gs j x (map (made_as fs (home j)) w.placed.puts) s w.made }
{}

/// States the fields after the end of an entry's item that opens instances. The fields stand for the state of a history
/// before, and all counts fit in 64 bits.
///
/// The names of the new instances resolve correctly. Each old datum has gained the holds of the new instances and lost
/// those that the item gives up. Each new datum is as it was created, and there are no others. The item has left its
/// instance, unless another item continues its loop.
pub fn entry_opens()
    ensures leads { (C : Code) → IsCode C → (es : List Event) (F : Fields) → Stands C (layout_of C) es F →
        (n k e c : ℕ) (row : Row) → row_of F.rows n ≡ Some row → row.job ≡ Does k e c → (row.status ≡ Over → ⊥) →
        (x : Computed) (o : TheOpenings) (hs : List (Option Frame)) (rows : List Row) (stored more : Store) → AreBlocks C F.frames (Does k e c) x o →
        (w : AreOpened C (Does k e c) o F.frames hs F.rows rows stored more) → FitsAround F.frames (Some k) (length o.list.items)
        → ((q : Put) → In q w.placed.puts → length q.frame.slots < 2 ^ 64) →
        (m : Instance) → In m (map (made_as F.frames (Some k)) w.placed.puts) → NamesLead C (layout_of C) F.frames hs k e c m }
    ensures cells { (C : Code) → IsCode C → (es : List Event) (F : Fields) → Stands C (layout_of C) es F →
        (n k e c : ℕ) (row : Row) → row_of F.rows n ≡ Some row → row.job ≡ Does k e c → (row.status ≡ Over → ⊥) →
        (x : Computed) (o : TheOpenings) (hs : List (Option Frame)) (rows : List Row) (s stored more : Store) → AreBlocks C F.frames (Does k e c) x o →
        (w : AreOpened C (Does k e c) o F.frames hs F.rows rows stored more) → FitsAround F.frames (Some k) (length o.list.items)
        → ((q : Put) → In q w.placed.puts → length q.frame.slots < 2 ^ 64) →
        ((d : ℕ) → Fit (added_times C (layout_of C) (λ y. y.reads) hs d (map (made_as F.frames (Some k)) w.placed.puts))
        (added_times C (layout_of C) (λ y. y.writes) hs d (map (made_as F.frames (Some k)) w.placed.puts)) (at w.made d)) →
        (gs : List (Option Frame)) (t : Store) (closed : List ℕ) (goes_on : Bool) → Goes C goes_on (Does k e c) hs gs more t closed
        → goes_on ≡ is_some_list (rests C (task_of F.frames (Does k e c)) x) →
        F.cells ≡ cells_view s.cells → StoresIn None [] s stored → ((d : ℕ) → [] ≡ job_stores C (layout_of C) F.frames (Does k e c) x d) →
        CellsAfter C (layout_of C) F.frames hs (Does k e c) x (map (made_as F.frames (Some k)) w.placed.puts) (rests C (task_of F.frames (Does k e c)) x)
        F.cells (cells_view t.cells)
        × TakenOff gs hs (leaving (Does k e c) (rests C (task_of F.frames (Does k e c)) x)) }
{}

/// States that an item that is not over gives up no more holds than there are. The fields stand for the state of a
/// history.
pub fn given_up()
    ensures { (C : Code) → IsCode C → (L : Layout) (es : List Event) (F : Fields) → Stands C L es F → (n : ℕ) (row : Row) → row_of F.rows n ≡ Some row
        → (row.status ≡ Over → ⊥) →
        (os : List (Opening Task Place)) (s : Store) → F.cells ≡ cells_view s.cells
        → Covers (λ d. given_times C L (λ e. e.reads) F.frames d row.job os) (λ d. given_times C L (λ e. e.writes) F.frames d row.job os) s }
{}

/// States the fields after the end of an entry's item that opens nothing: the instances, and the data with what it may
/// have stored.
pub fn entry_stores()
    ensures opens { (C : Code) (fs : List (Option Frame)) (around : Option ℕ) → FramesOpen C fs around [] fs }
    ensures cells { (C : Code) → IsCode C → (es : List Event) (F : Fields) → Stands C (layout_of C) es F →
        (n k e c : ℕ) (row : Row) → row_of F.rows n ≡ Some row → row.job ≡ Does k e c → (row.status ≡ Over → ⊥) →
        (x : Computed) (os : List (Opening Task Place)) (target : Option ℕ) (values : Elements) (gs : List (Option Frame)) (s stored t : Store)
        (closed : List ℕ) → os ≡ [] → F.cells ≡ cells_view s.cells →
        StoresIn target values s stored → LetsGo C (Does k e c) F.frames gs stored t closed
        → ((d : ℕ) → (if is_place d target then values else []) ≡ job_stores C (layout_of C) F.frames (Does k e c) x d) →
        CellsAfter C (layout_of C) F.frames F.frames (Does k e c) x [] os F.cells (cells_view t.cells) × TakenOff gs F.frames (leaving (Does k e c) os) }
{}

/// States that the openings of an item are of its blocks, if each instance records the number of steps of its path.
pub fn openings_of_item()
    ensures { (C : Code) (fs : List (Option Frame)) → ((k : ℕ) (g : Frame) → slot_at fs k ≡ Some g → g.depth ≡ length (path_of fs k))
        → (x : Computed) (o : TheOpenings) (j : Job) → AreOpenings C fs j x o → AreBlocks C fs j x o }
{}

/// States that the list of inputs reported at the End of an entry's item is exactly what becomes known.
///
/// If nothing is opened, these are the stored values and the closed arrays. If instances are opened, these are the
/// closed arrays.
pub fn becomes_known()
    ensures stores { (C : Code) → IsCode C → (es : List Event) (F : Fields) → Stands C (layout_of C) es F →
        (n k e c : ℕ) (row : Row) → row_of F.rows n ≡ Some row → row.job ≡ Does k e c → (row.status ≡ Over → ⊥) →
        (x : Computed) (os : List (Opening Task Place)) (change : TheChange) (gs : List (Option Frame)) (s stored t : Store) (closed : List ℕ) → os ≡ []
        → F.cells ≡ cells_view s.cells → CanStore change s →
        StoresIn (target_of change) (values_of change) s stored → LetsGo C (Does k e c) F.frames gs stored t closed
        → ((d : ℕ) → (if is_place d (target_of change) then values_of change else []) ≡ job_stores C (layout_of C) F.frames (Does k e c) x d) →
        BecomesKnown C (layout_of C) (job_stores C (layout_of C) F.frames (Does k e c) x) F.cells (cells_view t.cells) (told_of change ++ map Whole closed) }
    ensures opens { (C : Code) → IsCode C → (es : List Event) (F : Fields) → Stands C (layout_of C) es F →
        (n k e c : ℕ) (row : Row) → row_of F.rows n ≡ Some row → row.job ≡ Does k e c → (row.status ≡ Over → ⊥) →
        (x : Computed) (o : TheOpenings) (hs : List (Option Frame)) (rows : List Row) (s stored more : Store) → AreBlocks C F.frames (Does k e c) x o →
        (w : AreOpened C (Does k e c) o F.frames hs F.rows rows stored more) → FitsAround F.frames (Some k) (length o.list.items)
        → ((q : Put) → In q w.placed.puts → length q.frame.slots < 2 ^ 64) →
        ((d : ℕ) → Fit (added_times C (layout_of C) (λ y. y.reads) hs d (map (made_as F.frames (Some k)) w.placed.puts))
        (added_times C (layout_of C) (λ y. y.writes) hs d (map (made_as F.frames (Some k)) w.placed.puts)) (at w.made d)) →
        (gs : List (Option Frame)) (t : Store) (closed : List ℕ) (goes_on : Bool) → Goes C goes_on (Does k e c) hs gs more t closed
        → goes_on ≡ is_some_list (rests C (task_of F.frames (Does k e c)) x) →
        F.cells ≡ cells_view s.cells → StoresIn None [] s stored → ((d : ℕ) → [] ≡ job_stores C (layout_of C) F.frames (Does k e c) x d) →
        BecomesKnown C (layout_of C) (job_stores C (layout_of C) F.frames (Does k e c) x) F.cells (cells_view t.cells) (map Whole closed) }
{}

/// States the data, the instances and the known inputs after the opening of the script has ended. Its item is in no
/// instance.
pub fn script_opens()
    ensures { (C : Code) → IsCode C → (es : List Event) (F : Fields) → Stands C (layout_of C) es F →
        (n : ℕ) (row : Row) → row_of F.rows n ≡ Some row → row.job ≡ Script → (row.status ≡ Over → ⊥) →
        (x : Computed) (o : TheOpenings) (hs : List (Option Frame)) (rows : List Row) (s stored more : Store) → AreBlocks C F.frames Script x o
        → (w : AreOpened C Script o F.frames hs F.rows rows stored more) →
        ((d : ℕ) → Fit (added_times C (layout_of C) (λ y. y.reads) hs d (map (made_as F.frames None) w.placed.puts))
        (added_times C (layout_of C) (λ y. y.writes) hs d (map (made_as F.frames None) w.placed.puts)) (at w.made d)) →
        (gs : List (Option Frame)) (t : Store) (closed : List ℕ) → LetsGo C Script hs gs more t closed → F.cells ≡ cells_view s.cells
        → StoresIn None [] s stored →
        CellsAfter C (layout_of C) F.frames hs Script x (map (made_as F.frames None) w.placed.puts) [] F.cells (cells_view t.cells) × TakenOff gs hs None
        × BecomesKnown C (layout_of C) (job_stores C (layout_of C) F.frames Script x) F.cells (cells_view t.cells) (map Whole closed) }
{}
