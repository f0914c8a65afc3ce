//! The machine as a function of its history: deterministic replay of events, counts of held rights, and the invariant
//! of a board's fields.
//!
//! There is no code to run. Each public function has an empty body, and its contract is a theorem that the proofs of
//! the board use.
#![tactic(auto)]

ghost use Rattle.std.specs.Prelude.{List, [], ◌∷◌, ◌++◌, ◌≡◌, ℕ, ◌*◌, ◌-◌, suc, length, ℤ, Option, Some, None};
ghost use Rattle.dataflow.specs.System.{Answer, In, System, tasks_of};
ghost use Rattle.dataflow.specs.Events.{NewlyAt};
ghost use Rattle.dataflow.specs.Laws.{Laws};
ghost use Rattle.dataflow.specs.Machine.{Fault, Item, State, Event, Begin, End, Back, ClosedByRights, Free, SeesAll, Step, Run};
ghost use Rattle.dataflow.specs.History.{log_of};
ghost use Rattle.dataflow.specs.Data.{IsTidy, DataAreExact, SameButFree};
ghost use Rattle.board_history.specs.Replay.{Tests, AreTests, next_state, replayed, and_then};
ghost use Rattle.board_history.specs.Counts.{readers, writers, SameCounts, Exchanges, StartsWith};
ghost use Rattle.board_history.specs.Tidy.{FaultOnly, IsBare, MarksOnly, OnlyItsOwn};
ghost use Rattle.board_history.specs.Worked.{AssignedStands, HelloReplayed, LeavesReplayed, OpenedStands, WaitsReplayed};
ghost use Rattle.board_history.specs.Static.{AddsHolds, EndCounts, OpensHolds, TurnsHold, computed_by, names_in, outer_holds};
ghost use Rattle.board_history.specs.Fields.{Counted, Does, Fields, Frame, Job, Layout, Over, Row, Slot, Waiter, row_of, slot_at, slot_for, task_of};
ghost use Rattle.board_history.specs.Ending.{EndsTo, FramesOpen, Instance, NamesLead, OpensItems, QueueAfter, TasksStay, added_times, ended_rows, held_times};
ghost use Rattle.board_history.specs.Layouts.{IsLayout, Passes};
ghost use Rattle.board_history.specs.Marking.{begun_fields, faulted_fields, returned_fields};
ghost use Rattle.board_history.specs.Stands.{ItemsStand, QueueStands, Stands, first_fields};
ghost use Rattle.board_history.specs.Elements.{code_tests};
ghost use Rattle.task_code.specs.Places.{Place, Step as PathStep};
ghost use Rattle.task_code.specs.System.{code_system, task_inputs, task_kind, task_priority};
ghost use Rattle.board_history.specs.CodeReplay.{next_state as next_of_code, replayed as replayed_code, and_then as then_of_code};
ghost use Rattle.task_code.specs.Code.{Calling, Code, Entry, Kind, Loop, Name, Variable, entry, ways};
ghost use Rattle.task_code.specs.Compute.{Computed, Elements, EntryFault};
ghost use Rattle.task_code.specs.Effects.{Item as ItemOf, left_at, step_at, turns_of};
ghost use Rattle.values.specs.declared.key.Key.{Key};
ghost use Rattle.values.specs.declared.value.Scalar.{Scalar};
ghost use Rattle.task_code.specs.Whole.{Declared, IsCode};
ghost use Rattle.task_code.specs.Machine.{ClosedByRights as ClosedInCode, CodeItem, CodeState, CodeStep, Enabled, Run as RunOfCode, run_log, IsTidy as IsTidyCode, DataAreExact as DataAreExactCode, SameButFree as SameButFreeCode};

/// States that replay agrees with the machine of a lawful system whose places and keys can be compared by tests.
///
/// In each state of a run, `next_state` is a state to which the machine steps, without free data. Where it is `None`,
/// the machine has no step. So a replayed history is a run. Conversely each run can be replayed, to a state that is
/// equal apart from free data. The data are exactly those that were made and are not free.
pub fn every_replay<T, D, K, V, E>()
    ensures steps { (S : System T D K V E) (X : Tests D K V) → AreTests S X → Laws S →
        (events : List Event) (s : State T D K V E) → Run S events s →
        (e : Event) (t : State T D K V E) → next_state S X s e ≡ Some t → Step S s e t × IsTidy S t }
    ensures no_other { (S : System T D K V E) (X : Tests D K V) → AreTests S X → Laws S →
        (events : List Event) (s : State T D K V E) → Run S events s →
        (e : Event) → next_state S X s e ≡ None → (t : State T D K V E) → Step S s e t → ⊥ }
    ensures has_next { (S : System T D K V E) (X : Tests D K V) → AreTests S X → Laws S →
        (events : List Event) (s : State T D K V E) → Run S events s →
        (e : Event) (new : State T D K V E) → Step S s e new → (t : State T D K V E) × (next_state S X s e ≡ Some t) }
    ensures is_run { (S : System T D K V E) (X : Tests D K V) → AreTests S X → Laws S →
        (events : List Event) (s : State T D K V E) → replayed S X events ≡ Some s → Run S events s × IsTidy S s }
    ensures found { (S : System T D K V E) (X : Tests D K V) → AreTests S X → Laws S →
        (events : List Event) (t : State T D K V E) → Run S events t →
        (s : State T D K V E) × (replayed S X events ≡ Some s) × SameButFree S s t × SameButFree S t s }
    ensures exact { (S : System T D K V E) (X : Tests D K V) → AreTests S X → Laws S →
        (events : List Event) (s : State T D K V E) → replayed S X events ≡ Some s →
        (run : Run S events s) → DataAreExact S s (log_of S events s run) }
    ensures grows { (S : System T D K V E) (X : Tests D K V) → (events : List Event) (e : Event) →
        replayed S X (events ++ e ∷ []) ≡ and_then S X (replayed S X events) e }
{}

/// States that replay agrees with the machine of whole code: `every_replay` for the system of code.
pub fn every_replay_of_code()
    ensures steps { (C : Code) → IsCode C →
        (events : List Event) (s : CodeState) → RunOfCode C events s →
        (e : Event) (t : CodeState) → next_of_code C s e ≡ Some t → CodeStep C s e t × IsTidyCode C t }
    ensures no_other { (C : Code) → IsCode C →
        (events : List Event) (s : CodeState) → RunOfCode C events s →
        (e : Event) → next_of_code C s e ≡ None → (t : CodeState) → CodeStep C s e t → ⊥ }
    ensures has_next { (C : Code) → IsCode C →
        (events : List Event) (s : CodeState) → RunOfCode C events s →
        (e : Event) (new : CodeState) → CodeStep C s e new → (t : CodeState) × (next_of_code C s e ≡ Some t) }
    ensures is_run { (C : Code) → IsCode C →
        (events : List Event) (s : CodeState) → replayed_code C events ≡ Some s → RunOfCode C events s × IsTidyCode C s }
    ensures found { (C : Code) → IsCode C →
        (events : List Event) (t : CodeState) → RunOfCode C events t →
        (s : CodeState) × (replayed_code C events ≡ Some s) × SameButFreeCode C s t × SameButFreeCode C t s }
    ensures exact { (C : Code) → IsCode C →
        (events : List Event) (s : CodeState) → replayed_code C events ≡ Some s →
        (run : RunOfCode C events s) → DataAreExactCode C s (run_log C events s run) }
    ensures grows { (C : Code) → (events : List Event) (e : Event) →
        replayed_code C (events ++ e ∷ []) ≡ then_of_code C (replayed_code C events) e }
{}

/// States how rights to data are counted.
///
/// A datum is free exactly if no right to it is held. An existing array is closed exactly if no right to write it is
/// held. Begin, Back and a fault change no count. An End without fault removes the rights of its item and adds those of
/// the tasks that it opens. A datum that it creates starts with the rights of its own block.
pub fn counted_rights<T, D, K, V, E>()
    ensures free { (S : System T D K V E) (X : Tests D K V) → AreTests S X → (s : State T D K V E) (a : D) →
        (Free S s a → (readers S X s a ≡ 0) × (writers S X s a ≡ 0)) × (readers S X s a ≡ 0 → writers S X s a ≡ 0 → Free S s a) }
    ensures closed { (S : System T D K V E) (X : Tests D K V) → AreTests S X → (s : State T D K V E) (a : D) → In a s.places →
        (ClosedByRights S s a → writers S X s a ≡ 0) × (writers S X s a ≡ 0 → ClosedByRights S s a) }
    ensures begin { (S : System T D K V E) (X : Tests D K V) (s t : State T D K V E) (w n : ℕ) → Step S s (Begin w n) t → SameCounts S X s t }
    ensures back { (S : System T D K V E) (X : Tests D K V) (s t : State T D K V E) (w n : ℕ) → Step S s (Back w n) t → SameCounts S X s t }
    ensures fault { (S : System T D K V E) (X : Tests D K V) (s t : State T D K V E) (w n : ℕ) → Step S s (End w n) t →
        (t.fault ≡ None → ⊥) → SameCounts S X s t }
    ensures end { (S : System T D K V E) (X : Tests D K V) (s t : State T D K V E) (w n : ℕ) → Step S s (End w n) t →
        t.fault ≡ None → Exchanges S X s n t }
    ensures starts { (S : System T D K V E) (X : Tests D K V) → AreTests S X → Laws S → ((a : D) → In a (S.may_read S.main) → ⊥) →
        (events : List Event) (s : State T D K V E) → Run S events s →
        (t : State T D K V E) (w n : ℕ) → Step S s (End w n) t → t.fault ≡ None →
        (x : Exchanges S X s n t) × StartsWith S X t x.effect }
{}

/// States how rights are counted for code. The holds that one instance of a body adds, on its own data and on others,
/// are computed from the code alone.
pub fn counted_rights_of_code()
    ensures adds { (C : Code) (b : ℕ) (p : List PathStep) → AddsHolds C b p }
    ensures opens { (C : Code) (i c : ℕ) (p : List PathStep) (x : Computed) → OpensHolds C i c p x }
    ensures turns { (C : Code) (w : Loop) (offset : ℕ) (p q : List PathStep) (v : Variable) (k : Key) → (q ≡ step_at offset k p → ⊥) →
        (ts : Elements) → ((t : Key × Scalar) → In t ts → q ≡ step_at offset t.0 p → ⊥) → TurnsHold C w offset p ts q v k }
    ensures starts { (C : Code) → IsCode C →
        (events : List Event) (s : CodeState) → RunOfCode C events s →
        (t : CodeState) (w n : ℕ) → CodeStep C s (End w n) t → t.fault ≡ None →
        (x : Exchanges (code_system C) code_tests s n t) × StartsWith (code_system C) code_tests t x.effect }
    ensures end { (C : Code) → IsCode C →
        (events : List Event) (s : CodeState) → RunOfCode C events s →
        (t : CodeState) (w n : ℕ) → CodeStep C s (End w n) t → t.fault ≡ None → EndCounts C s n t }
{}

/// States that a replayed state has no free data, and that a step from such a state changes little.
///
/// Begin and Back change the status of one item. An End with a fault records the fault and changes nothing else. An End
/// without fault removes only data to which the item has a right, and closes only arrays that it may write.
pub fn small_steps<T, D, K, V, E>()
    ensures replayed_bare { (S : System T D K V E) (X : Tests D K V) → AreTests S X →
        (events : List Event) (s : State T D K V E) → replayed S X events ≡ Some s → IsBare S s }
    ensures begin { (S : System T D K V E) (X : Tests D K V) → AreTests S X → (s t : State T D K V E) (w n : ℕ) → IsBare S s →
        next_state S X s (Begin w n) ≡ Some t → MarksOnly S s n (Some w) t }
    ensures back { (S : System T D K V E) (X : Tests D K V) → AreTests S X → (s t : State T D K V E) (w n : ℕ) → IsBare S s →
        next_state S X s (Back w n) ≡ Some t → MarksOnly S s n None t }
    ensures fault { (S : System T D K V E) (X : Tests D K V) → AreTests S X → (s t : State T D K V E) (w n : ℕ) → IsBare S s →
        next_state S X s (End w n) ≡ Some t → (t.fault ≡ None → ⊥) → FaultOnly S s w n t }
    ensures end { (S : System T D K V E) (X : Tests D K V) → AreTests S X → (s t : State T D K V E) (w n : ℕ) → IsBare S s →
        Step S s (End w n) t → t.fault ≡ None →
        (item : Item T) × In item s.items × (item.number ≡ n) × OnlyItsOwn S s item.task t }
{}

/// States the replays of worked scripts, which are computed by reflexivity. Fields with an instance, data, waiting
/// items and a queue stand for two of the states.
pub fn worked_replays()
    ensures hello { HelloReplayed }
    ensures waits { WaitsReplayed }
    ensures leaves { LeavesReplayed }
    ensures opened { OpenedStands }
    ensures assigned { AssignedStands }
{}

/// States that the fields of a board stand for the state of its history, event by event.
///
/// The fields of a new board stand for the empty history. After a Begin, the row of the item runs and its number has
/// left the queue. After a Back, the row is ready and the number is in the queue again. After an End with a fault, the
/// fault is recorded. Nothing else has changed.
///
/// After an End without fault, fields that satisfy `EndsTo` stand for the new state:
///
/// - The instances of the opened blocks exist.
/// - New data have their first counts, and the counts of older data have changed by the holds added and removed.
/// - Unused data and instances are gone.
/// - Each item that misses an input waits for exactly that input.
/// - Newly enabled items are ready and in the queue.
///
/// Two parts of this are also stated alone: the rows, if the instances keep the tasks, and the queue.
///
/// An item is enabled exactly if it does not wait. A datum is closed exactly if its count of writes is 0, and no datum
/// has both counts 0.
///
/// An item that continues a loop keeps the remaining turns that its answers determine. The names of a new instance
/// resolve correctly, if its compiler has laid them so and a call has filled the slots of its parameters. Several
/// instances of one body add to the counts what one adds, times their number.
pub fn standing_fields()
    ensures first { (C : Code) (L : Layout) → Stands C L [] first_fields }
    ensures missing { (C : Code) → IsCode C → (L : Layout) (events : List Event) (F : Fields) (x : Stands C L events F) →
        (i : CodeItem) → In i x.state.items → (((w : Waiter) → In w F.waiting → w.item ≡ i.number → ⊥) → Enabled C x.state i.task)
        × (Enabled C x.state i.task → (w : Waiter) → In w F.waiting → w.item ≡ i.number → ⊥) }
    ensures writes { (C : Code) → IsCode C → (L : Layout) (events : List Event) (F : Fields) (x : Stands C L events F) →
        (d : ℕ) (a : Place) (c : Counted) → In (d, a) x.names → slot_at F.cells d ≡ Some c →
        (c.writes ≡ 0 → ClosedInCode C x.state a) × (ClosedInCode C x.state a → c.writes ≡ 0) }
    ensures begin { (C : Code) → IsCode C → (L : Layout) (events : List Event) (F : Fields) → Stands C L events F →
        (w n : ℕ) (t : CodeState) → replayed_code C (events ++ Begin w n ∷ []) ≡ Some t →
        Stands C L (events ++ Begin w n ∷ []) (begun_fields F w n) }
    ensures back { (C : Code) → IsCode C → (L : Layout) (events : List Event) (F : Fields) (x : Stands C L events F) →
        (w n : ℕ) (t : CodeState) → replayed_code C (events ++ Back w n ∷ []) ≡ Some t →
        (item : CodeItem) × In item x.state.items × (item.number ≡ n) ×
        Stands C L (events ++ Back w n ∷ []) (returned_fields F n (task_kind C item.task) (task_priority C item.task)) }
    ensures fault { (C : Code) → IsCode C → (L : Layout) (events : List Event) (F : Fields) (x : Stands C L events F) →
        (w n : ℕ) (t : CodeState) → replayed_code C (events ++ End w n ∷ []) ≡ Some t → (t.fault ≡ None → ⊥) →
        (item : CodeItem) × (f : Fault EntryFault) × In item x.state.items × (item.number ≡ n) × (t.fault ≡ Some (item.task, f)) ×
        Stands C L (events ++ End w n ∷ []) (faulted_fields F item.task f) }
    ensures end_items { (C : Code) → IsCode C → (L : Layout) (events : List Event) (F : Fields) (x : Stands C L events F) →
        (w n : ℕ) (t : CodeState) → replayed_code C (events ++ End w n ∷ []) ≡ Some t → t.fault ≡ None →
        (o : OpensItems (code_system C) x.state w n t) ×
        ((gs : List (Option Frame)) (jobs : List Job) (newly : List ℕ) → NewlyAt (code_system C) x.state t newly →
        TasksStay F.frames gs F.rows n jobs (tasks_of o.effect.opens) →
        ItemsStand C (record F { frames = gs; rows = ended_rows F.rows n newly jobs; running = F.running - 1 }) t) }
    ensures end_queue { (C : Code) → IsCode C → (L : Layout) (events : List Event) (F : Fields) (x : Stands C L events F) →
        (w n : ℕ) (t : CodeState) → replayed_code C (events ++ End w n ∷ []) ≡ Some t → t.fault ≡ None →
        (G : Fields) → ItemsStand C G t → NewlyAt (code_system C) x.state t G.newly → QueueAfter C F G → QueueStands C G t }
    ensures end { (C : Code) → IsCode C → (L : Layout) (events : List Event) (F : Fields) (x : Stands C L events F) →
        (w n : ℕ) (t : CodeState) → replayed_code C (events ++ End w n ∷ []) ≡ Some t → t.fault ≡ None →
        (row : Row) → row_of F.rows n ≡ Some row →
        (answers : List (Answer Key Scalar)) → SeesAll (code_system C) x.state (task_inputs C (task_of F.frames row.job)) answers →
        (G : Fields) → EndsTo C L F n row.job (computed_by C (task_of F.frames row.job) answers) G →
        Stands C L (events ++ End w n ∷ []) G }
    ensures turns { (C : Code) → IsCode C → (L : Layout) (events : List Event) (F : Fields) (x : Stands C L events F) →
        (i : CodeItem) → In i x.state.items → (e c : ℕ) (p : List PathStep) → i.task ≡ ItemOf e p (suc c) →
        (answers : List (Answer Key Scalar)) → SeesAll (code_system C) x.state (task_inputs C i.task) answers →
        F.turns i.number ≡ Some (left_at (suc c) (turns_of (computed_by C i.task answers))) }
    ensures leads { (C : Code) → IsCode C → (L : Layout) → IsLayout C L → (events : List Event) (F : Fields) → Stands C L events F →
        (n k e c : ℕ) (row : Row) → row_of F.rows n ≡ Some row → row.job ≡ Does k e c → (row.status ≡ Over → ⊥) →
        (made : List Instance) (middle : List (Option Frame)) → FramesOpen C F.frames (Some k) made middle → (m : Instance) → In m made →
        ((f : Frame) → slot_at middle m.key ≡ Some f → In (Calling, m.body) (ways (entry C e).act) → Passes C L F.frames k e c m f) →
        NamesLead C L F.frames middle k e c m }
    ensures once { (C : Code) (L : Layout) (rights : Entry → List Name) (middle : List (Option Frame)) (d body : ℕ) (leads : Name → Slot)
        (made : List Instance) →
        ((m : Instance) → In m made → m.body ≡ body) →
        ((m : Instance) (r : Name) → In m made → In r (names_in C rights body) → (Declared C body r → ⊥) → slot_for L middle m.key body r ≡ leads r) →
        added_times C L rights middle d made ≡ length made * held_times leads d (outer_holds C rights body) }
    ensures never_free { (C : Code) → IsCode C → (L : Layout) (events : List Event) (F : Fields) → Stands C L events F →
        (d : ℕ) (c : Counted) → slot_at F.cells d ≡ Some c → c.reads ≡ 0 → c.writes ≡ 0 → ⊥ }
{}
