//! Theorems that relate the effect of an item to the state of a history.
ghost use Rattle.std.specs.Prelude.{◌≡◌, ◌++◌, ◌∷◌, [], ℕ, List, Some};
ghost use Rattle.dataflow.specs.Machine.{End, Event, SeesAll};
ghost use Rattle.dataflow.specs.System.{Answer};
ghost use Rattle.board_history.specs.CodeReplay.{replayed};
ghost use Rattle.board_history.specs.Fields.{Does, Fields, Over, Row, row_of, task_of};
ghost use Rattle.board_history.specs.Stands.{Stands};
ghost use Rattle.board_history.specs.Static.{computed_by};
ghost use Rattle.task_code.specs.Code.{Code, Entry as PureEntry, entry as entry_of};
ghost use Rattle.task_code.specs.Machine.{CodeState};
ghost use Rattle.task_code.specs.System.{code_system, task_inputs};
ghost use Rattle.task_code.specs.Whole.{IsCode};
ghost use Rattle.values.specs.declared.key.Key.{Key};
ghost use Rattle.values.specs.declared.value.Scalar.{Scalar};
ghost use Rattle.board_program.specs.Spots.{layout_of};
ghost use Rattle.board_data.specs.View.{cells_view};
ghost use Rattle.data_store.specs.Stores.{Store as AStore};
ghost use Rattle.board_effects.specs.Effects.{CanStore, IsAtWork, IsEffect, fault_of};
ghost use Rattle.board_program.specs.Tables.{IsEntryTable, body_of};
ghost use Rattle.board_program.specs.declared.program.EntryTable.{EntryTable as ATable};
ghost use Rattle.board_data.specs.Wanted.{FewSlots};
ghost use Rattle.board_effects.specs.declared.effect.Effect.{Effect as AnEffect};

/// States that the effect of an item that ends determines the fault of the next state.
///
/// The fields stand for the state of a history, and the item has seen these answers. The next state has the fault of
/// the effect, at the task of the item, and no fault if the effect is none.
pub fn effects_tell()
    ensures { (C : Code) → IsCode C → (events : List Event) (F : Fields) (x : Stands C (layout_of C) events F) →
        (w n : ℕ) (t : CodeState) → replayed C (events ++ End w n ∷ []) ≡ Some t → (row : Row) → row_of F.rows n ≡ Some row →
        (answers : List (Answer Key Scalar)) → SeesAll (code_system C) x.state (task_inputs C (task_of F.frames row.job)) answers →
        (e : AnEffect) → IsEffect C F.frames F.cells row.job (computed_by C (task_of F.frames row.job) answers) e →
        t.fault ≡ fault_of (task_of F.frames row.job) e }
{}

/// States that the instance of each item that has not ended exists. The table with the number of its entry is the table
/// of that entry. The fields stand for the state of a history.
pub fn items_at_work()
    ensures { (C : Code) → IsCode C → (events : List Event) (F : Fields) → Stands C (layout_of C) events F → FewSlots F.frames →
        (n k i c : ℕ) (row : Row) → row_of F.rows n ≡ Some row → row.job ≡ Does k i c → (row.status ≡ Over → ⊥) →
        (e : PureEntry) → e ≡ entry_of C i → (table : ATable) → IsEntryTable C (body_of C i) i table → IsAtWork C F.frames k i e table }
{}

/// States that the target datum of an effect takes the values to be stored, if there is room. The item ends under the
/// premises of `effects_tell`.
pub fn effects_fit()
    ensures { (C : Code) → IsCode C → (events : List Event) (F : Fields) (x : Stands C (layout_of C) events F) →
        (w n : ℕ) (t : CodeState) → replayed C (events ++ End w n ∷ []) ≡ Some t → (row : Row) → row_of F.rows n ≡ Some row →
        (answers : List (Answer Key Scalar)) → SeesAll (code_system C) x.state (task_inputs C (task_of F.frames row.job)) answers →
        (store : AStore) → F.cells ≡ cells_view store.cells →
        (e : AnEffect) → IsEffect C F.frames F.cells row.job (computed_by C (task_of F.frames row.job) answers) e → CanStore e store }
{}
