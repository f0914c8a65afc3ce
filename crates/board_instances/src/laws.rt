//! Theorems about the fields of a board after instances have been placed.
ghost use Rattle.std.specs.Prelude.{◌≡◌, ◌<◌, ◌++◌, ℕ, List, [], Option, None, Some, IsSome, length, map};
ghost use Rattle.std.specs.List.{AllZip, filter};
ghost use Rattle.dataflow.specs.Machine.{Event};
ghost use Rattle.dataflow.specs.System.{In};
ghost use Rattle.board_history.specs.Ending.{AreMade, FramesOpen, Instance, has_entries, made_jobs, new_row};
ghost use Rattle.board_history.specs.Fields.{Fields, Frame, Layout, Row, Slot, path_of, slot_at};
ghost use Rattle.board_history.specs.Layouts.{Passes};
ghost use Rattle.board_history.specs.Stands.{Stands};
ghost use Rattle.board_history.specs.Static.{opened};
ghost use Rattle.task_code.specs.Code.{Code, body};
ghost use Rattle.task_code.specs.Compute.{Computed, Elements};
ghost use Rattle.task_code.specs.Effects.{Task, step_at};
ghost use Rattle.task_code.specs.Places.{Step};
ghost use Rattle.board_program.specs.Spots.{layout_of};
ghost use Rattle.board_instances.specs.Made.{FitsAround, IsOpened, block_of, made_as, with_slots};
ghost use Rattle.board_instances.specs.Nested.{IsNested};
ghost use Rattle.board_instances.specs.Openings.{ArePlaced, IsInner, WithMore, unfilled};
ghost use Rattle.board_instances.specs.Passing.{HandsOver};
ghost use Rattle.board_instances.specs.Turns.{IsTurn};
ghost use Rattle.board_instances.specs.View.{opening_frame};
ghost use Rattle.board_instances.specs.declared.pending.PendingInstance.{PendingInstance as AnOpening};
ghost use Rattle.values.specs.declared.key.Key.{Key};
ghost use Rattle.values.specs.declared.value.Scalar.{Scalar};

/// States what holds after instances have been created and placed.
///
/// An instance created inside another, or the instance of the script, is that of an opened block, also once its data
/// are made. If all placed instances are of this kind, they are those of an End that opens these blocks, with the rows
/// of their items. Nesting is preserved, and it holds wherever the fields stand for the state of a history. After the
/// slots of its own data, an instance opened by a call has the arguments of the call, where the layout puts the
/// parameters. The instances of a loop's turns are of the blocks to which its steps lead.
pub fn opened_instances()
    ensures stands { (C : Code) (L : Layout) (events : List Event) (F : Fields) → Stands C L events F → IsNested F.frames }
    ensures inner { (C : Code) (fs : List (Option Frame)) (at number : ℕ) (way : Option Step) (passed xs : List Slot) (f : Frame) →
        ((g : Frame) → slot_at fs at ≡ Some g → g.depth ≡ length (path_of fs at)) → 0 < length (body C number).entries →
        IsInner C fs at number way passed f → IsOpened C fs (Some at) (with_slots xs f) }
    ensures outermost { (C : Code) (fs : List (Option Frame)) (xs : List Slot) → 0 < length (body C 0).entries →
        IsOpened C fs None (with_slots xs (unfilled None 0 0 None 0 (body C 0) [])) }
    ensures opens { (C : Code) (fs middle gs : List (Option Frame)) (around : Option ℕ) (frames : List Frame) (entries : List ℕ)
        (old new : List Row) (last : Option ℕ) →
        ((f : Frame) → In f frames → IsOpened C fs around f) → FitsAround fs around (length frames) → WithMore fs around (length frames) middle →
        (x : ArePlaced frames entries middle gs old new last) → FramesOpen C fs around (map (made_as fs around) x.puts) gs }
    ensures made { (C : Code) (fs middle gs : List (Option Frame)) (around : Option ℕ) (frames : List Frame) (entries : List ℕ) (old new : List Row)
        (last : Option ℕ) (t : Task) (computed : Computed) →
        map (block_of fs around) frames ≡ filter (has_entries C) (opened C t computed) →
        (x : ArePlaced frames entries middle gs old new last) → AreMade C (map (made_as fs around) x.puts) t computed }
    ensures rows { (C : Code) (fs middle gs : List (Option Frame)) (around : Option ℕ) (frames : List Frame) (entries : List ℕ)
        (old new : List Row) (last : Option ℕ) →
        ((f : Frame) → In f frames → (body C f.body).entries ≡ entries) →
        (x : ArePlaced frames entries middle gs old new last) → new ≡ old ++ map new_row (made_jobs C (map (made_as fs around) x.puts)) }
    ensures nested { (C : Code) (fs middle gs : List (Option Frame)) (around : Option ℕ) (frames : List Frame) (entries : List ℕ)
        (old new : List Row) (last : Option ℕ) →
        IsNested fs → ((f : Frame) → In f frames → IsOpened C fs around f) → FitsAround fs around (length frames) → WithMore fs around (length frames) middle →
        ArePlaced frames entries middle gs old new last → IsNested gs }
    ensures passes { (C : Code) (fs : List (Option Frame)) (k e chunk : ℕ) (m : Instance) (f : Frame) → 0 < length C.bodies → HandsOver C fs k e m f
        → Passes C (layout_of C) fs k e chunk m f }
    ensures turns { (C : Code) (fs : List (Option Frame)) (at number offset : ℕ) (turns : Elements) (added : List AnOpening)
        → AllZip (IsTurn C fs at number offset) turns added →
        map (block_of fs (Some at)) (map opening_frame added) ≡ map (λ (t : Key × Scalar). (number, step_at offset t.0 (path_of fs at))) turns }
{}
