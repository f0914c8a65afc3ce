//! Laws: name resolution and the program tables agree with whole code.
ghost use Rattle.std.specs.Prelude.{◌≡◌, ◌<◌, ◌+◌, ◌-◌, ◌^◌, min, ℕ, Bool, List, [], length, Option, Some, if◌then◌else◌};
ghost use Rattle.board_history.specs.Ending.{held_times, named_times, slot_is, stored_by, stored_values};
ghost use Rattle.board_history.specs.Fields.{Frame, Slot, slot_for};
ghost use Rattle.board_history.specs.Static.{outer_holds};
ghost use Rattle.task_code.specs.Compute.{Computed};
ghost use Rattle.board_program.specs.Tables.{IsBodyTable, at_spot, first_spot, hold_times, led_times, spots_in};
ghost use Rattle.board_program.specs.declared.program.BodyTable.{BodyTable};
ghost use Rattle.dataflow.specs.System.{In};
ghost use Rattle.board_history.specs.Layouts.{IsLayout, Reached, all_names, parameter};
ghost use Rattle.task_code.specs.Code.{ByCalls, Code, Name, Need, Variable, body, entry, here, needed, stored_of};
ghost use Rattle.task_code.specs.Whole.{IsCode};
ghost use Rattle.board_program.specs.Spots.{frame_slot, layout_of, place_from, spot_in};
ghost use Rattle.board_program.specs.declared.lexical_address.LexicalAddress.{LexicalAddress};

/// Proves that the layout of whole code is one by which new instances resolve their names.
///
/// In each body that a run can open, every name that an entry may use or waits for resolves. A variable that a body
/// declares resolves to the first slot with it in the instance itself. The parameters of a function follow all declared
/// variables.
pub fn layout_of_code()
    ensures laid { (C : Code) → IsCode C → IsLayout C (layout_of C) }
    ensures leads { (C : Code) → IsCode C → (b : ℕ) (r : Name) → Reached C b → In r (all_names C b) →
        (s : LexicalAddress) × (spot_in C b r ≡ Some s) }
    ensures waits { (C : Code) → IsCode C → (b i : ℕ) (n : Need) (r : Name) → Reached C b → In i (body C b).entries →
        In n (entry C i).needs → In r (needed n) → (s : LexicalAddress) × (spot_in C b r ≡ Some s) }
    ensures own { (C : Code) → IsCode C → (b : ℕ) (v : Variable) → In v (body C b).makes →
        (k : ℕ) × (k < length (body C b).makes) × (place_from 0 v (body C b).makes ≡ Some k)
        × (spot_in C b (here v) ≡ Some (record { levels = 0; slot = k })) }
    ensures passed { (C : Code) → IsCode C → (b k : ℕ) (a : Bool) → (body C b).opener ≡ ByCalls →
        spot_in C b (parameter k a) ≡ Some (record { levels = 0; slot = min (length (body C b).makes + k) (2 ^ 64 - 1) }) }
{}

/// Proves that, in whole code, the tables of a body and its entries agree with the names of the code for every datum.
///
/// This covers the holds on data outside, the rights of an entry, and its stores. Names are resolved in an instance of
/// the body, and addresses stand for the slots that they refer to.
pub fn tables_of_code()
    ensures holds { (C : Code) → IsCode C → (b : ℕ) → Reached C b → (fs : List (Option Frame)) (k : ℕ) (f : LexicalAddress → Slot) →
        ((s : LexicalAddress) → f s ≡ frame_slot fs k s) → (t : BodyTable) → IsBodyTable C b t → (d : ℕ) →
        (hold_times f (λ x. x.reads) d t.outer.items ≡ held_times (slot_for (layout_of C) fs k b) d (outer_holds C (λ e. e.reads) b))
        × (hold_times f (λ x. x.writes) d t.outer.items ≡ held_times (slot_for (layout_of C) fs k b) d (outer_holds C (λ e. e.writes) b)) }
    ensures rights { (C : Code) → IsCode C → (b : ℕ) → Reached C b → (fs : List (Option Frame)) (k : ℕ) (f : LexicalAddress → Slot) →
        ((s : LexicalAddress) → f s ≡ frame_slot fs k s) → (i : ℕ) → In i (body C b).entries → (d : ℕ) →
        (led_times f d (spots_in C b (entry C i).reads) ≡ named_times (slot_for (layout_of C) fs k b) d (entry C i).reads)
        × (led_times f d (spots_in C b (entry C i).writes) ≡ named_times (slot_for (layout_of C) fs k b) d (entry C i).writes) }
    ensures stores { (C : Code) → IsCode C → (b : ℕ) → Reached C b → (fs : List (Option Frame)) (k : ℕ) (f : LexicalAddress → Slot) →
        ((s : LexicalAddress) → f s ≡ frame_slot fs k s) → (i : ℕ) → In i (body C b).entries → (x : Computed) (d : ℕ) →
        stored_by (slot_for (layout_of C) fs k b) x d (stored_of (entry C i).node (entry C i).act)
        ≡ (if slot_is d (at_spot f (first_spot C b (stored_of (entry C i).node (entry C i).act))) then stored_values x else []) }
{}
