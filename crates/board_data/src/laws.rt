//! Theorems about the data of a board after a whole End.

ghost use Rattle.std.specs.Prelude.{◌≡◌, ℕ, List, Option, Some, None, map, false};
ghost use Rattle.std.specs.List.{flat_map};
ghost use Rattle.board_program.specs.Spots.{layout_of, spot_in};
ghost use Rattle.board_program.specs.Tables.{at_spot, led_times, spots_in, wanted_in};
ghost use Rattle.board_instances.specs.Names.{led_slot, spot_slot};
ghost use Rattle.data_store.specs.Data.{is_spent};
ghost use Rattle.data_store.specs.Stores.{Store, at};
ghost use Rattle.data_store.specs.declared.datum.Datum.{Datum};
ghost use Rattle.dataflow.specs.System.{Opening};
ghost use Rattle.board_history.specs.Ending.{CellAfter, Instance, held_times, named_times};
ghost use Rattle.board_history.specs.Needs.{job_missed};
ghost use Rattle.board_history.specs.Static.{Hold};
ghost use Rattle.board_history.specs.Fields.{Counted, Does, Fields, Frame, Job, Layout, slot_at, slot_for};
ghost use Rattle.task_code.specs.Code.{Code, Name, entry};
ghost use Rattle.task_code.specs.Compute.{Computed, Elements};
ghost use Rattle.task_code.specs.Effects.{Task};
ghost use Rattle.task_code.specs.Places.{Place};
ghost use Rattle.board_data.specs.Ended.{Changes, Covers, JobChanges};
ghost use Rattle.board_data.specs.View.{cells_view};
ghost use Rattle.board_data.specs.Wanted.{FewSlots, wanted_missed};

/// States the data after an End that stores, creates data, adds holds and gives up its own, in this order.
///
/// It is assumed that it gives up no more holds than there are. Each datum that existed is then as an End of
/// `board_history` makes it. A new datum to which no instance adds holds is as it was created. There are no other data.
pub fn ended_data()
    ensures old { (C : Code) (L : Layout) (fs hs : List (Option Frame)) (j : Job) (x : Computed) (made : List Instance) (os : List (Opening Task Place))
        (target : Option ℕ) (values : Elements) (s t : Store) →
        JobChanges C L fs hs j x made os target values s t →
        (d : ℕ) (c : Counted) → slot_at (cells_view s.cells) d ≡ Some c → CellAfter C L fs hs j x made os d c (slot_at (cells_view t.cells) d) }
    ensures new { (target : Option ℕ) (values : Elements) (ar aw gr gw : ℕ → ℕ) (s t : Store)
        → (changes : Changes target values ar aw gr gw s t) → Covers gr gw s →
        (d : ℕ) (y : Datum) → at s d ≡ None → at changes.made d ≡ Some y → is_spent y ≡ false → ar d ≡ 0 → aw d ≡ 0 → at t d ≡ Some y }
    ensures only { (target : Option ℕ) (values : Elements) (ar aw gr gw : ℕ → ℕ) (s t : Store)
        → (changes : Changes target values ar aw gr gw s t) → Covers gr gw s →
        (d : ℕ) (y : Datum) → at t d ≡ Some y → (x : Datum) × (at changes.made d ≡ Some x) }
{}

/// States that resolution by address agrees with resolution by name, for the layout of the code. What an item misses
/// and holds by the tables of its entry is what it misses and holds by the names of the entry. It is assumed that no
/// instance has more than 2^64 slots.
pub fn names_by_spots()
    ensures missed { (C : Code) (F : Fields) (k e c : ℕ) (f : Frame) → FewSlots F.frames → slot_at F.frames k ≡ Some f →
        flat_map (wanted_missed C F.cells (led_slot F.frames k)) (map (wanted_in C f.body) (entry C e).needs) ≡ job_missed C (layout_of C) F (Does k e c) }
    ensures given { (C : Code) (fs : List (Option Frame)) (k b d : ℕ) (rs : List Name) → FewSlots fs →
        led_times (spot_slot fs k) d (spots_in C b rs) ≡ named_times (slot_for (layout_of C) fs k b) d rs }
    ensures added { (C : Code) (fs : List (Option Frame)) (k b d : ℕ) (hs : List Hold) → FewSlots fs →
        held_times (λ r. at_spot (spot_slot fs k) (spot_in C b r)) d hs ≡ held_times (slot_for (layout_of C) fs k b) d hs }
{}
