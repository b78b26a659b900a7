//! What the routines on slot tables do.
ghost use Rattle.std.specs.Prelude.{◌≡◌, ◌+◌, ◌^◌, ◌<◌, ◌≤◌, List, length, map, Some, slice_get, slice_index_or, ℕ};
ghost use Rattle.handle_space.specs.HandleMap.{HandleMap};
ghost use Rattle.slot_tables.specs.Places.{entry_of as entry_in};
ghost use Rattle.adapter_code.specs.declared.state.Effect.{Effect};
ghost use Rattle.adapter_code.specs.Run.{runs};
ghost use Rattle.table_bytes.specs.declared.entry.Entry.{Entry};
ghost use Rattle.table_bytes.specs.Entries.{tag_of, word_of, long_of, IsShort};
ghost use Rattle.table_bytes.specs.Table.{places_of, table_len, IsTable};
ghost use Rattle.table_bytes.specs.Routines.{take_code, free_code, locals_of, state_of, TakeEnds, FreeEnds};

/// The routine that takes a place is `take` of the list for which the bytes stand, in at most 19 statements.
pub fn take_takes()
    ensures { (base capacity free k a b c d f : ℕ) (e : Entry) (m : List ℕ) (h : HandleMap ℕ) (es : List Effect) → IsShort e → IsTable m base capacity free → TakeEnds base capacity free e k (state_of (locals_of a b c d f (tag_of e) (word_of e) (long_of e)) m h es) (runs (take_code base capacity) k (state_of (locals_of a b c d f (tag_of e) (word_of e) (long_of e)) m h es)) }
{}

/// The routine that frees a place is `free` of the list for which the bytes stand, in at most 13 statements.
pub fn free_frees()
    ensures { (base capacity free k at a b c d tag w long : ℕ) (e : Entry) (m : List ℕ) (h : HandleMap ℕ) (es : List Effect) → IsTable m base capacity free → slice_get (map entry_in (places_of m base capacity)) at ≡ Some (Some e) → FreeEnds base capacity free at k (state_of (locals_of a at b c d tag w long) m h es) (runs (free_code base) k (state_of (locals_of a at b c d tag w long) m h es)) }
{}

/// Bytes of zeros are a table of which every place is free.
pub fn zeros_are_free()
    ensures { (m : List ℕ) (base capacity : ℕ) → base + table_len capacity ≤ length m → base + table_len capacity < 2 ^ 32 → ((k : ℕ) → base ≤ k → k < base + table_len capacity → slice_index_or m k 0 ≡ 0) → IsTable m base capacity capacity }
{}
