//! The laws that the proof of a routine uses.
ghost use Rattle.std.specs.Prelude.{◌≡◌, true, List, length, ℕ};
ghost use Rattle.adapter_code.specs.declared.statement.Width.{Width};
ghost use Rattle.adapter_code.specs.Code.{Code};
ghost use Rattle.adapter_code.specs.Run.{State, runs};
ghost use Rattle.adapter_code.specs.WellFormed.{IsWellFormed};
ghost use Rattle.adapter_code.specs.Placed.{placed, run_inside, within, are_places};
ghost use Rattle.table_bytes.specs.Fine.{well_formed};
ghost use Rattle.table_bytes.specs.Own.{own_of};

/// A routine that passes the test `well_formed`, which computes, is well formed.
pub fn well_formed_routines_pass()
    ensures { (ws : List Width) (names : List ℕ) (code : Code) → well_formed ws names code ≡ true → IsWellFormed ws names code }
{}

/// A routine over its own locals, at home in those of another one, runs from each state as it does over what it finds there.
/// With what is known of its run so much is known of the other one's (`proofs/Own`, `routine_called`).
pub fn called_routines_run()
    ensures { (places : List ℕ) (code : Code) (k : ℕ) (s : State) → are_places (length s.locals) places ≡ true → within (length places) code ≡ true → runs (placed places code) k s ≡ run_inside places s.locals (runs code k (own_of places s)) }
{}
