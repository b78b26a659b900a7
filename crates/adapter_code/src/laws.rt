//! Laws of memories and routines, which proofs of routines cite.
ghost use Rattle.std.specs.Prelude.{◌≡◌, ◌+◌, ◌^◌, ◌<◌, ◌≤◌, List, length, true, ℕ};
ghost use Rattle.adapter_code.specs.declared.state.Local.{Local};
ghost use Rattle.adapter_code.specs.Code.{Code, followed_by};
ghost use Rattle.adapter_code.specs.Run.{State, runs, then_run};
ghost use Rattle.adapter_code.specs.Placed.{placed, inside, run_inside, within, are_places};
ghost use Rattle.adapter_code.specs.Keeps.{Keeps};
ghost use Rattle.adapter_code.specs.Number.{word, put};

/// What was written is read, and a write leaves every other byte as it was.
pub fn writes_are_read()
    ensures read { (width : ℕ) (m : List ℕ) (at v : ℕ) → at + width ≤ length m → v < 256 ^ width → word (put m at width v) at width ≡ v }
    ensures keeps { (width : ℕ) (m : List ℕ) (at v : ℕ) → at + width ≤ length m → Keeps m (put m at width v) at width }
{}

/// A routine over locals of its own runs alike at home in another list of locals.
pub fn placed_routines_run_alike()
    ensures { (places : List ℕ) (outer : List Local) (code : Code) (k : ℕ) (s : State) → are_places (length outer) places ≡ true → length s.locals ≡ length places → within (length places) code ≡ true → runs (placed places code) k (inside places outer s) ≡ run_inside places outer (runs code k s) }
{}

/// A routine after another runs after it.
pub fn routines_run_in_order()
    ensures { (code rest : Code) (k : ℕ) (s : State) → runs (followed_by code rest) k s ≡ then_run (runs code k s) (runs rest) }
{}
