//! Why reading a component stops at a tag. `proofs/` hold the law of each format of components.

ghost use Rattle.std.specs.Prelude.{◌≡◌, ℕ, Err};
ghost use Rattle.virt_base.specs.Place.{Place};
ghost use Rattle.wasm_format.specs.declared.stop.Stop.TheVariants.{Unsupported};
ghost use Rattle.format_causes.specs.Causes.{IsCaused};
ghost use Rattle.comp_grammar.specs.Components.{component};
ghost use Rattle.comp_read.specs.Causes.{CauseAtAnyDepth};

/// The law that reading a component stops at a tag for a cause, and that no component that is deeper begins so either. It does
/// nothing when it runs.
pub fn components_stop_for_a_cause()
    ensures caused { (depth : ℕ) → IsCaused (component depth) }
    ensures any_depth { (depth : ℕ) → (p : Place) → (at byte : ℕ) → (component depth).read p ≡ Err (Unsupported at byte) → CauseAtAnyDepth p at byte }
{}
