//! Why reading stops at a tag: the byte that stands there, and that nothing is spelled by bytes that begin so. `specs/` hold the
//! definitions, `proofs/` a law for each way to make a format.
#![tactic(auto)]

ghost use Rattle.format_causes.specs.Causes.{IsCaused};
ghost use Rattle.wasm_ast.specs.Modules.{core_module};

/// The law that reading a core module stops at a tag for a cause. It does nothing when it runs.
pub fn modules_stop_for_a_cause()
    ensures { IsCaused core_module }
{}
