//! The law that a module is valid which was assembled of valid parts and bodies (WebAssembly Core 2.0, section 3.4.10).

ghost use Rattle.adapter_transfer.specs.ModuleValid.{ModulesAreValid};

/// A module is valid (WebAssembly Core 2.0, section 3.4.10) whose parts fit each other and whose bodies are valid.
pub fn modules_are_valid()
    ensures { ModulesAreValid }
{}
