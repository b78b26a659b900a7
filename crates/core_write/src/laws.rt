//! The law that what is written of a core module spells it. No code but the law.

ghost use Rattle.wasm_ast.specs.declared.module.Module.{Module};
ghost use Rattle.wasm_ast.specs.Modules.{core_module, SpellsModule};
ghost use Rattle.core_write.specs.Written.{IsWritable};

/// A module that may be written is spelled by what is written (WebAssembly Core 2.0, section 5.5.16).
pub fn writable_modules_are_spelled()
    ensures { (m : Module) → IsWritable m → SpellsModule m (core_module.write m) }
{}
