//! Which items of sections may be written (Component Model, Binary.md): instances and core instances, aliases, canonical functions, imports
//! and exports.

ghost use Rattle.std.specs.Prelude.{IsTrue};
ghost use Rattle.wasm_format.specs.Format.{Format};
ghost use Rattle.wasm_ast.specs.ComponentItems.{stated_desc};

use crate::fits::{Fit, all_fit, number_fits, text_fits};
use wasm_ast::{
    Alias, Canon, CanonOption, ComponentExport, ComponentImport, CoreArg, CoreExport, CoreInstance,
    ExternDesc, Instance, NamedItem,
};

impl Fit for CoreArg {
    ghost use Rattle.wasm_format.specs.Format.{Format};
    ghost use Rattle.comp_grammar.specs.CoreInstances.{core_arg};

    ghost may_be = { core_arg.Fits };

    #[tactic(auto, using(crate::proofs::FitLaws::core_arg_law))]
    fn fits(&self) -> bool {
        if !text_fits(&self.name) {
            return false;
        }
        number_fits(self.instance)
    }
}

impl Fit for CoreExport {
    ghost use Rattle.wasm_format.specs.Format.{Format};
    ghost use Rattle.comp_grammar.specs.CoreInstances.{core_export};

    ghost may_be = { core_export.Fits };

    #[tactic(auto, using(crate::proofs::FitLaws::core_export_law))]
    fn fits(&self) -> bool {
        if !text_fits(&self.name) {
            return false;
        }
        number_fits(self.index)
    }
}

impl Fit for CoreInstance {
    ghost use Rattle.wasm_format.specs.Format.{Format};
    ghost use Rattle.comp_grammar.specs.CoreInstances.{core_instance};

    ghost may_be = { core_instance.Fits };

    #[tactic(auto, using(crate::proofs::FitLaws::core_given_law, crate::proofs::FitLaws::core_inline_law))]
    fn fits(&self) -> bool {
        match self {
            CoreInstance::Instantiate { module, args } => {
                if !number_fits(*module) {
                    return false;
                }
                all_fit(args.as_slice())
            }
            CoreInstance::Inline { exports } => all_fit(exports.as_slice()),
        }
    }
}

/// An argument of an instantiation.
impl Fit for NamedItem {
    ghost use Rattle.wasm_format.specs.Format.{Format};
    ghost use Rattle.wasm_ast.specs.ComponentItems.{argument};

    ghost may_be = { argument.Fits };

    #[tactic(auto, using(crate::proofs::FitLaws::argument_law))]
    fn fits(&self) -> bool {
        if !text_fits(&self.name) {
            return false;
        }
        number_fits(self.index)
    }
}

/// False of instances that are written out.
impl Fit for Instance {
    ghost use Rattle.wasm_format.specs.Format.{Format};
    ghost use Rattle.wasm_ast.specs.ComponentItems.{instance};

    ghost may_be = { instance.Fits };

    #[tactic(auto, using(crate::proofs::FitLaws::given_law))]
    fn fits(&self) -> bool {
        match self {
            Instance::Instantiate { component, args } => {
                if !number_fits(*component) {
                    return false;
                }
                all_fit(args.as_slice())
            }
            Instance::Inline { .. } => false,
        }
    }
}

/// False of aliases of what stands around.
impl Fit for Alias {
    ghost use Rattle.wasm_format.specs.Format.{Format};
    ghost use Rattle.wasm_ast.specs.ComponentItems.{alias};

    ghost may_be = { alias.Fits };

    #[tactic(auto, using(crate::proofs::FitLaws::alias_law, crate::proofs::FitLaws::core_alias_law))]
    fn fits(&self) -> bool {
        match self {
            Alias::Export { instance, name, .. } => {
                if !number_fits(*instance) {
                    return false;
                }
                text_fits(name)
            }
            Alias::CoreExport { instance, name, .. } => {
                if !number_fits(*instance) {
                    return false;
                }
                text_fits(name)
            }
            Alias::Outer { .. } => false,
        }
    }
}

impl Fit for CanonOption {
    ghost use Rattle.wasm_format.specs.Format.{Format};
    ghost use Rattle.comp_grammar.specs.Items.{canon_option};

    ghost may_be = { canon_option.Fits };

    #[tactic(auto, using(crate::proofs::FitLaws::memory_law, crate::proofs::FitLaws::realloc_law, crate::proofs::FitLaws::post_law, crate::proofs::FitLaws::utf8_law))]
    fn fits(&self) -> bool {
        match self {
            CanonOption::Utf8 => true,
            CanonOption::Memory(index) => number_fits(*index),
            CanonOption::Realloc(index) => number_fits(*index),
            CanonOption::PostReturn(index) => number_fits(*index),
        }
    }
}

impl Fit for Canon {
    ghost use Rattle.wasm_format.specs.Format.{Format};
    ghost use Rattle.comp_grammar.specs.Items.{canon};

    ghost may_be = { canon.Fits };

    #[tactic(auto, using(crate::proofs::FitLaws::lift_law, crate::proofs::FitLaws::lower_law, crate::proofs::FitLaws::new_law, crate::proofs::FitLaws::drop_law, crate::proofs::FitLaws::rep_law))]
    fn fits(&self) -> bool {
        match self {
            Canon::Lift { func, options, ty } => {
                if !number_fits(*func) {
                    return false;
                }
                if !number_fits(*ty) {
                    return false;
                }
                all_fit(options.as_slice())
            }
            Canon::Lower { func, options } => {
                if !number_fits(*func) {
                    return false;
                }
                all_fit(options.as_slice())
            }
            Canon::ResourceNew(ty) => number_fits(*ty),
            Canon::ResourceDrop(ty) => number_fits(*ty),
            Canon::ResourceRep(ty) => number_fits(*ty),
        }
    }
}

/// What an import or an export is said to be.
impl Fit for ExternDesc {
    ghost use Rattle.wasm_format.specs.Format.{Format};
    ghost use Rattle.wasm_ast.specs.ComponentItems.{extern_desc};

    ghost may_be = { extern_desc.Fits };

    #[tactic(auto, using(crate::proofs::FitLaws::func_law, crate::proofs::FitLaws::equal_law, crate::proofs::FitLaws::resource_law, crate::proofs::FitLaws::instance_law))]
    fn fits(&self) -> bool {
        match self {
            ExternDesc::Func(ty) => number_fits(*ty),
            ExternDesc::TypeEq(ty) => number_fits(*ty),
            ExternDesc::Resource => true,
            ExternDesc::Instance(ty) => number_fits(*ty),
        }
    }
}

impl Fit for ComponentImport {
    ghost use Rattle.wasm_format.specs.Format.{Format};
    ghost use Rattle.comp_grammar.specs.Items.{component_import};

    ghost may_be = { component_import.Fits };

    #[tactic(auto, using(crate::proofs::FitLaws::import_law))]
    fn fits(&self) -> bool {
        if !text_fits(&self.name) {
            return false;
        }
        self.desc.fits()
    }
}

#[tactic(auto, using(crate::proofs::FitLaws::stated_law, crate::proofs::FitLaws::unstated_law))]
fn stated_fits(desc: &Option<ExternDesc>) -> bool
    ensures { IsTrue result → stated_desc.Fits desc.now }
{
    match desc {
        None => true,
        Some(desc) => desc.fits(),
    }
}

impl Fit for ComponentExport {
    ghost use Rattle.wasm_format.specs.Format.{Format};
    ghost use Rattle.wasm_ast.specs.ComponentItems.{component_export};

    ghost may_be = { component_export.Fits };

    #[tactic(auto, using(crate::proofs::FitLaws::export_law))]
    fn fits(&self) -> bool {
        if !text_fits(&self.name) {
            return false;
        }
        if !number_fits(self.index) {
            return false;
        }
        stated_fits(&self.desc)
    }
}
