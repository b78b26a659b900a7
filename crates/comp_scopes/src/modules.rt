//! The type of a core module as scopes keep it, with its exports by name; and of a module of the component, by its validation.

ghost use Rattle.std.specs.Prelude.{IfOk};
ghost use Rattle.comp_scopes.specs.Found.{HasExports, IsKnownModule};
ghost use Rattle.comp_scopes.specs.CoreJudged.{IsJudged};

use crate::by_name::CoreMap;
use crate::items::SharedItem;
use core_validate::{
    CoreExport, CoreExports, CoreFault, CoreImports, ModuleType, Shared, validate,
};
use std::alloc::Global;
use virt_base::NoMemory;
use wasm_ast::Module;

/// The type of a module, in which exports are found by name.
#[derive(Drop)]
pub struct KnownModule {
    pub imports: CoreImports,
    pub exports: Shared<CoreMap>,
}

/// The exports by name; of those with one name the first.
fn exports_by_name(alloc: Global, exports: CoreExports) -> Result<CoreMap, NoMemory>
    ensures { IfOk result (HasExports exports) }
{
    let mut map = CoreMap::new(alloc);
    let mut rest = exports.into_vec();
    while let Some(export) = rest.pop() {
        let CoreExport { name, item } = export;
        let item = SharedItem::new(item);
        map.put(name, item)?;
    }
    Ok(map)
}

/// The type of a module as it is kept.
pub fn known_module(alloc: Global, ty: ModuleType) -> Result<KnownModule, NoMemory>
    ensures { IfOk result (IsKnownModule ty) }
{
    let ModuleType { imports, exports } = ty;
    let exports = exports_by_name(alloc, exports)?;
    let exports = Shared::new(alloc, exports)?;
    Ok(KnownModule { imports, exports })
}

/// The type of a module, if it is valid.
pub fn valid_module(alloc: Global, judged: &Module) -> Result<Option<KnownModule>, NoMemory>
    ensures { IfOk result (IsJudged judged.now) }
{
    match validate(alloc, judged) {
        Ok(ty) => Ok(Some(known_module(alloc, ty)?)),
        Err(CoreFault::Invalid(_)) => Ok(None),
        Err(CoreFault::NoMemory) => Err(NoMemory),
    }
}
