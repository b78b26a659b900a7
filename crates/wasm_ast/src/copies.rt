//! Equal lists of the parts of definitions.

ghost use Rattle.std.specs.Prelude.{◌≡◌, IfOk};

use crate::component::{CaseType, LabelType, ValType};
use std::alloc::Global;
use virt_base::{Items, NoMemory};

pub fn copy_fields(alloc: Global, fields: &[LabelType]) -> Result<Items<LabelType>, NoMemory>
    ensures { IfOk result (λ copy. copy ≡ fields.now) }
{
    let mut copy = Items::empty(alloc);
    let mut rest = fields;
    while let Some((field, more)) = rest.split_first() {
        let label = field.label.copy(alloc)?;
        let ty = field.ty;
        copy.push(LabelType { label, ty })?;
        rest = more;
    }
    Ok(copy)
}

pub fn copy_cases(alloc: Global, cases: &[CaseType]) -> Result<Items<CaseType>, NoMemory>
    ensures { IfOk result (λ copy. copy ≡ cases.now) }
{
    let mut copy = Items::empty(alloc);
    let mut rest = cases;
    while let Some((case, more)) = rest.split_first() {
        let label = case.label.copy(alloc)?;
        let ty = case.ty;
        copy.push(CaseType { label, ty })?;
        rest = more;
    }
    Ok(copy)
}

pub fn copy_types(alloc: Global, types: &[ValType]) -> Result<Items<ValType>, NoMemory>
    ensures { IfOk result (λ copy. copy ≡ types.now) }
{
    Ok(Items::new(Vec::from_slice(alloc, types)?))
}
