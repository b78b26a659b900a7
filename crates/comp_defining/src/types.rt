//! Definitions of types, judged and added: to the index space of types, to the table of value types, and to the resources of the scope.

ghost use Rattle.std.specs.Prelude.{◌≡◌, ℕ, List, IfOk, OnOk, Option, min};
ghost use Rattle.wasm_ast.specs.declared.component.TypeDef.TheVariants.{Resource};
ghost use Rattle.comp_types.specs.Added.{after_declaration, and_depth, and_resource};
ghost use Rattle.comp_types.specs.Declarations.{ATypeDef};
ghost use Rattle.comp_types.specs.Definitions.{AType};
ghost use Rattle.comp_types.specs.Spaces.{Space};
ghost use Rattle.comp_types.specs.Types.{kind_of as kind_due};
ghost use Rattle.comp_scopes.specs.Judged.{Judged};
ghost use Rattle.comp_scopes.specs.Stands.{Stands};
ghost use Rattle.comp_types.specs.Views.{kind_of};
ghost use Rattle.type_table.specs.Anew.{HasPartsOf, Makes};
ghost use Rattle.type_table.specs.Covers.{Covers};
ghost use Rattle.type_table.specs.Tables.{Grew, Has, HasKind, HasOwnParts};

use crate::faults::type_fault;
use crate::kind_of;
use comp_scopes::{KnownEntry, Scope};
use comp_types::{KnownValue, TypeItem};
use std::alloc::Global;
use std::rc::Rc;
use type_table::TypeTable;
use virt_base::NoMemory;
use wasm_ast::TypeDef;

/// Adds the number of a new resource.
fn add_resource(scope: &mut Scope) -> Result<(), NoMemory>
    ensures { OnOk result ((s : Space) → (destructor : Option ℕ) → Stands s scope.old → Stands (and_resource s (Resource destructor)) scope.new) }
{
    let Some(next) = scope.next.checked_add(1) else {
        return Err(NoMemory);
    };
    scope.defined.push(scope.next)?;
    scope.next = next;
    Ok(())
}

/// What a resource adds beside its type.
fn and_resource(scope: &mut Scope, def: &TypeDef) -> Result<(), NoMemory>
    ensures { OnOk result ((s : Space) → Stands s scope.old → Stands (and_resource s def.now) scope.new) }
{
    match def {
        TypeDef::Resource { destructor: _ } => add_resource(scope),
        TypeDef::Primitive(_) => Ok(()),
        TypeDef::Record { fields: _ } => Ok(()),
        TypeDef::Variant { cases: _ } => Ok(()),
        TypeDef::List(_) => Ok(()),
        TypeDef::Tuple { types: _ } => Ok(()),
        TypeDef::Flags { labels: _ } => Ok(()),
        TypeDef::Enum { labels: _ } => Ok(()),
        TypeDef::Option(_) => Ok(()),
        TypeDef::Result { ok: _, err: _ } => Ok(()),
        TypeDef::Own(_) => Ok(()),
        TypeDef::Borrow(_) => Ok(()),
        TypeDef::Func {
            params: _,
            result: _,
        } => Ok(()),
        TypeDef::Instance { declarations: _ } => Ok(()),
    }
}

/// Notes how deep a type is that was defined.
fn and_depth(scope: &mut Scope, depth: u32)
    ensures { (s : Space) → (deep : ℕ) → Stands s scope.old → depth ≡ min deep 101 → Stands (and_depth s deep) scope.new }
{
    scope.deepest = u32::max(scope.deepest, depth);
}

/// Adds a value type, whose parts are there, to the table.
fn add_value(alloc: Global, types: &mut TypeTable, known: &Rc<KnownValue>) -> Result<(), NoMemory>
    ensures { OnOk result (HasOwnParts types.old known.now.value → Grew types.old types.new × Has types.new known.now.value) }
{
    types.add(alloc, known.clone()?)?;
    Ok(())
}

/// Keeps a value type, whose parts are there, in the table.
fn keep_type(alloc: Global, types: &mut TypeTable, kind: &TypeItem) -> Result<(), NoMemory>
    ensures { OnOk result (HasPartsOf types.old (kind_of kind.now) → Grew types.old types.new × HasKind types.new (kind_of kind.now)) }
{
    match kind {
        TypeItem::Value(known) => add_value(alloc, types, known),
        TypeItem::Resource(_) => Ok(()),
        TypeItem::Func(_) => Ok(()),
        TypeItem::Instance(_) => Ok(()),
    }
}

/// Adds a definition that stands for this type.
fn add_type(scope: &mut Scope, def: &TypeDef, kind: TypeItem) -> Result<(), NoMemory>
    ensures { OnOk result ((around : List Space) → (s : Space) → Stands s scope.old → kind_of kind ≡ kind_due s def.now → Stands (after_declaration around s (ATypeDef def.now)) scope.new) }
{
    let depth = kind.depth();
    scope.add_entry(KnownEntry { kind, depth })?;
    and_resource(scope, def)?;
    and_depth(scope, depth);
    Ok(())
}

/// A definition of a type in which no others stand: the least rule that it breaks, or else it is added.
pub fn define_type(
    alloc: Global,
    scope: &mut Scope,
    types: &mut TypeTable,
    def: &TypeDef,
) -> Result<Option<u32>, NoMemory>
    ensures { IfOk result (λ rule. (around : List Space) → (s : Space) → Stands s scope.old → Covers types.old s → Judged around s (AType (ATypeDef def.now)) scope.new rule × Makes types.old types.new s (AType (ATypeDef def.now)) rule) }
{
    let kind = kind_of(alloc, scope, def)?;
    match type_fault(alloc, scope, def, &kind)? {
        Some(rule) => Ok(Some(rule)),
        None => {
            keep_type(alloc, types, &kind)?;
            add_type(scope, def, kind)?;
            Ok(None)
        }
    }
}
