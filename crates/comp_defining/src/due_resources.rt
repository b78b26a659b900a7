//! The part of rule 12 that is about definitions of types: `own` and `borrow` name a resource.

ghost use Rattle.std.specs.Prelude.{◌≡◌};
ghost use Rattle.comp_types.specs.Declarations.{ATypeDef};
ghost use Rattle.comp_types.specs.Definitions.{AType};
ghost use Rattle.comp_types.specs.Rules.{is_resource, resource_is_due, resources_are_due};
ghost use Rattle.comp_types.specs.Spaces.{Space};
ghost use Rattle.comp_scopes.specs.Stands.{Stands};
ghost use Rattle.comp_types.specs.Views.{kind_of};

use comp_scopes::Scope;
use comp_types::TypeItem;
use wasm_ast::TypeDef;

fn is_resource(kind: &TypeItem) -> bool
    ensures { result ≡ is_resource (kind_of kind.now) }
{
    match kind {
        TypeItem::Resource(_) => true,
        TypeItem::Value(_) => false,
        TypeItem::Func(_) => false,
        TypeItem::Instance(_) => false,
    }
}

fn resource_is_due(scope: &Scope, index: u32) -> bool
    ensures { (s : Space) → Stands s scope.now → result ≡ resource_is_due s index }
{
    match scope.kind_at(index) {
        None => true,
        Some(kind) => is_resource(kind),
    }
}

/// Whether a handle names a resource. An index that is not there is at fault by another rule.
pub fn resources_are_due(scope: &Scope, def: &TypeDef) -> bool
    ensures { (s : Space) → Stands s scope.now → result ≡ resources_are_due s (AType (ATypeDef def.now)) }
{
    match def {
        TypeDef::Own(index) => resource_is_due(scope, *index),
        TypeDef::Borrow(index) => resource_is_due(scope, *index),
        TypeDef::Primitive(_) => true,
        TypeDef::Record { fields: _ } => true,
        TypeDef::Variant { cases: _ } => true,
        TypeDef::List(_) => true,
        TypeDef::Tuple { types: _ } => true,
        TypeDef::Flags { labels: _ } => true,
        TypeDef::Enum { labels: _ } => true,
        TypeDef::Option(_) => true,
        TypeDef::Result { ok: _, err: _ } => true,
        TypeDef::Func {
            params: _,
            result: _,
        } => true,
        TypeDef::Instance { declarations: _ } => true,
        TypeDef::Resource { destructor: _ } => true,
    }
}
