//! Whether the type at an index is of the kind that a definition needs: a function type or an instance type.

ghost use Rattle.std.specs.Prelude.{◌≡◌};
ghost use Rattle.comp_types.specs.Views.{kind_of};
ghost use Rattle.comp_types.specs.Rules.{if_there, is_func, is_instance};
ghost use Rattle.comp_types.specs.Spaces.{Space, kind_at};
ghost use Rattle.comp_scopes.specs.Stands.{Stands};

use crate::Scope;
use comp_types::TypeItem;

fn is_func(kind: &TypeItem) -> bool
    ensures { result ≡ is_func (kind_of kind.now) }
{
    match kind {
        TypeItem::Resource(_) => false,
        TypeItem::Value(_) => false,
        TypeItem::Func(_) => true,
        TypeItem::Instance(_) => false,
    }
}

fn is_instance(kind: &TypeItem) -> bool
    ensures { result ≡ is_instance (kind_of kind.now) }
{
    match kind {
        TypeItem::Resource(_) => false,
        TypeItem::Value(_) => false,
        TypeItem::Func(_) => false,
        TypeItem::Instance(_) => true,
    }
}

/// Whether the type at an index, if it is there, is that of a function.
pub fn is_func_at(scope: &Scope, index: u32) -> bool
    ensures { (s : Space) → Stands s scope.now → result ≡ if_there is_func (kind_at s index) }
{
    match scope.kind_at(index) {
        None => true,
        Some(kind) => is_func(kind),
    }
}

/// Whether the type at an index, if it is there, is that of an instance.
pub fn is_instance_at(scope: &Scope, index: u32) -> bool
    ensures { (s : Space) → Stands s scope.now → result ≡ if_there is_instance (kind_at s index) }
{
    match scope.kind_at(index) {
        None => true,
        Some(kind) => is_instance(kind),
    }
}
