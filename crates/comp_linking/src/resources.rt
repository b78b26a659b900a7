//! The number of the resource at an index of a scope.

ghost use Rattle.std.specs.Prelude.{◌≡◌, Some};
ghost use Rattle.comp_types.specs.Spaces.{Space, kind_at};
ghost use Rattle.comp_types.specs.Types.{resource_in};
ghost use Rattle.comp_scopes.specs.Stands.{Stands};
ghost use Rattle.comp_types.specs.Views.{kind_of};

use comp_scopes::Scope;
use comp_types::TypeItem;

fn resource_of(kind: &TypeItem) -> Option<u32>
    ensures { result ≡ resource_in (Some (kind_of kind.now)) }
{
    match kind {
        TypeItem::Resource(resource) => Some(*resource),
        TypeItem::Value(_) => None,
        TypeItem::Func(_) => None,
        TypeItem::Instance(_) => None,
    }
}

/// The number of the resource at an index, if a resource is there.
pub fn resource_at(scope: &Scope, index: u32) -> Option<u32>
    ensures { (s : Space) → Stands s scope.now → result ≡ resource_in (kind_at s index) }
{
    match scope.kind_at(index) {
        None => None,
        Some(kind) => resource_of(kind),
    }
}
