//! Rule 24: whether an item is what the annotation of its name says, a constructor, method or static function of a resource
//! (Component Model, Explainer.md, "Import and Export Definitions").

#![tactic(auto, using(wit_types::proofs::PlainLemmas::plains))]

ghost use Rattle.std.specs.Prelude.{◌≡◌, IfOk, List, ℕ, Some};
ghost use Rattle.wit_types.specs.Plain.{More, Parts, plain, plain_result, fields_of};
ghost use Rattle.comp_types.specs.Items.{FuncItem};
ghost use Rattle.comp_types.specs.Views.{item_of};
ghost use Rattle.comp_types.specs.Rules.{annotation_fits, begins_with_borrow_of, has_resource, is_function_of, is_own_of, name_fits, resource_of};

use comp_names::{Annotation, annotation_of};
use comp_types::{InstanceEntries, ItemType, KnownFunc, TypeItem};
use std::alloc::Global;
use virt_base::{NoMemory, Text};
use wit_types::{Field, WitType};

fn is_own_of(ty: &WitType, resource: u32) -> bool
    ensures { result ≡ is_own_of resource (Some (plain ty.now)) }
{
    match ty {
        WitType::Own(owned) => *owned == resource,
        _ => false,
    }
}

fn is_borrow_of(ty: &WitType, resource: u32) -> bool
    ensures { (name : List ℕ) → (rest : Parts) → result ≡ begins_with_borrow_of resource (More name (plain ty.now) rest) }
{
    match ty {
        WitType::Borrow(borrowed) => *borrowed == resource,
        _ => false,
    }
}

fn answers_own_of(answer: &Option<WitType>, resource: u32) -> bool
    ensures { result ≡ is_own_of resource (plain_result answer.now) }
{
    match answer {
        None => false,
        Some(ty) => is_own_of(ty, resource),
    }
}

fn begins_with_borrow_of(params: &[Field], resource: u32) -> bool
    ensures { result ≡ begins_with_borrow_of resource (fields_of params.now) }
{
    match params.split_first() {
        None => false,
        Some((first, _)) => is_borrow_of(&first.ty, resource),
    }
}

fn is_function_type_of(annotation: Annotation, resource: u32, ty: &KnownFunc) -> bool
    ensures { result ≡ is_function_of annotation resource (FuncItem ty.now) }
{
    match annotation {
        Annotation::Constructor => answers_own_of(&ty.ty().result, resource),
        Annotation::Method => begins_with_borrow_of(ty.ty().params.items.as_slice(), resource),
        Annotation::Static => true,
    }
}

/// Whether an item is a function of the resource, as the annotation says.
fn is_function_of(annotation: Annotation, resource: u32, item: &ItemType) -> bool
    ensures { result ≡ is_function_of annotation resource (item_of item.now) }
{
    match item {
        ItemType::Func(ty) => is_function_type_of(annotation, resource, ty),
        ItemType::Instance(_) => false,
        ItemType::Kind(_) => false,
    }
}

fn is_function_of_item(annotation: Annotation, found: &ItemType, item: &ItemType) -> bool
    ensures { result ≡ has_resource (λ r. is_function_of annotation r (item_of item.now)) (resource_of (Some (item_of found.now))) }
{
    match found {
        ItemType::Kind(TypeItem::Resource(resource)) => is_function_of(annotation, *resource, item),
        ItemType::Kind(TypeItem::Value(_)) => false,
        ItemType::Kind(TypeItem::Func(_)) => false,
        ItemType::Kind(TypeItem::Instance(_)) => false,
        ItemType::Func(_) => false,
        ItemType::Instance(_) => false,
    }
}

fn annotation_fits(
    entries: &InstanceEntries,
    annotation: Annotation,
    label: &Text,
    item: &ItemType,
) -> bool
    ensures { result ≡ annotation_fits entries.now (Some (annotation, label.now)) (item_of item.now) }
{
    match entries.look_up(label) {
        None => false,
        Some(found) => is_function_of_item(annotation, found, item),
    }
}

/// Whether a name has no annotation, or that of a function of a resource whose name stands among these entries, and the item is
/// such a function.
pub fn name_fits(
    alloc: Global,
    entries: &InstanceEntries,
    name: &Text,
    item: &ItemType,
) -> Result<bool, NoMemory>
    ensures { IfOk result (λ fits. fits ≡ name_fits entries.now name.now (item_of item.now)) }
{
    match annotation_of(name.bytes()) {
        None => Ok(true),
        Some((annotation, label)) => {
            // a label is ASCII
            let Ok(label) = Text::new(alloc, label) else {
                return Err(NoMemory);
            };
            Ok(annotation_fits(entries, annotation, &label, item))
        }
    }
}
