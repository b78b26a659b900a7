//! Core items with several owners, so that an alias or an export copies no function type.

ghost use Rattle.std.specs.Prelude.{◌≡◌, IfOk, option_map};
ghost use Rattle.comp_types.specs.CoreMatching.{meets};
ghost use Rattle.comp_types.specs.Rules.{is_of_core_sort};
ghost use Rattle.comp_types.specs.Spaces.{core_type_of};

use crate::matching::{func_meets, global_meets, memory_meets, table_meets};
use core_validate::{CoreItem, Shared};
use std::marker::Model;
use virt_base::{CoreType, NoMemory};
use wasm_ast::{CoreFunc, CoreSort, Limits};

#[derive(Debug, Drop)]
enum Kept {
    Func(Shared<CoreFunc>),
    Table(CoreType, Limits),
    Memory(Limits),
    Global(CoreType, bool),
}

/// A core item that may have several owners, which contracts see as the item.
#[derive(Debug, Drop)]
pub struct SharedItem {
    kept: Kept,
}

impl Model for SharedItem {
    ghost use Rattle.core_validate.specs.declared.item.CoreItem.{CoreItem};

    ghost Value = { CoreItem };

    ghost use Rattle.comp_scopes.specs.Items.{item_kept};

    ghost view = { λ s. item_kept s.kept };
}

impl SharedItem {
    ghost use Rattle.comp_scopes.specs.Sorts.{sort_of};

    /// An item with one owner.
    pub fn new(item: CoreItem) -> SharedItem
        ensures { result ≡ item }
    {
        let kept = match item {
            CoreItem::Func(ty) => Kept::Func(ty),
            CoreItem::Table(ty, limits) => Kept::Table(ty, limits),
            CoreItem::Memory(limits) => Kept::Memory(limits),
            CoreItem::Global(ty, variable) => Kept::Global(ty, variable),
        };
        SharedItem { kept }
    }

    /// One owner more of the same item.
    pub fn share(&self) -> Result<SharedItem, NoMemory>
        ensures { IfOk result (λ shared. shared ≡ self.now) }
    {
        let kept = match &self.kept {
            Kept::Func(ty) => Kept::Func(ty.share()?),
            Kept::Table(ty, limits) => Kept::Table(*ty, *limits),
            Kept::Memory(limits) => Kept::Memory(*limits),
            Kept::Global(ty, variable) => Kept::Global(*ty, *variable),
        };
        Ok(SharedItem { kept })
    }

    pub fn sort(&self) -> CoreSort
        ensures { result ≡ sort_of self.now }
    {
        match &self.kept {
            Kept::Func(_) => CoreSort::Func,
            Kept::Table(_, _) => CoreSort::Table,
            Kept::Memory(_) => CoreSort::Memory,
            Kept::Global(_, _) => CoreSort::Global,
        }
    }

    pub fn is_of_sort(&self, sort: CoreSort) -> bool
        ensures { result ≡ is_of_core_sort sort self.now }
    {
        match sort {
            CoreSort::Func => matches!(&self.kept, Kept::Func(_)),
            CoreSort::Table => matches!(&self.kept, Kept::Table(_, _)),
            CoreSort::Memory => matches!(&self.kept, Kept::Memory(_)),
            CoreSort::Global => matches!(&self.kept, Kept::Global(_, _)),
        }
    }

    /// The type of a function.
    pub fn func_type(&self) -> Option<&CoreFunc>
        ensures { option_map (λ f. f.now) result ≡ core_type_of self.now }
    {
        match &self.kept {
            Kept::Func(ty) => Some(ty.get()),
            Kept::Table(_, _) => None,
            Kept::Memory(_) => None,
            Kept::Global(_, _) => None,
        }
    }

    /// Whether it may stand where the other is imported.
    pub fn meets(&self, asked: &CoreItem) -> bool
        ensures { result ≡ meets self.now asked.now }
    {
        match &self.kept {
            Kept::Func(ty) => func_meets(ty.get(), asked),
            Kept::Table(ty, limits) => table_meets(*ty, *limits, asked),
            Kept::Memory(limits) => memory_meets(*limits, asked),
            Kept::Global(ty, variable) => global_meets(*ty, *variable, asked),
        }
    }
}
