//! The next index of each sort, as sections are made one after another.

ghost use Rattle.std.specs.Prelude.{◌≡◌, ◌<◌, ◌^◌};
ghost use Rattle.comp_types.specs.Views.{item_of};
ghost use Rattle.virt_output.specs.Counts.{sort_of as sort_in, count_of, and_one};

use comp_types::ItemType;
use wasm_ast::Sort;

/// How many functions, types and instances there are so far: the next index of each sort.
#[derive(Clone, Copy)]
pub struct Counts {
    pub functions: usize,
    pub types: usize,
    pub instances: usize,
}

/// The sort of an item.
pub fn sort_of(ty: &ItemType) -> Sort
    ensures { result ≡ sort_in (item_of ty.now) }
{
    match ty {
        ItemType::Func(_) => Sort::Func,
        ItemType::Instance(_) => Sort::Instance,
        ItemType::Kind(_) => Sort::Type,
    }
}

impl Counts {
    /// The next index of a sort.
    pub fn of(&self, sort: Sort) -> usize
        ensures { result ≡ count_of self.now sort }
    {
        match sort {
            Sort::Func => self.functions,
            Sort::Type => self.types,
            Sort::Instance => self.instances,
        }
    }

    /// The counts with one more of a sort.
    pub fn and(&self, sort: Sort) -> Counts
        requires { count_of self.now sort < 2 ^ 32 }
        ensures { result ≡ and_one self.now sort }
    {
        match sort {
            Sort::Func => Counts {
                functions: self.functions + 1,
                ..*self
            },
            Sort::Type => Counts {
                types: self.types + 1,
                ..*self
            },
            Sort::Instance => Counts {
                instances: self.instances + 1,
                ..*self
            },
        }
    }
}
