//! The scope of a definition and those around it, with one table for the value types in all of them, and one bound on the walks over
//! entries of types that judging definitions takes.

ghost use Rattle.std.specs.Prelude.{◌≡◌, [], ◌∷◌, List, OnOk, IsTrue, None, length, nat_lt, option_map, slice_get};
ghost use Rattle.comp_types.specs.Added.{entered, opened, root};
ghost use Rattle.comp_types.specs.Rules.{leaves_component};
ghost use Rattle.comp_types.specs.Spaces.{Space, empty_space};
ghost use Rattle.comp_scopes.specs.Found.{EachSome};
ghost use Rattle.comp_scopes.specs.Stands.{Stands};

use comp_scopes::Scope;
use std::alloc::Global;
use std::mem;
use type_table::TypeTable;
use virt_base::NoMemory;

/// A walk over this many entries takes half a second.
const WALKED_IN_ANY: u64 = 16_777_216;

/// This many more may be walked over for each definition: a component's time and memory stay in proportion to its length.
const WALKED_FOR_EACH: u64 = 512;

/// A scope further out, and how many instance types stand between it and its component.
#[derive(Drop)]
pub struct Level {
    scope: Scope,
    inside: usize,
}

/// The scope of a definition, and those around it.
#[derive(Drop)]
pub struct Scopes {
    pub inner: Scope,
    /// The value types in all of them, each different one once.
    pub types: TypeTable,
    /// How many instance types stand before the innermost component.
    inside: usize,
    /// From the outside in.
    outer: Vec<Level>,
    /// How many entries of types, written out, may still be walked over: no answer but `NoMemory` rests on it.
    left: u64,
}

impl Scopes {
    ghost use Rattle.comp_defining.specs.Around.{IsClosed, StandAll, border};

    /// The scope of a component around which there is none.
    pub fn root(alloc: Global) -> Scopes
        ensures { StandAll [] root result }
    {
        Scopes {
            inner: Scope::new(alloc, true, 0),
            types: TypeTable::none(alloc),
            inside: 0,
            outer: Vec::new(alloc),
            left: WALKED_IN_ANY,
        }
    }

    /// Counts the entries of types that are to be compared, searched for resources or made anew for a definition: small components can
    /// have instances that are large when they are written out, so that all such walks together have a bound.
    pub fn walk(&mut self, entries: u64) -> Result<(), NoMemory>
        ensures { OnOk result ((around : List Space) → (s : Space) → StandAll around s self.old → StandAll around s self.new) }
    {
        let left = self.left.saturating_add(WALKED_FOR_EACH);
        let Some(left) = left.checked_sub(entries) else {
            return Err(NoMemory);
        };
        self.left = left;
        Ok(())
    }

    fn open_scope(
        &mut self,
        alloc: Global,
        is_component: bool,
        inside: usize,
    ) -> Result<(), NoMemory>
        ensures { OnOk result ((around : List Space) → (s : Space) → StandAll around s self.old → inside ≡ border (empty_space is_component s.next ∷ s ∷ around) → StandAll (s ∷ around) (empty_space is_component s.next) self.new) }
    {
        let inner = Scope::new(alloc, is_component, self.inner.next);
        let scope = mem::replace(&mut self.inner, inner);
        let level = Level {
            scope,
            inside: self.inside,
        };
        self.inside = inside;
        self.outer.push(level)?;
        Ok(())
    }

    /// Opens the scope of an instance type in the innermost one.
    pub fn open_type(&mut self, alloc: Global) -> Result<(), NoMemory>
        ensures { OnOk result ((around : List Space) → (s : Space) → StandAll around s self.old → StandAll (s ∷ around) (opened s) self.new) }
    {
        let Some(inside) = self.inside.checked_add(1) else {
            return Err(NoMemory);
        };
        self.open_scope(alloc, false, inside)
    }

    /// Opens the scope of a component in the innermost one.
    pub fn enter(&mut self, alloc: Global) -> Result<(), NoMemory>
        ensures { OnOk result ((around : List Space) → (s : Space) → StandAll around s self.old → StandAll (s ∷ around) (entered s) self.new) }
    {
        self.open_scope(alloc, true, 0)
    }

    /// Closes the innermost scope, and hands it out; nothing where there is none around it.
    pub fn close(&mut self) -> Option<Scope>
        ensures closed { (around : List Space) → (t s : Space) → StandAll (t ∷ around) s self.old → IsClosed around t s result self.new }
        ensures alone { (s : Space) → StandAll [] s self.old → (result ≡ None) × StandAll [] s self.new }
    {
        match self.outer.pop() {
            None => None,
            Some(level) => {
                let Level { scope, inside } = level;
                self.inside = inside;
                Some(mem::replace(&mut self.inner, scope))
            }
        }
    }

    /// The innermost scope alone.
    pub fn into_inner(self) -> Scope
        ensures { (around : List Space) → (s : Space) → StandAll around s self → Stands s result }
    {
        self.inner
    }

    /// The scope `count` scopes further out.
    pub fn scope_at(&self, count: u32) -> Option<&Scope>
        ensures { (around : List Space) → (s : Space) → StandAll around s self.now → EachSome Stands (slice_get (s ∷ around) count) (option_map (λ x. x.now) result) }
    {
        if count == 0 {
            return Some(&self.inner);
        }
        let Some(index) = self.outer.len().checked_sub(count as usize) else {
            return None;
        };
        match self.outer.get(index) {
            None => None,
            Some(level) => Some(&level.scope),
        }
    }

    /// Whether the scope `count` scopes further out, if it is there, is beyond the border of the innermost component.
    pub fn leaves(&self, count: u32) -> bool
        ensures { (around : List Space) → (s : Space) → StandAll around s self.now → IsTrue (nat_lt count (length (s ∷ around))) → result ≡ leaves_component (s ∷ around) count }
    {
        self.inside < count as usize
    }
}
