//! What a walk through two types of a table remembers.

ghost use Rattle.std.specs.Prelude.{◌≡◌, [], false, Contains, IsTrue, IfOk, OnErr, OnOk};
ghost use Rattle.std.specs.Bool.{OnTrue};
ghost use Rattle.type_table.specs.Tables.{Types};
ghost use Rattle.type_table.specs.Walked.{IsMarked, Remembers};

use comp_types::Substitution;
use indexmap::IndexSet;
use std::alloc::Global;
use virt_base::NoMemory;

/// Whether a walk went on to its end.
fn went_on(walk: &Result<bool, NoMemory>) -> bool
    ensures ok { IfOk walk.now (λ same. result ≡ same) }
    ensures err { OnErr walk.now (result ≡ false) }
{
    match walk {
        Ok(same) => *same,
        Err(_) => false,
    }
}

/// The pairs of resources so far, and the pairs of places whose types met by them: those need not be walked again.
#[derive(Debug, Drop)]
pub struct Walked {
    pub by: Substitution,
    met: IndexSet<(usize, usize)>,
}

impl Walked {
    /// With these pairs nothing met yet.
    pub fn new(alloc: Global, by: Substitution) -> Walked
        ensures by { result.by ≡ by }
        ensures met { result.met.keys ≡ [] }
    {
        Walked {
            by,
            met: IndexSet::new(alloc),
        }
    }

    /// Whether the types at these places met.
    pub fn has_met(&self, at: usize, other: usize) -> bool
        ensures { OnTrue result (Contains self.now.met.keys (at, other)) }
    {
        self.met.contains(&(at, other))
    }

    /// Remembers that the types at these places met.
    pub fn mark(&mut self, at: usize, other: usize) -> Result<(), NoMemory>
        ensures met { OnOk result (IsMarked self.old.met.keys self.new.met.keys (at, other)) }
        ensures by { self.new.by ≡ self.old.by }
    {
        self.met.insert((at, other))?;
        Ok(())
    }

    /// Nothing is remembered but the pairs of resources.
    pub fn forget(&mut self)
        ensures met { self.new.met.keys ≡ [] }
        ensures by { self.new.by ≡ self.old.by }
    {
        self.met.clear();
    }

    /// Passes on what a walk answered. Unless it went on, pairs may have come that no match gave, so what met is forgotten.
    pub fn settle(&mut self, walk: Result<bool, NoMemory>) -> Result<bool, NoMemory>
        ensures same { result ≡ walk }
        ensures by { self.new.by ≡ self.old.by }
        ensures kept { (types : Types) → IfOk walk (λ same. IsTrue same → Remembers types self.old) → Remembers types self.new }
    {
        if went_on(&walk) {
            return walk;
        }
        self.forget();
        walk
    }
}
