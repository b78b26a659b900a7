//! The handles of a component instance: a table, and how many of its handles are borrowed (Component Model, CanonicalABI.md, `lift_own`,
//! `lift_borrow`, `lower_own`, `lower_borrow`).

#![tactic(auto, using(crate::proofs::Counting::counts))]

ghost use Rattle.std.specs.Prelude.{◌≡◌, ◌++◌, ◌∷◌, [], map, IfOk, OnOk, OnErr, IsErrOf, Some, None, option_map};
ghost use Rattle.std.specs.List.{All};
ghost use Rattle.handle_space.specs.HandleMap.{empty, own_entry, borrow_entry, answered, add, take, rep_of, unlend};
ghost use Rattle.comp_worlds.specs.Passing.{named_in, lift_handles, unlend_all, lower_borrow, add_handle, add_handles, has_borrow as holds_borrow};
ghost use Rattle.comp_worlds.specs.Locals.{what_is_owned};
ghost use Rattle.value_handles.specs.Shown.{number_of, shown};
ghost use Rattle.instance_state.specs.Owning.{plain_for};
ghost use Rattle.instance_state.specs.Exchanged.{passing, Lifts, LiftsOne, one_due, Lowers};
ghost use Rattle.instance_state.specs.Loans.{indexes_of, IsLentAs, AreLent};

use crate::fault::HandleFault;
use crate::loan::Loan;
use crate::owners::Owners;
use handle_space::{HandleTable, Taken};
use std::alloc::Global;
use std::marker::Model;
use value_handles::ValueHandle;
use virt_base::Trap;

/// The handles of a component instance by their index, as contracts see them, and whether one of them is borrowed.
///
/// Each call takes constant time, but for the growth of the table; those on the handles of a value take time in proportion to these.
#[derive(Debug, Drop)]
pub struct Handles {
    table: HandleTable,
    // how many of them are borrowed
    borrows: u64,
}

impl Model for Handles {
    ghost use Rattle.std.specs.Prelude.{ℕ};
    ghost use Rattle.handle_space.specs.HandleMap.{HandleMap};

    ghost Value = { HandleMap ℕ };

    ghost view = { λ h. h.table };

    ghost use Rattle.instance_state.specs.Counted.{IsCounted};

    ghost invariant = { λ h. IsCounted h.table h.borrows };
}

impl Handles {
    /// No handles. It takes no memory.
    pub fn new(alloc: Global) -> Handles
        ensures { result ≡ empty }
    {
        Handles {
            table: HandleTable::new(alloc),
            borrows: 0,
        }
    }

    /// Whether a borrowed handle is there.
    pub fn has_borrow(&self) -> bool
        ensures { result ≡ holds_borrow self.now }
    {
        self.borrows > 0
    }

    /// Adds a handle of the instance's own resource, and answers its index.
    pub fn make(&mut self, alloc: Global, resource: u32, rep: u32) -> Result<u32, HandleFault>
        ensures added { IfOk result (λ index. add self.old (own_entry resource rep) ≡ Some (answered index self.new)) }
        ensures traps { IsErrOf result HandleFault.Trap → add self.old (own_entry resource rep) ≡ None }
    {
        let index = self.table.add_own(alloc, resource, rep)?;
        Ok(index)
    }

    fn add_borrow(&mut self, alloc: Global, resource: u32, rep: u32) -> Result<u32, HandleFault>
        ensures added { IfOk result (λ index. add self.old (borrow_entry resource rep) ≡ Some (answered index self.new)) }
        ensures traps { IsErrOf result HandleFault.Trap → add self.old (borrow_entry resource rep) ≡ None }
    {
        let index = self.table.add_borrow(alloc, resource, rep)?;
        self.borrows += 1;
        Ok(index)
    }

    /// What the handle at an index stands for. `Trap` comes exactly where no handle of this resource is there.
    pub fn rep_of(&self, index: u32, resource: u32) -> Result<u32, Trap>
        ensures found { IfOk result (λ rep. rep_of self.now index resource ≡ Some rep) }
        ensures traps { OnErr result (rep_of self.now index resource ≡ None) }
    {
        self.table.rep_of(index, resource)
    }

    /// Takes a handle out of the table, and answers what it stands for, if it owns that. `Trap` comes exactly where no handle of this
    /// resource is at the index, or it is lent.
    pub fn take(&mut self, index: u32, resource: u32) -> Result<Option<u32>, Trap>
        ensures taken { IfOk result (λ rep. option_map (λ a. answered (what_is_owned a.answer) a.map) (take self.old index resource) ≡ Some (answered rep self.new)) }
        ensures traps { OnErr result (take self.old index resource ≡ None) }
        ensures same { OnErr result (self.new ≡ self.old) }
    {
        match self.table.take(index, resource)? {
            Taken::Own(rep) => Ok(Some(rep)),
            Taken::Borrow(_) => {
                self.borrows -= 1;
                Ok(None)
            }
        }
    }

    /// Takes the own handles of a value out of the table, and lends the borrowed ones: after `reps` it puts for what each handle stands,
    /// and after `loans` those of the indexes that are lent. Each loan can end then, as long as those before could.
    ///
    /// # Errors
    ///
    /// `Trap` exactly where an index is of no handle of its type's resource, or an own handle of the value is borrowed or lent.
    /// Nothing is said of the handles then.
    pub fn lift(
        &mut self,
        handles: &[ValueHandle],
        reps: &mut Vec<u32>,
        loans: &mut Vec<Loan>,
    ) -> Result<(), HandleFault>
        ensures lifts { Lifts (lift_handles (named_in (shown handles.now)) self.old) self.new reps.old.items reps.new.items (indexes_of loans.old.items) (indexes_of loans.new.items) result }
        ensures lent { OnOk result (All (IsLentAs self.old) loans.old.items → All (IsLentAs self.new) loans.new.items) }
    {
        for handle in handles {
            self.lift_one(*handle, reps, loans)?;
        }
        Ok(())
    }

    fn lift_one(
        &mut self,
        handle: ValueHandle,
        reps: &mut Vec<u32>,
        loans: &mut Vec<Loan>,
    ) -> Result<(), HandleFault>
        ensures lifts { LiftsOne (one_due handle self.old) (number_of handle) self.new reps.old.items reps.new.items (indexes_of loans.old.items) (indexes_of loans.new.items) result }
        ensures lent { OnOk result (All (IsLentAs self.old) loans.old.items → All (IsLentAs self.new) loans.new.items) }
    {
        match handle {
            ValueHandle::Own { resource, number } => {
                let rep = self.table.take_own(number, resource)?;
                reps.push(rep)?;
                Ok(())
            }
            ValueHandle::Borrow { resource, number } => {
                match self.table.lend(number, resource)? {
                    Taken::Own(rep) => {
                        loans.push(Loan {
                            index: number,
                            resource,
                        })?;
                        reps.push(rep)?;
                    }
                    Taken::Borrow(rep) => reps.push(rep)?,
                }
                Ok(())
            }
        }
    }

    /// Ends loans.
    ///
    /// # Errors
    ///
    /// `Trap` where one of them is of no handle that is lent. Nothing is said of the handles then.
    pub fn end_loans(&mut self, loans: &[Loan]) -> Result<(), Trap>
        ensures ends { OnOk result (self.new ≡ unlend_all (indexes_of loans.now) self.old) }
        ensures traps { OnErr result (AreLent loans.now self.old → ⊥) }
    {
        for loan in loans {
            self.end_loan(*loan)?;
        }
        Ok(())
    }

    fn end_loan(&mut self, loan: Loan) -> Result<(), Trap>
        ensures lent { OnOk result (IsLentAs self.old loan) }
        ensures ends { OnOk result (self.new ≡ unlend self.old loan.index) }
        ensures traps { OnErr result (IsLentAs self.old loan → ⊥) }
    {
        self.rep_of(loan.index, loan.resource)?;
        match self.take(loan.index, loan.resource) {
            Ok(_) => Err(Trap),
            // it is there and does not leave, so it is lent
            Err(_) => {
                self.table.unlend(loan.index);
                Ok(())
            }
        }
    }

    /// Adds the handles of a value, which is lowered into an instance that is called, or of a result; puts their indexes after others.
    ///
    /// # Errors
    ///
    /// `Trap` exactly where more handles would be live than a table has. Nothing is said of the handles then.
    pub fn lower(
        &mut self,
        alloc: Global,
        owners: &Owners,
        into: Option<u32>,
        handles: &[ValueHandle],
        indexes: &mut Vec<u32>,
    ) -> Result<(), HandleFault>
        ensures { Lowers (add_handles (plain_for owners.now into) (map passing handles.now) self.old) self.new indexes.old.items indexes.new.items result }
    {
        for handle in handles {
            let index = self.lower_one(alloc, owners, into, *handle)?;
            indexes.push(index)?;
        }
        Ok(())
    }

    fn lower_one(
        &mut self,
        alloc: Global,
        owners: &Owners,
        into: Option<u32>,
        handle: ValueHandle,
    ) -> Result<u32, HandleFault>
        ensures added { IfOk result (λ index. add_handle (plain_for owners.now into) (passing handle) self.old ≡ Some (answered index self.new)) }
        ensures traps { IsErrOf result HandleFault.Trap → add_handle (plain_for owners.now into) (passing handle) self.old ≡ None }
    {
        match handle {
            ValueHandle::Own { resource, number } => self.make(alloc, resource, number),
            ValueHandle::Borrow { resource, number } => {
                self.lower_borrow(alloc, owners, into, resource, number)
            }
        }
    }

    fn lower_borrow(
        &mut self,
        alloc: Global,
        owners: &Owners,
        into: Option<u32>,
        resource: u32,
        number: u32,
    ) -> Result<u32, HandleFault>
        ensures added { IfOk result (λ index. lower_borrow (plain_for owners.now into resource number) resource number self.old ≡ Some (answered index self.new)) }
        ensures traps { IsErrOf result HandleFault.Trap → lower_borrow (plain_for owners.now into resource number) resource number self.old ≡ None }
    {
        match into {
            None => Ok(0),
            Some(instance) => {
                if owners.owns(instance, resource) {
                    Ok(number)
                } else {
                    self.add_borrow(alloc, resource, number)
                }
            }
        }
    }
}
