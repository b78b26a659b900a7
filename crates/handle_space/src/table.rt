//! The table of handles: they are added, lent and taken out, and freed indexes are used again, the last one first (Component Model,
//! CanonicalABI.md, "Table State").

ghost use Rattle.std.specs.Prelude.{◌≡◌, ◌<◌, ◌↔◌, Some, None, IsSome, IfOk, OnErr, IsErrOf};
ghost use Rattle.std.specs.Option.{option_map};
ghost use Rattle.handle_space.specs.HandleMap.{empty, own_entry, borrow_entry, answered, entry_at, entry_of, live_count, most_live, with_entry, without, IsLent};
ghost use Rattle.handle_space.specs.HandleMap.{add, lend, unlend, take, take_own, rep_of};
ghost use Rattle.handle_space.specs.Answers.{held_of};
ghost use Rattle.handle_space.specs.Shown.{entry_in};

use crate::cell::Cell;
use std::alloc::{AllocFailed, Global};
use std::marker::Model;
use std::mem;
use virt_base::Trap;

/// Why no handle is added.
#[derive(Debug, Clone, Copy, PartialEq, Eq)]
pub enum AddFault {
    /// 268,435,455 handles are live, and a table has no more.
    Full,
    /// Memory ran out.
    NoMemory,
}

impl<T: Drop> From<AllocFailed<T>> for AddFault {
    ghost use Rattle.handle_space.specs.declared.table.AddFault.TheVariants.{NoMemory};

    ghost from_gives = { λ _ fault. fault ≡ NoMemory };

    fn from(_: AllocFailed<T>) -> AddFault {
        AddFault::NoMemory
    }
}

/// What a handle stands for, its rep, and whether it owns or borrows that.
#[derive(Debug, Clone, Copy, PartialEq, Eq)]
pub enum Taken {
    Own(u32),
    Borrow(u32),
}

// The most cells that there are.
const MOST_LIVE: usize = 268_435_455;

/// The handles of a component instance by their index, which is never 0 (Component Model, CanonicalABI.md, "Table State").
///
/// Contracts see the handle map. Each call takes constant time, but for the growth of the table in `add_own` and
/// `add_borrow`, and these two alone take memory.
#[derive(Debug, Drop)]
pub struct HandleTable {
    cells: Vec<Cell>,
    // the cell freed last, of those that were not used again
    freed: Option<u32>,
    // how many these are
    free: u32,
}

impl Model for HandleTable {
    ghost use Rattle.std.specs.Prelude.{ℕ};
    ghost use Rattle.handle_space.specs.HandleMap.{HandleMap};

    ghost Value = { HandleMap ℕ };

    ghost use Rattle.handle_space.specs.Shown.{shown, IsSound};

    ghost view = { λ t. shown t.cells.items t.freed t.free };

    ghost invariant = { λ t. IsSound t.cells.items t.freed t.free };
}

impl HandleTable {
    /// The table without handles. It takes no memory.
    pub fn new(alloc: Global) -> HandleTable
        ensures { result ≡ empty }
    {
        HandleTable {
            cells: Vec::new(alloc),
            freed: None,
            free: 0,
        }
    }

    /// Adds a handle that owns, and answers its index.
    ///
    /// # Errors
    ///
    /// `Full` exactly where 268,435,455 handles are live, else `NoMemory` where memory ran out. The table stays as it was.
    pub fn add_own(&mut self, _alloc: Global, resource: u32, rep: u32) -> Result<u32, AddFault>
        ensures added { IfOk result (λ index. add self.old (own_entry resource rep) ≡ Some (answered index self.new)) }
        ensures unused { IfOk result (λ index. (0 < index) × (entry_at self.old index ≡ None)) }
        ensures full { IsErrOf result AddFault.Full ↔ (live_count self.old ≡ most_live) }
        ensures same { OnErr result (self.new ≡ self.old) }
    {
        self.add(Cell::Own {
            resource,
            rep,
            lent: 0,
        })
    }

    /// Adds a handle that borrows, and answers its index.
    ///
    /// # Errors
    ///
    /// As those of `add_own`.
    pub fn add_borrow(&mut self, _alloc: Global, resource: u32, rep: u32) -> Result<u32, AddFault>
        ensures added { IfOk result (λ index. add self.old (borrow_entry resource rep) ≡ Some (answered index self.new)) }
        ensures unused { IfOk result (λ index. (0 < index) × (entry_at self.old index ≡ None)) }
        ensures full { IsErrOf result AddFault.Full ↔ (live_count self.old ≡ most_live) }
        ensures same { OnErr result (self.new ≡ self.old) }
    {
        self.add(Cell::Borrow { resource, rep })
    }

    // Adds a handle at the index freed last, or else at a new one.
    fn add(&mut self, cell: Cell) -> Result<u32, AddFault>
        requires { IsSome (entry_in cell) }
        ensures added { IfOk result (λ index. option_map (λ e. add self.old e) (entry_in cell) ≡ Some (Some (answered index self.new))) }
        ensures unused { IfOk result (λ index. (0 < index) × (entry_at self.old index ≡ None)) }
        ensures full { IsErrOf result AddFault.Full ↔ (live_count self.old ≡ most_live) }
        ensures same { OnErr result (self.new ≡ self.old) }
    {
        if let Some(place) = self.freed {
            match mem::replace(&mut self.cells[place as usize], cell) {
                Cell::Free(next) => self.freed = next,
                Cell::Own { .. } | Cell::Borrow { .. } => unreachable!(),
            }
            self.free -= 1;
            return Ok(place + 1);
        }
        let index = self.cells.len() + 1;
        if index > MOST_LIVE {
            return Err(AddFault::Full);
        }
        self.cells.push(cell)?;
        Ok(index as u32)
    }

    /// Lends the handle at an index, if it owns, and answers which form it has. One that borrows is passed on and stays.
    ///
    /// # Errors
    ///
    /// `Trap` exactly where no handle of this resource is at the index, or it is lent 2^64 - 1 times. The table stays as it was.
    pub fn lend(&mut self, index: u32, resource: u32) -> Result<Taken, Trap>
        ensures lent { IfOk result (λ taken. lend self.old index resource ≡ Some (answered (held_of taken) self.new)) }
        ensures traps { OnErr result (lend self.old index resource ≡ None) }
        ensures same { OnErr result (self.new ≡ self.old) }
    {
        match self.find(index, resource) {
            Cell::Own {
                resource,
                rep,
                lent,
            } => {
                if lent == u64::MAX {
                    return Err(Trap);
                }
                self.put(
                    index,
                    Cell::Own {
                        resource,
                        rep,
                        lent: lent + 1,
                    },
                );
                Ok(Taken::Own(rep))
            }
            Cell::Borrow { rep, .. } => Ok(Taken::Borrow(rep)),
            Cell::Free(_) => Err(Trap),
        }
    }

    /// Ends a loan of the handle at an index, which is lent.
    pub fn unlend(&mut self, index: u32)
        requires { IsLent self.old index }
        ensures { self.new ≡ unlend self.old index }
    {
        match self.cell(index) {
            Cell::Own {
                resource,
                rep,
                lent,
            } => self.put(
                index,
                Cell::Own {
                    resource,
                    rep,
                    lent: lent - 1,
                },
            ),
            Cell::Borrow { .. } | Cell::Free(_) => unreachable!(),
        }
    }

    /// Takes a handle that owns out of the table, and answers what it stands for.
    ///
    /// # Errors
    ///
    /// `Trap` exactly where no handle of this resource is at the index, or it borrows, or it is lent. The table stays as it was.
    pub fn take_own(&mut self, index: u32, resource: u32) -> Result<u32, Trap>
        ensures taken { IfOk result (λ rep. take_own self.old index resource ≡ Some (answered rep self.new)) }
        ensures traps { OnErr result (take_own self.old index resource ≡ None) }
        ensures same { OnErr result (self.new ≡ self.old) }
    {
        match self.find(index, resource) {
            Cell::Own { rep, lent: 0, .. } => {
                self.remove(index);
                Ok(rep)
            }
            Cell::Own { .. } | Cell::Borrow { .. } | Cell::Free(_) => Err(Trap),
        }
    }

    /// Takes a handle out of the table, and answers what it stands for and which form it has.
    ///
    /// # Errors
    ///
    /// `Trap` exactly where no handle of this resource is at the index, or it is lent. The table stays as it was.
    pub fn take(&mut self, index: u32, resource: u32) -> Result<Taken, Trap>
        ensures taken { IfOk result (λ taken. take self.old index resource ≡ Some (answered (held_of taken) self.new)) }
        ensures traps { OnErr result (take self.old index resource ≡ None) }
        ensures same { OnErr result (self.new ≡ self.old) }
    {
        let taken = match self.find(index, resource) {
            Cell::Own { rep, lent: 0, .. } => Taken::Own(rep),
            Cell::Borrow { rep, .. } => Taken::Borrow(rep),
            Cell::Own { .. } | Cell::Free(_) => return Err(Trap),
        };
        self.remove(index);
        Ok(taken)
    }

    /// What the handle at an index stands for, lent or not.
    ///
    /// # Errors
    ///
    /// `Trap` exactly where no handle of this resource is at the index.
    pub fn rep_of(&self, index: u32, resource: u32) -> Result<u32, Trap>
        ensures found { IfOk result (λ rep. rep_of self.now index resource ≡ Some rep) }
        ensures traps { OnErr result (rep_of self.now index resource ≡ None) }
    {
        match self.find(index, resource) {
            Cell::Own { rep, .. } | Cell::Borrow { rep, .. } => Ok(rep),
            Cell::Free(_) => Err(Trap),
        }
    }

    // The handle of this resource at an index, and a free cell where there is none.
    fn find(&self, index: u32, resource: u32) -> Cell
        ensures entry { entry_in result ≡ entry_of self.now index resource }
        ensures live { IsSome (entry_in result) → IsSome (entry_at self.now index) }
    {
        let cell = self.cell(index);
        match cell {
            Cell::Own { resource: of, .. } | Cell::Borrow { resource: of, .. } => {
                if of == resource {
                    cell
                } else {
                    Cell::Free(None)
                }
            }
            Cell::Free(_) => cell,
        }
    }

    // The cell of an index, and one without a handle where the index was never used.
    fn cell(&self, index: u32) -> Cell
        ensures { entry_in result ≡ entry_at self.now index }
    {
        if index == 0 || index as usize > self.cells.len() {
            return Cell::Free(None);
        }
        self.cells[index as usize - 1]
    }

    // Puts another handle at a live index.
    fn put(&mut self, index: u32, cell: Cell)
        requires live { IsSome (entry_at self.old index) }
        requires handle { IsSome (entry_in cell) }
        ensures { option_map (λ e. with_entry self.old index e) (entry_in cell) ≡ Some self.new }
    {
        self.cells[index as usize - 1] = cell;
    }

    // Takes the handle at a live index out of the table.
    fn remove(&mut self, index: u32)
        requires { IsSome (entry_at self.old index) }
        ensures { self.new ≡ without self.old index }
    {
        let freed = self.freed;
        let place = index - 1;
        self.cells[place as usize] = Cell::Free(freed);
        self.freed = Some(place);
        self.free += 1;
    }
}
