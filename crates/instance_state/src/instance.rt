//! A component instance at a moment, its two flags, and what canonical functions of resources do to it (Component Model, CanonicalABI.md,
//! `canon_resource_new`, `canon_resource_rep`, `canon_resource_drop`).

ghost use Rattle.std.specs.Prelude.{◌≡◌, ◌∷◌, [], ℕ, Some};
ghost use Rattle.core_store.specs.State.{empty as empty_store};
ghost use Rattle.comp_worlds.specs.Locals.{is_open as opens, enter as enters, exit as exits, close as closes, reopen as reopens, makes, reads, removes, done};
ghost use Rattle.comp_worlds.specs.Calls.{at_rest, plainly};
ghost use Rattle.instance_state.specs.Shown.{config_of, Goes, Answers, AnswersInMemory};

use crate::{CoreRuns, HandleFault, Handles};
use std::alloc::Global;
use virt_base::Trap;

/// A component instance at a moment.
#[derive(Drop)]
pub struct Instance {
    pub code: CoreRuns,
    pub handles: Handles,
    /// A call of one of its functions is in progress.
    pub entered: bool,
    /// Values are being lowered into it, or a post-return runs.
    pub closed: bool,
}

impl Instance {
    /// An instance before anything is made in it. It takes no memory.
    pub fn new(alloc: Global) -> Instance
        ensures { config_of result ≡ record at_rest { store = empty_store } }
    {
        Instance {
            code: CoreRuns::new(alloc),
            handles: Handles::new(alloc),
            entered: false,
            closed: false,
        }
    }

    /// Its code may call. `Trap` comes exactly where it is closed.
    pub fn is_open(&self) -> Result<(), Trap>
        ensures { Goes (opens (config_of self.now)) (config_of self.now) result }
    {
        if self.closed {
            return Err(Trap);
        }
        Ok(())
    }

    /// A call of one of its functions begins. `Trap` comes exactly where one is in progress.
    pub fn enter(&mut self) -> Result<(), Trap>
        ensures done { Goes (enters (config_of self.old)) (config_of self.new) result }
        ensures code { self.new.code ≡ self.old.code }
    {
        if self.entered {
            return Err(Trap);
        }
        self.entered = true;
        Ok(())
    }

    /// The call of one of its functions is over.
    pub fn exit(&mut self)
        ensures done { exits (config_of self.old) ≡ Some (done (config_of self.new)) }
        ensures code { self.new.code ≡ self.old.code }
    {
        self.entered = false;
    }

    /// Values are lowered into it from now on, or a post-return runs.
    pub fn close(&mut self)
        ensures done { closes (config_of self.old) ≡ Some (done (config_of self.new)) }
        ensures code { self.new.code ≡ self.old.code }
    {
        self.closed = true;
    }

    /// Its code may call again.
    pub fn reopen(&mut self)
        ensures done { reopens (config_of self.old) ≡ Some (done (config_of self.new)) }
        ensures code { self.new.code ≡ self.old.code }
    {
        self.closed = false;
    }

    /// `resource.new`: adds a handle that owns, where the instance defines the resource, and answers its index.
    ///
    /// # Errors
    ///
    /// `Trap` exactly where the instance does not define the resource, or is closed, or its table is full.
    pub fn make_resource(
        &mut self,
        alloc: Global,
        owns: bool,
        resource: u32,
        rep: u32,
    ) -> Result<u32, HandleFault>
        ensures done { AnswersInMemory (λ (index : ℕ). index ∷ []) (makes plainly owns resource (rep ∷ []) (config_of self.old)) (config_of self.new) result }
        ensures code { self.new.code ≡ self.old.code }
    {
        if !owns || self.closed {
            return Err(HandleFault::Trap);
        }
        self.handles.make(alloc, resource, rep)
    }

    /// `resource.rep`: what a handle stands for, where the instance defines its resource.
    ///
    /// # Errors
    ///
    /// `Trap` exactly where the instance does not define the resource, or no handle of it is at the index.
    pub fn rep_of(&self, owns: bool, resource: u32, index: u32) -> Result<u32, Trap>
        ensures { Answers (λ (rep : ℕ). rep ∷ []) (reads plainly owns resource (index ∷ []) (config_of self.now)) (config_of self.now) result }
    {
        if !owns {
            return Err(Trap);
        }
        self.handles.rep_of(index, resource)
    }

    /// `resource.drop`, the part of the table: takes a handle out, and answers what it stands for, if it owns that.
    ///
    /// # Errors
    ///
    /// `Trap` exactly where the instance is closed, or no handle of the resource is at the index, or it is lent.
    pub fn remove(&mut self, resource: u32, index: u32) -> Result<Option<u32>, Trap>
        ensures done { Answers (λ rep. rep) (removes resource (index ∷ []) (config_of self.old)) (config_of self.new) result }
        ensures code { self.new.code ≡ self.old.code }
    {
        if self.closed {
            return Err(Trap);
        }
        self.handles.take(index, resource)
    }
}
