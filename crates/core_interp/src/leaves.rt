//! Ends of blocks and functions, branches and returns.

ghost use Rattle.std.specs.Prelude.{◌≡◌, ◌+◌, ◌≤◌, ◌<◌, ◌∷◌, length, drop, reverse};
ghost use Rattle.core_store.specs.Tree.{first, later, parts, Stop};
ghost use Rattle.core_store.specs.Scene.{scene_of, code_at};
ghost use Rattle.core_interp.specs.Jumping.{beyond};
ghost use Rattle.core_interp.specs.Run.{Ready, Leads, Remains, IsNoTrap, Branches, branches, Returns, backs, goes, own_parts};

use crate::control::{Control, Flow};
use crate::running::Running;
use core_store::Store;

impl Running {
    /// The end of a piece: of a block or a loop, after which `next` is the place, or of a function.
    #[inline]
    pub fn leave(&mut self, store: &mut Store, next: usize) -> Flow
        requires ready { Ready self.old store.old }
        requires stop { (first (own_parts self.old store.old)).here ≡ Stop }
        requires next { parts (drop next (code_at (scene_of store.old) self.old.function)) ≡ later (own_parts self.old store.old) }
        ensures leads { Leads (goes self.old store.old) result self.new store.new }
        ensures entry { Remains result self.old self.new }
        ensures no_trap { IsNoTrap result }
        ensures scene { scene_of store.old ≡ scene_of store.new }
        ensures shrinks { length self.new.controls.items + 1 ≡ length self.old.controls.items }
    {
        match self.controls.pop() {
            Some(
                Control::Label {
                    to: _,
                    arity: _,
                    height: _,
                },
            ) => {
                self.at = next;
                Flow::On
            }
            Some(
                Control::Called {
                    function,
                    to,
                    results,
                },
            ) => {
                store.leave();
                self.slots.close(results);
                self.function = function;
                self.at = to;
                Flow::On
            }
            Some(Control::Entry { results }) => {
                store.leave();
                Flow::Ended(results)
            }
            None => unreachable!(),
        }
    }

    /// A branch to a label.
    #[inline]
    pub fn branch(&mut self, store: &mut Store, label: u32) -> Flow
        requires { Branches self.old store.old label }
        ensures leads { Leads (branches self.old store.old label) result self.new store.new }
        ensures entry { Remains result self.old self.new }
        ensures scene { scene_of store.old ≡ scene_of store.new }
        ensures grows { length self.new.controls.items ≤ length self.old.controls.items }
    {
        self.controls.truncate(self.controls.len() - label as usize);
        match self.controls.pop() {
            Some(Control::Label { to, arity, height }) => {
                self.slots.keep(arity, height);
                self.at = to;
                Flow::On
            }
            Some(
                Control::Called {
                    function,
                    to,
                    results,
                },
            ) => {
                store.leave();
                self.slots.close(results);
                self.function = function;
                self.at = to;
                Flow::On
            }
            Some(Control::Entry { results }) => {
                store.leave();
                Flow::Ended(results)
            }
            None => unreachable!(),
        }
    }

    /// A return.
    pub fn back(&mut self, store: &mut Store) -> Flow
        requires { Returns self.old store.old }
        ensures leads { Leads (backs self.old store.old) result self.new store.new }
        ensures entry { Remains result self.old self.new }
        ensures scene { scene_of store.old ≡ scene_of store.new }
        ensures grows { length self.new.controls.items ≤ length self.old.controls.items }
    {
        match pop_call(&mut self.controls) {
            Control::Called {
                function,
                to,
                results,
            } => {
                store.leave();
                self.slots.close(results);
                self.function = function;
                self.at = to;
                Flow::On
            }
            Control::Entry { results } => {
                store.leave();
                Flow::Ended(results)
            }
            Control::Label {
                to: _,
                arity: _,
                height: _,
            } => unreachable!(),
        }
    }
}

// The innermost call, without the blocks and loops in it.
fn pop_call(controls: &mut Vec<Control>) -> Control
    requires { 0 < length (beyond (reverse controls.old.items)) }
    ensures call { beyond (reverse controls.old.items) ≡ result ∷ reverse controls.new.items }
    ensures shrinks { length controls.new.items ≤ length controls.old.items }
{
    loop {
        match controls.pop() {
            Some(
                Control::Label {
                    to: _,
                    arity: _,
                    height: _,
                },
            ) => {}
            Some(control) => return control,
            None => unreachable!(),
        }
    }
}
