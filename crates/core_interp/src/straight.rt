//! Frequent instructions that go on to the next, one after another, with the place and the budget at hand.

ghost use Rattle.std.specs.Prelude.{◌≡◌, IfOk, length};
ghost use Rattle.core_store.specs.Scene.{scene_of, code_at, spaces_at};
ghost use Rattle.core_interp.specs.Run.{Ready};
ghost use Rattle.core_interp.specs.Straight.{Came};

use crate::computing::{compute, never_traps};
use crate::fetch::instr_at;
use crate::operands::put_constant;
use crate::running::Running;
use crate::variables::{get_local, set_local, tee_local};
use core_store::{Code, CoreSpaces, Store};
use virt_base::NoMemory;
use wasm_ast::{Instr, Op};

impl Running {
    /// Runs up to another instruction, the end of the code or that of the budget.
    #[inline]
    pub fn run_straight(
        &mut self,
        code: &Code,
        spaces: &CoreSpaces,
        store: &mut Store,
        budget: &mut u64,
    ) -> Result<(), NoMemory>
        requires ready { Ready self.old store.old }
        requires code { code.now ≡ code_at (scene_of store.old) self.old.function }
        requires spaces { spaces.now ≡ spaces_at (scene_of store.old) self.old.function }
        ensures { IfOk result (λ _. Came self.old store.old budget.old self.new store.new budget.new) }
    {
        let mut at = self.at;
        let mut left = *budget;
        while left > 0 && at < code.len() {
            match instr_at(code, at) {
                Instr::Plain(Op::LocalGet(index)) => get_local(&mut self.slots, *index)?,
                Instr::Plain(Op::LocalSet(index)) => set_local(&mut self.slots, *index),
                Instr::Plain(Op::LocalTee(index)) => tee_local(&mut self.slots, *index),
                Instr::Plain(Op::I32Const(value)) => put_constant(&mut self.slots, *value)?,
                Instr::Plain(Op::Numeric(op)) => {
                    if !never_traps(*op) {
                        break;
                    }
                    compute(&mut self.slots, *op);
                }
                _ => break,
            }
            at += 1;
            left -= 1;
        }
        self.at = at;
        *budget = left;
        Ok(())
    }
}
