//! Blocks, loops and choices begin.

ghost use Rattle.std.specs.Prelude.{◌≡◌, ◌+◌, ◌≤◌, IfOk, length};
ghost use Rattle.core_interp.specs.Run.{IsBefore, Leads, Remains, steps};
ghost use Rattle.core_store.specs.Scene.{scene_of, code_at, spaces_at};

use crate::control::{Control, Flow};
use crate::fetch::{block_params, block_results, jump_at};
use crate::operands::low;
use crate::running::Running;
use core_store::{Code, CoreSpaces, Store};
use virt_base::NoMemory;
use wasm_ast::{BlockType, Instr};

impl Running {
    /// A block begins.
    pub fn block(
        &mut self,
        code: &Code,
        spaces: &CoreSpaces,
        store: &Store,
        ty: BlockType,
    ) -> Result<Flow, NoMemory>
        requires before { IsBefore (Instr.Block ty) self.old store.now }
        requires code { code.now ≡ code_at (scene_of store.now) self.old.function }
        requires spaces { spaces.now ≡ spaces_at (scene_of store.now) self.old.function }
        ensures leads { IfOk result (λ flow. Leads (steps self.old store.now) flow self.new store.now) }
        ensures entry { IfOk result (λ flow. Remains flow self.old self.new) }
        ensures grows { IfOk result (λ _. length self.new.controls.items ≤ length self.old.controls.items + 1) }
    {
        let params = block_params(spaces, ty);
        let arity = block_results(spaces, ty);
        let to = jump_at(code, self.at).behind;
        let height = self.slots.height() - params;
        self.controls.push(Control::Label { to, arity, height })?;
        self.at += 1;
        Ok(Flow::On)
    }

    /// A loop begins. A branch to its label begins it again.
    pub fn begin_loop(
        &mut self,
        spaces: &CoreSpaces,
        store: &Store,
        ty: BlockType,
    ) -> Result<Flow, NoMemory>
        requires before { IsBefore (Instr.Loop ty) self.old store.now }
        requires spaces { spaces.now ≡ spaces_at (scene_of store.now) self.old.function }
        ensures leads { IfOk result (λ flow. Leads (steps self.old store.now) flow self.new store.now) }
        ensures entry { IfOk result (λ flow. Remains flow self.old self.new) }
        ensures grows { IfOk result (λ _. length self.new.controls.items ≤ length self.old.controls.items + 1) }
    {
        let arity = block_params(spaces, ty);
        let to = self.at;
        let height = self.slots.height() - arity;
        self.controls.push(Control::Label { to, arity, height })?;
        self.at += 1;
        Ok(Flow::On)
    }

    /// A choice.
    pub fn begin_if(
        &mut self,
        code: &Code,
        spaces: &CoreSpaces,
        store: &Store,
        ty: BlockType,
    ) -> Result<Flow, NoMemory>
        requires before { IsBefore (Instr.If ty) self.old store.now }
        requires code { code.now ≡ code_at (scene_of store.now) self.old.function }
        requires spaces { spaces.now ≡ spaces_at (scene_of store.now) self.old.function }
        ensures leads { IfOk result (λ flow. Leads (steps self.old store.now) flow self.new store.now) }
        ensures entry { IfOk result (λ flow. Remains flow self.old self.new) }
        ensures grows { IfOk result (λ _. length self.new.controls.items ≤ length self.old.controls.items + 1) }
    {
        let params = block_params(spaces, ty);
        let arity = block_results(spaces, ty);
        let jump = jump_at(code, self.at);
        let test = low(self.slots.pop());
        let height = self.slots.height() - params;
        let to = jump.behind;
        self.controls.push(Control::Label { to, arity, height })?;
        if test == 0 {
            self.at = jump.other;
            return Ok(Flow::On);
        }
        self.at += 1;
        Ok(Flow::On)
    }
}
