//! The code of a function, with the places to which its blocks lead. They are found once, when the code is made.

ghost use Rattle.std.specs.Prelude.{◌≡◌, ◌==◌, IfOk, IfSome, is_some, length};
ghost use Rattle.core_store.specs.Brackets.{ends_of};
ghost use Rattle.core_store.specs.Jumps.{Matches};

use crate::brackets::{Jump, lead};
use std::alloc::Global;
use std::marker::Model;
use virt_base::NoMemory;
use wasm_ast::{Instr, Instrs};

/// The instructions of a function's body, which contracts see as a list. The places to which blocks lead are found once.
#[derive(Debug, Drop)]
pub struct Code {
    code: Vec<Instr>,
    jumps: Vec<Jump>,
}

impl Model for Code {
    ghost use Rattle.std.specs.Prelude.{List};
    ghost use Rattle.wasm_ast.specs.declared.instr.Instr.{Instr};

    ghost Value = { List Instr };

    ghost use Rattle.core_store.specs.Jumps.{Matches};

    ghost view = { λ c. c.code.items };

    ghost invariant = { λ c. Matches c.code.items c.jumps.items };
}

impl Code {
    /// The code of a body, or none where a block has no end or an else stands alone.
    #[tactic(auto, using(crate::proofs::Places::kept_matches, crate::proofs::Places::kept_found))]
    pub fn new(alloc: Global, body: Instrs) -> Result<Option<Code>, NoMemory>
        ensures code { IfOk result (λ found. IfSome found (λ code. code ≡ body)) }
        ensures found { IfOk result (λ found. is_some found ≡ is_some (ends_of body)) }
    {
        let code = body.into_vec();
        let mut jumps = vec![in alloc; Jump {
            other: 0,
            behind: 0
        }; code.len()]?;
        let mut opens = Vec::new(alloc);
        let mut at = code.len();
        while at > 0 {
            at -= 1;
            match lead(&code, at, &code[at], &mut opens)? {
                Some(jump) => jumps[at] = jump,
                None => return Ok(None),
            }
        }
        Ok(Some(Code { code, jumps }))
    }

    /// The instructions.
    pub fn instrs(&self) -> &[Instr]
        ensures { result.now ≡ self.now }
    {
        &self.code
    }

    /// For each instruction the places to which it leads.
    pub fn jumps(&self) -> &[Jump]
        ensures { Matches self.now result.now }
    {
        &self.jumps
    }

    pub fn len(&self) -> usize
        ensures { result ≡ length self.now }
    {
        self.code.len()
    }

    pub fn is_empty(&self) -> bool
        ensures { result ≡ (length self.now == 0) }
    {
        self.code.is_empty()
    }
}
