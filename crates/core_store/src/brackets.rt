//! The places to which blocks lead, found in one walk from the last instruction to the first.

ghost use Rattle.std.specs.Prelude.{◌≡◌, ◌<◌, ◌+◌, IfOk, IfSome, Some, None, is_some, if◌then◌else◌, length, slice_get, reverse, drop};
ghost use Rattle.core_store.specs.Tree.{parts};
ghost use Rattle.core_store.specs.Jumps.{JumpsFrom};
ghost use Rattle.core_store.specs.Brackets.{Opens, shape_of, opened, flags};

use virt_base::NoMemory;
use wasm_ast::Instr;

/// Where a block leads: to the start of its else part, and after its end. An else leads after the end of its block.
#[derive(Debug, Clone, Copy, PartialEq, Eq)]
pub struct Jump {
    pub other: usize,
    pub behind: usize,
}

/// A block whose end was read: where its else part begins, and the place after its end.
#[derive(Clone, Copy)]
pub struct Open {
    pub other: usize,
    pub behind: usize,
    pub has_else: bool,
}

/// What an instruction is among the brackets.
#[derive(Clone, Copy)]
pub enum Shape {
    Opener,
    Middle,
    Closer,
    Inner,
}

fn bracket(instr: &Instr) -> Shape
    ensures { result ≡ shape_of instr.now }
{
    match instr {
        Instr::Block(_) => Shape::Opener,
        Instr::Loop(_) => Shape::Opener,
        Instr::If(_) => Shape::Opener,
        Instr::Else => Shape::Middle,
        Instr::End => Shape::Closer,
        _ => Shape::Inner,
    }
}

/// Where an instruction leads, or none where its block has no end or it is an else that stands alone.
#[tactic(auto, using(crate::proofs::Places::opened_alone, crate::proofs::Places::opened_never, crate::proofs::Places::no_flags))]
pub fn lead(
    code: &[Instr],
    at: usize,
    instr: &Instr,
    opens: &mut Vec<Open>,
) -> Result<Option<Jump>, NoMemory>
    requires there { slice_get code.now at ≡ Some instr.now }
    requires within { at < length code.now }
    requires opens { Opens code.now (reverse opens.old.items) (parts (drop (at + 1) code.now)) }
    ensures opens { IfOk result (λ found. IfSome found (λ _. Opens code.now (reverse opens.new.items) (parts (drop at code.now)))) }
    ensures leads { IfOk result (λ found. IfSome found (λ jump. JumpsFrom code.now at instr.now jump)) }
    ensures ends { IfOk result (λ found. opened (shape_of instr.now) (flags (reverse opens.old.items)) ≡ (if is_some found then Some (flags (reverse opens.new.items)) else None)) }
{
    let here = Jump {
        other: at,
        behind: at,
    };
    match bracket(instr) {
        Shape::Closer => {
            opens.push(Open {
                other: at,
                behind: at + 1,
                has_else: false,
            })?;
            Ok(Some(here))
        }
        Shape::Middle => match opens.pop() {
            Some(open) => {
                if open.has_else {
                    return Ok(None);
                }
                opens.push(Open {
                    other: at + 1,
                    behind: open.behind,
                    has_else: true,
                })?;
                Ok(Some(Jump {
                    other: at,
                    behind: open.behind,
                }))
            }
            None => Ok(None),
        },
        Shape::Opener => match opens.pop() {
            Some(open) => Ok(Some(Jump {
                other: open.other,
                behind: open.behind,
            })),
            None => Ok(None),
        },
        Shape::Inner => Ok(Some(here)),
    }
}
