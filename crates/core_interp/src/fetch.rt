//! What the code of a function names.

ghost use Rattle.std.specs.Prelude.{◌≡◌, ◌<◌, ◌+◌, ◌^◌, Some, IfOk, length, slice_get};
ghost use Rattle.core_store.specs.Jumps.{JumpsFrom};
ghost use Rattle.wasm_ast.specs.declared.instr.Instr.{Instr};
ghost use Rattle.core_store.specs.Config.{block_params as params_of_block, block_results as results_of_block, type_at as type_in};
ghost use Rattle.core_store.specs.Scene.{scene_of, code_at, spaces_at, IsInside};
ghost use Rattle.core_store.specs.Fine.{Place, IsBlock};

use core_store::{Code, CoreSpaces, Jump, Shared, Store, StoreFunc, function, spaces};
use virt_base::NoMemory;
use wasm_ast::{BlockType, CoreFunc, Instr};

/// The code of a function of a module, and the index spaces of its instance, which are held while the function runs.
#[derive(Drop)]
pub struct Scope {
    pub code: Shared<Code>,
    pub spaces: Shared<CoreSpaces>,
}

/// The scope of the function at a place.
#[tactic(auto, using(crate::proofs::Scenes::inside_within))]
pub fn scope_at(store: &Store, place: u32) -> Result<Scope, NoMemory>
    requires { IsInside (scene_of store.now) (slice_get store.now.functions place) }
    ensures code { IfOk result (λ scope. scope.code ≡ code_at (scene_of store.now) place) }
    ensures spaces { IfOk result (λ scope. scope.spaces ≡ spaces_at (scene_of store.now) place) }
{
    match function(store, place) {
        StoreFunc::Inside {
            ty: _,
            instance,
            locals: _,
            body,
        } => {
            let code = body.share()?;
            let spaces = spaces(store, *instance).share()?;
            Ok(Scope { code, spaces })
        }
        _ => unreachable!(),
    }
}

/// The instruction at a place of code.
#[inline]
pub fn instr_at(code: &Code, at: usize) -> &Instr
    requires { at < length code.now }
    ensures there { slice_get code.now at ≡ Some result.now }
    ensures small { at + 1 < 2 ^ 64 }
{
    let instrs = code.instrs();
    &instrs[at]
}

/// The places to which the instruction there leads.
#[inline]
pub fn jump_at(code: &Code, at: usize) -> Jump
    requires { at < length code.now }
    ensures leads { (i : Instr) → slice_get code.now at ≡ Some i → JumpsFrom code.now at i result }
{
    let jumps = code.jumps();
    jumps[at]
}

/// The place of an item that an index names.
#[inline]
fn item(space: &[u32], index: u32) -> u32
    requires { index < length space.now }
    ensures { slice_get space.now index ≡ Some result }
{
    space[index as usize]
}

#[inline]
#[tactic(auto, using(crate::proofs::Scenes::place_within, crate::proofs::Scenes::place_there))]
pub fn global_place(store: &Store, spaces: &CoreSpaces, index: u32) -> u32
    requires names { Place (length store.now.globals) spaces.now.globals index }
    ensures is { slice_get spaces.now.globals index ≡ Some result }
    ensures there { result < length store.now.globals }
{
    item(spaces.globals.as_slice(), index)
}

#[inline]
#[tactic(auto, using(crate::proofs::Scenes::place_within, crate::proofs::Scenes::place_there))]
pub fn table_place(store: &Store, spaces: &CoreSpaces, index: u32) -> u32
    requires names { Place (length store.now.tables) spaces.now.tables index }
    ensures is { slice_get spaces.now.tables index ≡ Some result }
    ensures there { result < length store.now.tables }
{
    item(spaces.tables.as_slice(), index)
}

/// The place of the memory of the instance of a function.
#[inline]
#[tactic(auto, using(crate::proofs::Scenes::place_within, crate::proofs::Scenes::place_there))]
pub fn memory_place(store: &Store, spaces: &CoreSpaces) -> u32
    requires names { Place (length store.now.memories) spaces.now.memories 0 }
    ensures is { slice_get spaces.now.memories 0 ≡ Some result }
    ensures there { result < length store.now.memories }
{
    item(spaces.memories.as_slice(), 0)
}

#[tactic(auto, using(crate::proofs::Scenes::place_within, crate::proofs::Scenes::place_there))]
pub fn segment_place(store: &Store, spaces: &CoreSpaces, index: u32) -> u32
    requires names { Place (length store.now.segments) spaces.now.segments index }
    ensures is { slice_get spaces.now.segments index ≡ Some result }
    ensures there { result < length store.now.segments }
{
    item(spaces.segments.as_slice(), index)
}

#[tactic(auto, using(crate::proofs::Scenes::place_within, crate::proofs::Scenes::place_there))]
pub fn element_place(store: &Store, spaces: &CoreSpaces, index: u32) -> u32
    requires names { Place (length store.now.elements) spaces.now.elements index }
    ensures is { slice_get spaces.now.elements index ≡ Some result }
    ensures there { result < length store.now.elements }
{
    item(spaces.elements.as_slice(), index)
}

#[inline]
#[tactic(auto, using(crate::proofs::Scenes::place_within, crate::proofs::Scenes::place_there))]
pub fn function_place(store: &Store, spaces: &CoreSpaces, index: u32) -> u32
    requires names { Place (length store.now.functions) spaces.now.functions index }
    ensures is { slice_get spaces.now.functions index ≡ Some result }
    ensures there { result < length store.now.functions }
{
    item(spaces.functions.as_slice(), index)
}

/// The function type at an index.
#[inline]
pub fn type_at(spaces: &CoreSpaces, index: u32) -> &CoreFunc
    requires { index < length spaces.now.types }
    ensures { result.now ≡ type_in spaces.now index }
{
    spaces.types.as_slice()[index as usize].get()
}

/// How many operands a block takes.
#[inline]
pub fn block_params(spaces: &CoreSpaces, ty: BlockType) -> usize
    requires { IsBlock spaces.now ty }
    ensures { result ≡ params_of_block spaces.now ty }
{
    match ty {
        BlockType::Empty => 0,
        BlockType::Value(_) => 0,
        BlockType::Index(index) => type_at(spaces, index).params.len(),
    }
}

/// How many operands a block leaves.
#[inline]
pub fn block_results(spaces: &CoreSpaces, ty: BlockType) -> usize
    requires { IsBlock spaces.now ty }
    ensures { result ≡ results_of_block spaces.now ty }
{
    match ty {
        BlockType::Empty => 0,
        BlockType::Value(_) => 1,
        BlockType::Index(index) => type_at(spaces, index).results.len(),
    }
}
