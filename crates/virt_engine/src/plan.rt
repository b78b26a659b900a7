//! What `virt` does before it writes: both files are read, and the parts of the output and the texts of either end are made. All memory is
//! taken here.

ghost use Rattle.std.specs.Prelude.{◌≡◌, ◌+◌, IfOk, IfSome, string_bytes};
ghost use Rattle.comp_grammar.specs.Trees.{plain};
ghost use Rattle.comp_signature.specs.Signatures.{component_signature};
ghost use Rattle.compose.specs.Composed.{IsComposed};
ghost use Rattle.tree_table.specs.Trees.{AreTrees};
ghost use Rattle.virt_engine.specs.Command.{names_of};
ghost use Rattle.virt_engine.specs.Line.{done_text, status_text};
ghost use Rattle.virt_engine.specs.Parts.{AreParts, IsAround, Prepares, is_end};
ghost use Rattle.virt_engine.specs.Plan.{Plans};

use crate::app::fetch_app;
use crate::command::Names;
use crate::line::{done_line, line_of};
use crate::policy::fetch_policy;
use crate::status::Status;
use crate::trees::make_trees;
use comp_signature::ComponentType;
use component_judge::{Application, Fetched, Judged};
use compose::{Composed, compose};
use outside::Files;
use policy_data::Policy;
use std::alloc::{AllocError, Global};
use tree_table::Trees;
use virt_base::{NoMemory, Text};
use virt_output::{Around, write_around};

/// All that a call needs once both files were read: the parts of the output, and the text of each end.
#[derive(Drop)]
pub struct Ready {
    pub front: Vec<u8>,
    pub app: Vec<u8>,
    pub back: Vec<u8>,
    pub done_line: String,
    pub fault: Status,
    pub fault_line: String,
}

fn imports_nothing(ty: &ComponentType) -> bool
    ensures { result ≡ is_end ty.now.imports }
{
    match ty.imports.as_slice() {
        [] => true,
        [_, ..] => false,
    }
}

/// What stands around an application that imports nothing. An output that no size can tell counts as out of memory: its application has
/// more exports, or longer names, than the limit on applications lets in.
fn parts_alone(alloc: Global, ty: &ComponentType, size: usize) -> Result<Composed, NoMemory>
    ensures { IfOk result (IsAround ty.now.exports size) }
{
    match write_around(alloc, size, &ty.exports) {
        Ok(Around { front, back }) => Ok(Composed {
            front,
            back,
            needed: 0,
        }),
        Err(_) => Err(NoMemory),
    }
}

/// What stands around an application with imports. Each fault of composing counts as out of memory: also a check of what was made
/// that failed, and a size that 32 bits cannot tell.
fn parts_beside(
    alloc: Global,
    policy: &Policy,
    trees: &Trees,
    application: Application,
    size: usize,
) -> Result<Composed, NoMemory>
    requires { AreTrees trees.now }
    ensures { IfOk result (IsComposed policy.now (plain application.judged.component) application.listed.uses application.judged.ty.exports size) }
{
    let Application { judged, listed } = application;
    let Judged { component, ty } = judged;
    match compose(alloc, policy, trees, component, &ty, &listed, size) {
        Ok(parts) => Ok(parts),
        Err(_) => Err(NoMemory),
    }
}

/// What stands around an application of that many bytes.
fn parts_for(
    alloc: Global,
    policy: &Policy,
    trees: &Trees,
    application: Application,
    size: usize,
) -> Result<Composed, NoMemory>
    requires { AreTrees trees.now }
    ensures { IfOk result (AreParts policy.now (plain application.judged.component) application.listed.uses (component_signature application.judged.ty) size) }
{
    if imports_nothing(&application.judged.ty) {
        parts_alone(alloc, &application.judged.ty, size)
    } else {
        parts_beside(alloc, policy, trees, application, size)
    }
}

/// How many bytes three parts have together, where a number can tell it.
fn total(front: usize, middle: usize, back: usize) -> Option<usize>
    ensures { IfSome result (λ n. n ≡ front + (middle + back)) }
{
    let behind = middle.checked_add(back)?;
    front.checked_add(behind)
}

fn lines_for(
    alloc: Global,
    out: &Text,
    in_bytes: usize,
    out_bytes: usize,
    functions: usize,
) -> Result<(String, Status, String), AllocError>
    ensures done { IfOk result (λ p. string_bytes p.0 ≡ done_text in_bytes out_bytes functions) }
    ensures fault { IfOk result (λ p. p.1 ≡ Status.FileFault out.now) }
    ensures line { IfOk result (λ p. string_bytes p.2 ≡ status_text (Status.FileFault out.now)) }
{
    let done = done_line(alloc, in_bytes, out_bytes, functions)?;
    let fault = match out.copy(alloc) {
        Ok(name) => Status::FileFault(name),
        Err(_) => return Err(AllocError),
    };
    let line = line_of(alloc, &fault)?;
    Ok((done, fault, line))
}

/// The parts of the output of an application, and the texts of a call that writes it.
pub fn ready_for(
    alloc: Global,
    policy: &Policy,
    trees: &Trees,
    app: Fetched,
    out: &Text,
) -> Result<Ready, NoMemory>
    requires { AreTrees trees.now }
    ensures { IfOk result (Prepares policy.now app out.now) }
{
    let Fetched {
        bytes: app,
        application,
    } = app;
    let parts = parts_for(alloc, policy, trees, application, app.len())?;
    let Some(out_bytes) = total(parts.front.len(), app.len(), parts.back.len()) else {
        return Err(NoMemory);
    };
    let (done_line, fault, fault_line) = lines_for(
        alloc,
        out,
        app.len(),
        out_bytes,
        parts.needed as usize,
    )?;
    let Composed { front, back, .. } = parts;
    Ok(Ready {
        front,
        app,
        back,
        done_line,
        fault,
        fault_line,
    })
}

/// Reads the policy and the application, makes the policy's trees, and makes all that the call needs from then on.
pub fn plan<F: Files>(alloc: Global, names: Names<'_>, files: &mut F) -> Result<Ready, Status>
    ensures { Plans (names_of names.entry) (F.state files.old) (F.state files.new) result }
{
    let policy = fetch_policy(alloc, names.policy, files)?;
    let app = fetch_app(alloc, names.app, files)?;
    let trees = make_trees(alloc, &policy, files)?;
    match ready_for(alloc, &policy, &trees, app, names.out) {
        Ok(ready) => Ok(ready),
        Err(NoMemory) => Err(Status::NoMemory),
    }
}
