//! The answer of a call that passed the tests: by the host, or by a row.

ghost use Rattle.std.specs.Prelude.{◌≡◌, [], false, length, IfOk, OnOk};
ghost use Rattle.host_port.specs.Calls.{plain_answer};
ghost use Rattle.tree_table.specs.Trees.{AreTrees};
ghost use Rattle.reference_step.specs.Rows.{row_of};
ghost use Rattle.reference_step.specs.State.{view_of};
ghost use Rattle.reference_step.specs.Steps.{answered, by_row, hosted, is_folders, virtual};
ghost use Rattle.ref_host_calls.specs.Reactions.{HostIsTyped, IsReaction};
ghost use Rattle.ref_host_calls.specs.Requests.{listed_of, call_of};
ghost use Rattle.reference_host.specs.Asked.{HasRoom, IsAsked};
ghost use Rattle.reference_host.specs.Kept.{IsHolding, IsSetting, file_limit, reference_at};
ghost use Rattle.reference_host.specs.Reaching.{TypedIfAsked};

use crate::performing::perform_row;
use crate::state_kept::{Holding, Setting};
use crate::testing::{asks_host, is_environment, is_folders};
use host_port::{Answer, Host};
use policy_data::Scratch;
use ref_host_calls::{Folders, Request, ask_folders, ask_host, ask_variables, own_folders};
use ref_virtual::row_of;
use std::alloc::Global;
use tree_table::Trees;
use virt_base::NoMemory;

/// How many files may be in the scratch folder.
fn file_limit(scratch: &Option<Scratch>) -> u32
    ensures { result ≡ file_limit scratch.now }
{
    match scratch {
        None => 0,
        Some(scratch) => scratch.files,
    }
}

fn tree_count(trees: &Trees) -> u32
    requires { AreTrees trees.now }
    ensures { result ≡ length trees.now }
{
    trees.len() as u32
}

/// Fourth, the host.
fn hosted<H: Host>(
    alloc: Global,
    setting: &Setting,
    holding: &mut Holding,
    inner: &mut H,
    request: Request<'_>,
) -> Result<Answer, NoMemory>
    requires setting { IsSetting setting.now }
    requires holding { IsHolding setting.now holding.old }
    requires asked { IsAsked setting.now request }
    requires room { HasRoom setting.now holding.old request }
    ensures reaction { IfOk result (λ a. IsReaction (hosted H.step (reference_at setting.now holding.old (H.kept inner.old).state) (listed_of request.entry) (call_of request.entry)) (plain_answer a) (reference_at setting.now holding.new (H.kept inner.new).state) (H.kept inner.old).seen (H.kept inner.new).seen) }
    ensures keeps { OnOk result (IsHolding setting.now holding.new) }
    ensures typed { OnOk result (HostIsTyped H.step (reference_at setting.now holding.old (H.kept inner.old).state) (listed_of request.entry) (call_of request.entry)) }
{
    if is_environment::<H>(request.found) {
        ask_variables(alloc, &holding.live, inner, request)
    } else if is_folders::<H>(request.found) {
        let folders = Folders {
            policy: &setting.policy,
            trees: &setting.trees,
            listed: &setting.listed,
        };
        ask_folders(alloc, folders, &mut holding.live, inner, request)
    } else {
        ask_host(alloc, &mut holding.live, inner, request)
    }
}

/// The row of a function that is no `get-directories`.
fn by_row<H: Host>(
    alloc: Global,
    setting: &Setting,
    holding: &mut Holding,
    request: Request<'_>,
) -> Result<Answer, NoMemory>
    requires setting { IsSetting setting.now }
    requires holding { IsHolding setting.now holding.old }
    requires asked { IsAsked setting.now request }
    requires room { HasRoom setting.now holding.old request }
    requires others { is_folders H.step (listed_of request) ≡ false }
    ensures answer { IfOk result (λ a. (s : H.State) → by_row H.step (reference_at setting.now holding.old s) (listed_of request.entry) (call_of request.entry) (row_of (listed_of request.entry).interface (listed_of request.entry).function.name (view_of (reference_at setting.now holding.old s)) (call_of request.entry).args) ≡ record { seen = []; answer = plain_answer a; next = reference_at setting.now holding.new s }) }
    ensures keeps { OnOk result (IsHolding setting.now holding.new) }
{
    let found = request.found;
    let row = row_of(
        alloc,
        &setting.policy,
        &setting.table,
        tree_count(&setting.trees),
        &mut holding.folder,
        file_limit(&setting.policy.fs_scratch),
        &holding.live,
        found.interface,
        found.function.name.as_str(),
        &request.call.args,
    )?;
    perform_row::<H>(alloc, &mut holding.live, request, row)
}

/// Fifth, what is answered without it.
fn unasked<H: Host>(
    alloc: Global,
    setting: &Setting,
    holding: &mut Holding,
    inner: &mut H,
    request: Request<'_>,
) -> Result<Answer, NoMemory>
    requires setting { IsSetting setting.now }
    requires holding { IsHolding setting.now holding.old }
    requires asked { IsAsked setting.now request }
    requires room { HasRoom setting.now holding.old request }
    ensures reaction { IfOk result (λ a. IsReaction (virtual H.step (reference_at setting.now holding.old (H.kept inner.old).state) (listed_of request.entry) (call_of request.entry)) (plain_answer a) (reference_at setting.now holding.new (H.kept inner.new).state) (H.kept inner.old).seen (H.kept inner.new).seen) }
    ensures keeps { OnOk result (IsHolding setting.now holding.new) }
{
    if is_folders::<H>(request.found) {
        let folders = Folders {
            policy: &setting.policy,
            trees: &setting.trees,
            listed: &setting.listed,
        };
        own_folders(alloc, folders, &mut holding.live, inner)
    } else {
        by_row::<H>(alloc, setting, holding, request)
    }
}

/// The answer of a call that is not denied.
pub fn answered<H: Host>(
    alloc: Global,
    setting: &Setting,
    holding: &mut Holding,
    inner: &mut H,
    request: Request<'_>,
) -> Result<Answer, NoMemory>
    requires setting { IsSetting setting.now }
    requires holding { IsHolding setting.now holding.old }
    requires asked { IsAsked setting.now request }
    requires room { HasRoom setting.now holding.old request }
    ensures reaction { IfOk result (λ a. IsReaction (answered H.step (reference_at setting.now holding.old (H.kept inner.old).state) (listed_of request.entry) (call_of request.entry)) (plain_answer a) (reference_at setting.now holding.new (H.kept inner.new).state) (H.kept inner.old).seen (H.kept inner.new).seen) }
    ensures keeps { OnOk result (IsHolding setting.now holding.new) }
    ensures typed { OnOk result (TypedIfAsked H.step (reference_at setting.now holding.old (H.kept inner.old).state) (listed_of request.entry) (call_of request.entry)) }
{
    if asks_host::<H>(&holding.live, request) {
        hosted(alloc, setting, holding, inner, request)
    } else {
        unasked(alloc, setting, holding, inner, request)
    }
}
