//! What a row does: handles stand for something else, what is made enters, and its answer is given.

ghost use Rattle.std.specs.Prelude.{◌≡◌, [], None, true, IfOk, IfSome, OnOk, option_map, slice_index_or, slice_set};
ghost use Rattle.host_port.specs.Calls.{plain_answer};
ghost use Rattle.wit_types.specs.PlainValue.{plain_values};
ghost use Rattle.tree_table.specs.Scratches.{ScratchMap};
ghost use Rattle.tree_table.specs.Tables.{Forest};
ghost use Rattle.reference_step.specs.State.{Reference};
ghost use Rattle.reference_step.specs.Steps as reference;
ghost use Rattle.ref_answers.specs.Seen.{live_in};
ghost use Rattle.ref_host_calls.specs.Requests.{IsNoted, listed_of, call_of};
ghost use Rattle.ref_scratch.specs.Told.{told};
ghost use Rattle.ref_virtual.specs.Acting.{Stays};
ghost use Rattle.ref_answers.specs.declared.row.Row.TheVariants.{Does};
ghost use Rattle.ref_rules.specs.Lives.{is_inside, standing_for};
ghost use Rattle.reference_host.specs.Made.{MayEnter, RowMayEnter, becomes_in, live_after, live_behind};

use host_port::{Answer, Host};
use ref_answers::{Effect, Row};
use ref_guards::{Standing, enter_value, note_result};
use ref_host_calls::Request;
use ref_rules::{Content, LiveHandles, id_of, part_at};
use std::alloc::Global;
use virt_base::NoMemory;
use wit_types::Values;

/// A handle stands for something else, if it is live.
fn stand_for(live: &mut LiveHandles, id: u32, content: Content)
    requires { is_inside live.old.files content ≡ true }
    ensures { live.new ≡ record live.old { handles = slice_set live.old.handles id (option_map (standing_for content) (slice_index_or live.old.handles id None)) } }
{
    match live.find(id) {
        None => {}
        Some(_) => live.replace(id, content),
    }
}

/// What the first handle of arguments stands for then, where the row says so.
fn become_content(live: &mut LiveHandles, args: &Values, becomes: Option<Content>)
    requires { IfSome becomes (λ content. is_inside live.old.files content ≡ true) }
    ensures { live.new ≡ record live.old { handles = becomes_in live.old.handles (plain_values args.now) becomes } }
{
    match becomes {
        None => {}
        Some(content) => stand_for(live, id_of(part_at(args, 0)), content),
    }
}

/// The effect of a row: the first handle may stand for something else, and what is made enters.
fn perform<H: Host>(
    alloc: Global,
    live: &mut LiveHandles,
    request: Request<'_>,
    effect: Effect,
) -> Result<Answer, NoMemory>
    requires noted { IsNoted request }
    requires enters { MayEnter request live.old effect }
    ensures does { IfOk result (λ a. (f : Forest) (r : Reference H.State) (m : ScratchMap) → reference.by_row H.step (record r { live = live_in f live.old.handles }) (listed_of request.entry) (call_of request.entry) (told f (Does effect) m) ≡ record { seen = []; answer = plain_answer a; next = record r { live = live_in f live.new.handles; scratch = m } }) }
    ensures entered { OnOk result (live.new ≡ live_after request.entry live.old effect) }
{
    let Effect {
        value,
        makes,
        becomes,
    } = effect;
    become_content(live, &request.call.args, becomes);
    let ty = &request.found.function.ty.result;
    let mut noted = Vec::new(alloc);
    note_result(ty, &value, &mut noted)?;
    let given = enter_value(
        alloc,
        live,
        Standing::Made(makes),
        ty,
        value,
        noted.as_slice(),
    )?;
    Ok(Answer::Value(given))
}

/// What is answered by a row.
pub fn perform_row<H: Host>(
    alloc: Global,
    live: &mut LiveHandles,
    request: Request<'_>,
    row: Row,
) -> Result<Answer, NoMemory>
    requires noted { IsNoted request }
    requires enters { RowMayEnter request live.old row }
    ensures does { IfOk result (λ a. (f : Forest) (r : Reference H.State) (m : ScratchMap) → Stays row m r.scratch → reference.by_row H.step (record r { live = live_in f live.old.handles }) (listed_of request.entry) (call_of request.entry) (told f row m) ≡ record { seen = []; answer = plain_answer a; next = record r { live = live_in f live.new.handles; scratch = m } }) }
    ensures entered { OnOk result (live.new ≡ live_behind request.entry live.old row) }
{
    match row {
        Row::Traps => Ok(Answer::Trap),
        Row::Does(effect) => perform::<H>(alloc, live, request, effect),
    }
}
