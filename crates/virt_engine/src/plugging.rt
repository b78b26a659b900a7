//! `plug`: two components are made one, which is wrapped as an application is.

ghost use Rattle.std.specs.Prelude.{◌≡◌};
ghost use Rattle.virt_engine.specs.Command.{pair_of, plug_by};
ghost use Rattle.virt_engine.specs.Pairs.{fault_by};
ghost use Rattle.virt_engine.specs.Parted.{
  AsksFirst,
  FetchesPart,
  IsSoundHalf,
  IsSoundPart,
  MeetsSecond,
  PlugsParts,
  ReadsPart,
  first_status,
  plugged_as,
  second_status,
};
ghost use Rattle.virt_engine.specs.Plugging.{FetchesPair, PlansPlug, PlugRan};

use crate::command::PairNames;
use crate::finishing::finish;
use crate::plan::{Ready, ready_for};
use crate::policy::fetch_policy;
use crate::report::refuse;
use crate::status::{PlugFault, Status};
use crate::trees::make_trees;
use component_judge::{
    APPLICATION_BYTES, Application, Fetched, Judged, Purpose, Refusal, Unready, fetch,
    sound_component,
};
use outside::{Files, Sink};
use plug_compose::{Half, Plugged, plug};
use plug_match::{First, Second, SecondFault, match_first, match_second};
use std::alloc::Global;
use virt_base::{AppFault, NoMemory, Text};
use virt_words::PlugWords;
use wasi_match::{Cause, MatchFault};

/// What a file within its limits holds: a component, or what is at fault with it.
#[derive(Drop)]
enum Part {
    Sound(Half),
    AtFault(AppFault),
}

/// The component that these bytes spell. Only what is too large is refused at once: other faults are told after both files were read.
fn part_of(alloc: Global, bytes: Vec<u8>) -> Result<Part, Refusal>
    ensures { ReadsPart bytes.items result }
{
    match sound_component(alloc, Purpose::Virt, bytes.as_slice()) {
        Ok(Judged { component, ty }) => Ok(Part::Sound(Half {
            component,
            ty,
            bytes,
        })),
        Err(Refusal::Refused(fault)) => Ok(Part::AtFault(fault)),
        Err(Refusal::OverLimit(what, value)) => Err(Refusal::OverLimit(what, value)),
        Err(Refusal::BadScript(path)) => Err(Refusal::BadScript(path)),
        Err(Refusal::NoMemory) => Err(Refusal::NoMemory),
    }
}

/// What a file holds that is to be a part.
fn fetch_part<F: Files>(alloc: Global, name: &Text, files: &mut F) -> Result<Part, Unready>
    ensures { FetchesPart name.now (F.state files.old) (F.state files.new) result }
{
    let bytes = fetch(alloc, name, "application-bytes", APPLICATION_BYTES, files)?;
    match part_of(alloc, bytes) {
        Ok(part) => Ok(part),
        Err(refusal) => Err(Unready::Refused(refusal)),
    }
}

/// The first component, and what it asks of the host.
#[derive(Drop)]
struct Asking {
    half: Half,
    asked: First,
}

fn refused_first(fault: MatchFault) -> Status
    ensures { result ≡ first_status fault }
{
    let fault = match fault {
        MatchFault::Unlisted(name) => AppFault::Unlisted(name),
        MatchFault::TwoVersions(name) => AppFault::TwoVersions(name),
        MatchFault::WrongType(name) => AppFault::WrongType(name),
        MatchFault::HandleExport(name) => AppFault::HandleExport(name),
        MatchFault::NoMemory => return Status::NoMemory,
    };
    Status::PlugRefused(PlugFault::First(fault))
}

/// The first part, if it is sound and imports listed interfaces alone.
fn first_of(alloc: Global, part: Part) -> Result<Asking, Status>
    requires { IsSoundPart part }
    ensures { AsksFirst part result }
{
    match part {
        Part::AtFault(fault) => Err(Status::PlugRefused(PlugFault::First(fault))),
        Part::Sound(half) => match match_first(alloc, &half.ty) {
            Ok(asked) => Ok(Asking { half, asked }),
            Err(fault) => Err(refused_first(fault)),
        },
    }
}

/// The second component, and where each of its imports comes from.
#[derive(Drop)]
struct Joining {
    half: Half,
    joined: Second,
}

fn fault_at(cause: Cause, name: Text) -> AppFault
    ensures { result ≡ fault_by cause name }
{
    match cause {
        Cause::Unlisted => AppFault::Unlisted(name),
        Cause::TwoVersions => AppFault::TwoVersions(name),
        Cause::WrongType => AppFault::WrongType(name),
        Cause::HandleExport => AppFault::HandleExport(name),
    }
}

fn refused_second(fault: SecondFault) -> Status
    ensures { result ≡ second_status fault }
{
    match fault {
        SecondFault::Refused(cause, name) => {
            Status::PlugRefused(PlugFault::Second(fault_at(cause, name)))
        }
        SecondFault::NothingMet => Status::PlugRefused(PlugFault::NothingMet),
        SecondFault::NoMemory => Status::NoMemory,
    }
}

/// The second part, if it is sound and can be plugged into the first.
fn second_of(alloc: Global, asking: &Asking, part: Part) -> Result<Joining, Status>
    requires first { IsSoundHalf asking.now.half }
    requires second { IsSoundPart part }
    ensures { MeetsSecond asking.now part result }
{
    match part {
        Part::AtFault(fault) => Err(Status::PlugRefused(PlugFault::Second(fault))),
        Part::Sound(half) => {
            let given = &asking.half.ty.exports;
            match match_second(alloc, &asking.asked, given, &half.ty) {
                Ok(joined) => Ok(Joining { half, joined }),
                Err(fault) => Err(refused_second(fault)),
            }
        }
    }
}

/// What was plugged, as an application that was read.
fn as_fetched(plugged: Plugged) -> Fetched
    ensures { plugged_as result ≡ plugged }
{
    let Plugged {
        bytes,
        component,
        ty,
        listed,
    } = plugged;
    Fetched {
        bytes,
        application: Application {
            judged: Judged { component, ty },
            listed,
        },
    }
}

/// Both parts in one. A failed check of what was made, and a size that 32 bits can't tell, count as running out of memory.
fn plug_parts(alloc: Global, first: Part, second: Part) -> Result<Fetched, Status>
    requires first { IsSoundPart first }
    requires second { IsSoundPart second }
    ensures { PlugsParts first second result }
{
    let asking = first_of(alloc, first)?;
    let joining = second_of(alloc, &asking, second)?;
    let Asking { half: first, asked } = asking;
    let Joining {
        half: second,
        joined,
    } = joining;
    match plug(alloc, first, &asked, second, &joined) {
        Ok(plugged) => Ok(as_fetched(plugged)),
        Err(_) => Err(Status::NoMemory),
    }
}

/// Reads both components, the first before the second, and makes them one.
fn fetch_pair<F: Files>(
    alloc: Global,
    first: &Text,
    second: &Text,
    files: &mut F,
) -> Result<Fetched, Status>
    ensures { FetchesPair first.now second.now (F.state files.old) (F.state files.new) result }
{
    let first = fetch_part(alloc, first, files)?;
    let second = fetch_part(alloc, second, files)?;
    plug_parts(alloc, first, second)
}

/// Reads the policy and both components, makes these one and then the policy's trees, and makes all that the call needs from then on.
fn plan_plug<F: Files>(alloc: Global, names: PairNames<'_>, files: &mut F) -> Result<Ready, Status>
    ensures { PlansPlug (pair_of names.entry) (F.state files.old) (F.state files.new) result }
{
    let policy = fetch_policy(alloc, names.policy, files)?;
    let whole = fetch_pair(alloc, names.first, names.second, files)?;
    let trees = make_trees(alloc, &policy, files)?;
    match ready_for(alloc, &policy, &trees, whole, names.out) {
        Ok(ready) => Ok(ready),
        Err(NoMemory) => Err(Status::NoMemory),
    }
}

/// Makes two components one, writes that in its adapter, and puts one line that says what came of it.
pub fn run_plug<F: Files, S: Sink>(
    alloc: Global,
    task: &PlugWords,
    files: &mut F,
    out: &mut S,
) -> Status
    ensures { PlugRan (plug_by task.now) (F.state files.old) (F.state files.new) (S.state out.old) (S.state out.new) result }
{
    let names = PairNames {
        first: &task.first,
        second: &task.second,
        policy: &task.policy,
        out: &task.out,
    };
    match plan_plug(alloc, names, files) {
        Ok(ready) => finish(ready, names.out, files, out),
        Err(status) => refuse(alloc, status, out),
    }
}
