//! A run, from a judged component to its lines: the instances are made, calls are made one after another, and what is seen of the host and
//! of each call is shown and counted. It is the same over any host.

ghost use Rattle.std.specs.Prelude.{◌≡◌, [], IfOk, OnOk, drop, map};
ghost use Rattle.comp_grammar.specs.Trees.{plain as plain_tree};
ghost use Rattle.host_script.specs.Script.{AreTyped, call_seen, exports_seen};
ghost use Rattle.component_judge.specs.Callable.{callable};
ghost use Rattle.script_lines.specs.Lines.{type_of};
ghost use Rattle.virt_engine.specs.Calling.{result_named};
ghost use Rattle.virt_engine.specs.Lines.{EndsBy};
ghost use Rattle.virt_engine.specs.Runners.{ShowsHost, ShowsEnd, Makes, CallsOn, Goes};
ghost use Rattle.virt_engine.specs.Shown.{CanRun, IsShown, ShowsRun};

use crate::ends::{end_by, seen_by};
use crate::lines::Lines;
use crate::tally::Tally;
use comp_interp::{Run, RunEnd};
use comp_linking::link;
use component_judge::Judged;
use host_port::{Host, Observation};
use host_script::{Call, ExportTypes};
use std::alloc::Global;
use virt_base::{NoMemory, Text};
use wit_types::WitType;

/// What is shown of a run.
#[derive(Drop)]
pub struct Shown {
    pub lines: Lines,
    pub tally: Tally,
    pub end: RunEnd,
}

/// The result type of the first function with a name.
fn result_named<'a>(exports: &'a ExportTypes, name: &Text) -> Option<&'a WitType>
    ensures { type_of result ≡ result_named name.now (exports_seen exports.now) }
{
    match exports.find(name.as_str()) {
        Some(export) => export.ty.result.as_ref(),
        None => None,
    }
}

/// What was seen after the first ones.
fn behind(seen: &[Observation], shown: usize) -> &[Observation]
    ensures { result.now ≡ drop shown seen.now }
{
    if shown < seen.len() {
        &seen[shown..]
    } else {
        &[]
    }
}

/// A component that runs, with the lines of what was seen so far.
#[derive(Drop)]
struct Runner<H> {
    run: Run<H>,
    lines: Lines,
    tally: Tally,
    /// How many of the host's observations stand among them.
    shown: usize,
}

impl<H: Host> Runner<H> {
    /// Adds what was seen of the host since then, and counts it.
    fn show_host(&mut self, alloc: Global) -> Result<(), NoMemory>
        ensures { OnOk result (ShowsHost H.step H.kept self.old self.new) }
    {
        let seen = self.run.host().observations().as_slice();
        let later = behind(seen, self.shown);
        self.lines.add_all(alloc, later)?;
        self.tally.count_all(later)?;
        self.shown = seen.len();
        Ok(())
    }

    /// Adds how a call came out, with a result of this type, and counts it.
    fn show_end(
        &mut self,
        alloc: Global,
        end: RunEnd,
        ty: Option<&WitType>,
    ) -> Result<RunEnd, NoMemory>
        ensures ends { IfOk result (EndsBy self.new.lines) }
        ensures adds { IfOk result (λ how. ShowsEnd H.step H.kept end (type_of ty.entry) self.old how self.new) }
    {
        let how = end_by(&end);
        let seen = seen_by(end);
        self.lines.add(alloc, &seen, ty)?;
        self.tally.count(&seen)?;
        Ok(how)
    }

    /// Makes the instances of the component.
    fn make(&mut self, alloc: Global) -> Result<RunEnd, NoMemory>
        ensures ends { IfOk result (EndsBy self.new.lines) }
        ensures told { IfOk result (λ how. Makes H.step H.kept self.old how self.new) }
    {
        let end = self.run.instantiate(alloc)?;
        self.show_host(alloc)?;
        match end {
            RunEnd::Returned(_) => Ok(RunEnd::Returned(None)),
            end => self.show_end(alloc, end, None),
        }
    }

    fn call(
        &mut self,
        alloc: Global,
        exports: &ExportTypes,
        call: &Call,
    ) -> Result<RunEnd, NoMemory>
        ensures ends { IfOk result (EndsBy self.new.lines) }
        ensures told { IfOk result (λ how. CallsOn H.step H.kept (exports_seen exports.now) (call_seen call.now) self.old how self.new) }
    {
        let end = self.run.call_export(alloc, &call.name, &call.args)?;
        self.show_host(alloc)?;
        self.show_end(alloc, end, result_named(exports, &call.name))
    }

    /// Makes the component and calls its exports, until all are called or one does not return.
    fn go(
        &mut self,
        alloc: Global,
        exports: &ExportTypes,
        calls: &[Call],
    ) -> Result<RunEnd, NoMemory>
        ensures ends { IfOk result (EndsBy self.new.lines) }
        ensures told { IfOk result (λ how. Goes H.step H.kept (exports_seen exports.now) (map call_seen calls.now) self.old how self.new) }
    {
        let made = self.make(alloc)?;
        match made {
            RunEnd::Returned(_) => {}
            end => return Ok(end),
        }
        for call in calls {
            let end = self.call(alloc, exports, call)?;
            match end {
                RunEnd::Returned(_) => {}
                end => return Ok(end),
            }
        }
        Ok(RunEnd::Returned(None))
    }
}

/// Runs a component, which exports these functions, over a host, in at most that many steps: it is made, and these calls of what it
/// exports are made, until one does not return. What is shown of the host is what it says that was seen of it.
pub fn run_component<H: Host + Drop>(
    alloc: Global,
    judged: Judged,
    functions: &ExportTypes,
    host: H,
    calls: &[Call],
    steps: u64,
) -> Result<Shown, NoMemory>
    requires can { CanRun judged }
    requires functions { exports_seen functions.now ≡ callable judged.ty.exports }
    ensures ends { IfOk result IsShown }
    ensures told { IfOk result (λ shown. (H.kept host).seen ≡ [] → AreTyped (callable judged.ty.exports) calls.now →
        ShowsRun (plain_tree judged.component) H.step (H.kept host).state (map call_seen calls.now) steps shown) }
{
    let Judged { component, .. } = judged;
    let linked = link(alloc, component)?;
    let mut runner = Runner {
        run: Run::new(alloc, linked, host, steps),
        lines: Lines::none(alloc),
        tally: Tally::none(),
        shown: 0,
    };
    let end = runner.go(alloc, functions, calls)?;
    Ok(Shown {
        lines: runner.lines,
        tally: runner.tally,
        end,
    })
}
