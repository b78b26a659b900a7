//! The top call: it reads the words, does what the command asks, and answers a status.

ghost use Rattle.std.specs.Prelude.{◌≡◌, true};
ghost use Rattle.std.specs.Prelude.{None, Some};
ghost use Rattle.virt_engine.specs.Command.{GenCommand, NoOther, PlugCommand, RunCommand, gen_of, names_of, plug_of, run_of};
ghost use Rattle.virt_engine.specs.Generating.{GenCompletes, GenDelivers, GenRan};
ghost use Rattle.virt_engine.specs.Plan.{Ran, RanCommand, Completes, Accepts, Delivers};
ghost use Rattle.virt_engine.specs.Plugging.{PlugAccepts, PlugCompletes, PlugDelivers, PlugRan};
ghost use Rattle.virt_engine.specs.Runs.{RunAccepts, RunCompletes, RunsBy};

use crate::command::{Names, Task, task_in};
use crate::finishing::finish;
use crate::generating::run_gen;
use crate::plan::plan;
use crate::plugging::run_plug;
use crate::report::refuse;
use crate::running::run_task;
use crate::status::Status;
use outside::{Files, Sink};
use std::alloc::Global;
use virt_base::Text;
use virt_words::{VirtWords, WordsFault};

fn virtualise<F: Files, S: Sink>(
    alloc: Global,
    names: Names<'_>,
    files: &mut F,
    out: &mut S,
) -> Status
    ensures { RanCommand (names_of names.entry) (F.state files.old) (F.state files.new) (S.state out.old) (S.state out.new) result }
{
    match plan(alloc, names, files) {
        Ok(ready) => finish(ready, names.out, files, out),
        Err(status) => refuse(alloc, status, out),
    }
}

fn do_words<F: Files, S: Sink>(alloc: Global, words: &[Text], files: &mut F, out: &mut S) -> Status
    ensures virt { NoOther words.now → Ran words.now (F.state files.old) (F.state files.new) (S.state out.old) (S.state out.new) result }
    ensures run { (c : RunCommand) → run_of words.now ≡ Some c → RunsBy c (F.state files.old) (F.state files.new) (S.state out.old) (S.state out.new) result }
    ensures made { (c : GenCommand) → gen_of words.now ≡ Some c → GenRan c (F.state files.old) (F.state files.new) (S.state out.old) (S.state out.new) result }
    ensures plugged { (c : PlugCommand) → plug_of words.now ≡ Some c → PlugRan c (F.state files.old) (F.state files.new) (S.state out.old) (S.state out.new) result }
{
    match task_in(alloc, words) {
        Ok(
            Task::Virt(
                VirtWords {
                    app,
                    policy,
                    out: name,
                },
            ),
        ) => {
            let names = Names {
                app: &app,
                policy: &policy,
                out: &name,
            };
            virtualise(alloc, names, files, out)
        }
        Ok(Task::Run(task)) => run_task(alloc, &task, files, out),
        Ok(Task::Gen(task)) => run_gen(alloc, &task, files, out),
        Ok(Task::Plug(task)) => run_plug(alloc, &task, files, out),
        Err(WordsFault::Usage) => refuse(alloc, Status::Usage, out),
        Err(WordsFault::NoMemory) => Status::NoMemory,
    }
}

/// Does what the words after the program's name say, the options in any order and form.
///
/// `virt APP -p POLICY -o OUT` writes to OUT the component APP in its adapter, and puts one line that says what came of it. POLICY is
/// read whole, and its trees are made of what it writes out and of the files and folders that it names. APP is any valid component that
/// imports listed interfaces alone and exports neither a resource type nor a handle.
///
/// `run COMPONENT -s SCRIPT [-p POLICY] [--steps N]` runs a component over a script, and puts a line for each call that the script
/// answers, each dropped handle of the script's and each result; the status says how it ended. COMPONENT is any valid component whose
/// imports are instances of functions and types and that exports neither a resource type nor a handle. With POLICY its imports have to
/// be listed ones: they are answered under the policy, whose trees are made after the reading of the script, and the script answers
/// what the policy asks of a host. Nothing is put before the run has ended.
///
/// `gen N OUT` makes a component of N functions, writes it in its adapter to OUT, runs it over the reference host of its policy, and puts
/// one line with the counts and the sum of the run (`generated`). Nothing is written before the run has ended.
///
/// `plug A B -p POLICY -o OUT` makes one component of two, and writes to OUT that component in its adapter, as `virt` writes an
/// application. The imports of B that A exports as instances are met by them; all other imports of both are asked for once each. A's
/// imports have to be listed ones, and so have those of B that A doesn't meet; B exports neither a resource type nor a handle, and at
/// least one of its imports is met. Neither component is limited by the code that it holds.
///
/// Other commands are usage errors.
pub fn wasi_virt<F: Files, S: Sink>(
    alloc: Global,
    words: &[Text],
    files: &mut F,
    out: &mut S,
) -> Status
    // why the status was due, what was put for it, and what has become of the files
    ensures ran { NoOther words.now → Ran words.now (F.state files.old) (F.state files.new) (S.state out.old) (S.state out.new) result }

    // the status is one that the contents call for, where nothing failed
    ensures complete { NoOther words.now → Completes words.now (F.state files.old) (F.state files.new) (S.state out.old) (S.state out.new) result }
    ensures accepts { NoOther words.now → Accepts words.now (F.state files.old) (F.state files.new) (S.state out.old) (S.state out.new) result }
    ensures delivers { NoOther words.now → (F.state files.old).told ≡ true → result ≡ Status.Done → Delivers words.now (F.state files.old) (F.state files.new) }

    // of a run
    ensures runs { (c : RunCommand) → run_of words.now ≡ Some c → RunsBy c (F.state files.old) (F.state files.new) (S.state out.old) (S.state out.new) result }
    ensures run_completes { (c : RunCommand) → run_of words.now ≡ Some c → RunCompletes c (F.state files.old) (F.state files.new) (S.state out.old) (S.state out.new) result }
    ensures run_accepts { (c : RunCommand) → run_of words.now ≡ Some c → RunAccepts c (F.state files.old) (F.state files.new) (S.state out.old) (S.state out.new) result }

    // of a component that is generated
    ensures made { (c : GenCommand) → gen_of words.now ≡ Some c → GenRan c (F.state files.old) (F.state files.new) (S.state out.old) (S.state out.new) result }
    ensures made_completes { (c : GenCommand) → gen_of words.now ≡ Some c → GenCompletes c (F.state files.old) (F.state files.new) (S.state out.old) (S.state out.new) result }
    ensures made_delivers { (c : GenCommand) → gen_of words.now ≡ Some c → (F.state files.old).told ≡ true → result ≡ Status.Done → GenDelivers c (F.state files.old) (F.state files.new) }

    // of two components that are made one
    ensures plugged { (c : PlugCommand) → plug_of words.now ≡ Some c → PlugRan c (F.state files.old) (F.state files.new) (S.state out.old) (S.state out.new) result }
    ensures plug_completes { (c : PlugCommand) → plug_of words.now ≡ Some c → PlugCompletes c (F.state files.old) (F.state files.new) (S.state out.old) (S.state out.new) result }
    ensures plug_accepts { (c : PlugCommand) → plug_of words.now ≡ Some c → PlugAccepts c (F.state files.old) (F.state files.new) (S.state out.old) (S.state out.new) result }
    ensures plug_delivers { (c : PlugCommand) → plug_of words.now ≡ Some c → (F.state files.old).told ≡ true → result ≡ Status.Done → PlugDelivers c (F.state files.old) (F.state files.new) }
{
    do_words(alloc, words, files, out)
}
