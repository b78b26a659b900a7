//! The reading of words: `clap` matches them with the command that the first word names, and what was found becomes a value.

ghost use Rattle.std.specs.Prelude.{◌≡◌, IfOk, codes, option_map, true};
ghost use Rattle.clap.specs.Words.{app_of, first_value, found_of, is_simple, is_simple_and_free, kind_of};
ghost use Rattle.virt_words.specs.Words.{Matches, Reads, command_of, gen_from, gen_words, inspect_from, inspect_words, plug_from, plug_words, run_from, run_words, steps_in, virt_from, virt_words};

use crate::apps::{gen_command, inspect_command, plug_command, run_command, virt_command};
use crate::command::{Command, GenWords, InspectWords, PlugWords, RunWords, VirtWords, WordsFault};
use crate::numbers::number_in;
use clap::error::ErrorKind;
use clap::{ArgMatches, Error};
use std::alloc::Global;
use virt_base::{NoMemory, Text};

/// The most steps of a run, and how many it may take where the words say nothing.
const MOST_STEPS: u64 = 10_000_000_000;

const STEPS: u64 = 10_000_000;

/// The most functions of a component that is made.
const MOST_FUNCTIONS: u64 = 1_000;

/// Out of memory, or words that are refused.
fn fault_from(e: &Error) -> WordsFault
    ensures memory { result ≡ WordsFault.NoMemory → kind_of e.now ≡ ErrorKind.OutOfMemory }
    ensures usage { result ≡ WordsFault.Usage → kind_of e.now ≡ ErrorKind.OutOfMemory → ⊥ }
{
    match e.kind() {
        ErrorKind::OutOfMemory => WordsFault::NoMemory,
        _ => WordsFault::Usage,
    }
}

/// What a command makes of words.
fn matches_of<'a>(
    command: clap::Command<'a>,
    words: &'a [Text],
) -> Result<ArgMatches<'a>, WordsFault>
    requires simple { is_simple (app_of command) ≡ true }
    requires free { is_simple_and_free (app_of command) ≡ true }
    ensures { Matches (app_of command.entry) words.entry.now result }
{
    match command.try_get_matches_from(words) {
        Ok(matches) => Ok(matches),
        Err(e) => Err(fault_from(&e)),
    }
}

fn copy_of(alloc: Global, text: Option<&str>) -> Result<Option<Text>, NoMemory>
    ensures { IfOk result (λ copy. copy ≡ option_map (λ t. t.now) text.entry) }
{
    match text {
        Some(text) => {
            let text = Text::from_str(alloc, text)?;
            Ok(Some(text))
        }
        None => Ok(None),
    }
}

fn steps_in(text: Option<&str>) -> Option<u64>
    ensures { result ≡ steps_in (option_map (λ t. t.now) text.entry) }
{
    match text {
        Some(text) => number_in(text, MOST_STEPS),
        None => Some(STEPS),
    }
}

fn virt_from(alloc: Global, matches: &ArgMatches<'_>) -> Result<Command, WordsFault>
    ensures { Reads (virt_from (first_value (found_of matches.now) (codes "APP")) (first_value (found_of matches.now) (codes "policy")) (first_value (found_of matches.now) (codes "out"))) result }
{
    let (app, policy, out) = (
        matches.get_str("APP"),
        matches.get_str("policy"),
        matches.get_str("out"),
    );
    match (app, policy, out) {
        (Some(app), Some(policy), Some(out)) => {
            let app = Text::from_str(alloc, app)?;
            let policy = Text::from_str(alloc, policy)?;
            let out = Text::from_str(alloc, out)?;
            Ok(Command::Virt(VirtWords { app, policy, out }))
        }
        _ => Err(WordsFault::Usage),
    }
}

fn run_from(alloc: Global, matches: &ArgMatches<'_>) -> Result<Command, WordsFault>
    ensures { Reads (run_from (first_value (found_of matches.now) (codes "COMPONENT")) (first_value (found_of matches.now) (codes "script")) (first_value (found_of matches.now) (codes "policy")) (first_value (found_of matches.now) (codes "steps"))) result }
{
    let (component, script) = (matches.get_str("COMPONENT"), matches.get_str("script"));
    let steps = steps_in(matches.get_str("steps"));
    match (component, script, steps) {
        (Some(component), Some(script), Some(steps)) => {
            let component = Text::from_str(alloc, component)?;
            let script = Text::from_str(alloc, script)?;
            let policy = copy_of(alloc, matches.get_str("policy"))?;
            Ok(Command::Run(RunWords {
                component,
                script,
                policy,
                steps,
            }))
        }
        _ => Err(WordsFault::Usage),
    }
}

fn gen_from(alloc: Global, matches: &ArgMatches<'_>) -> Result<Command, WordsFault>
    ensures { Reads (gen_from (first_value (found_of matches.now) (codes "N")) (first_value (found_of matches.now) (codes "OUT"))) result }
{
    let (Some(functions), Some(out)) = (matches.get_str("N"), matches.get_str("OUT")) else {
        return Err(WordsFault::Usage);
    };
    match number_in(functions, MOST_FUNCTIONS) {
        Some(functions) => {
            let out = Text::from_str(alloc, out)?;
            Ok(Command::Gen(GenWords { functions, out }))
        }
        None => Err(WordsFault::Usage),
    }
}

fn plug_from(alloc: Global, matches: &ArgMatches<'_>) -> Result<Command, WordsFault>
    ensures { Reads (plug_from (first_value (found_of matches.now) (codes "A")) (first_value (found_of matches.now) (codes "B")) (first_value (found_of matches.now) (codes "policy")) (first_value (found_of matches.now) (codes "out"))) result }
{
    let (first, second) = (matches.get_str("A"), matches.get_str("B"));
    let (policy, out) = (matches.get_str("policy"), matches.get_str("out"));
    match (first, second, policy, out) {
        (Some(first), Some(second), Some(policy), Some(out)) => {
            let first = Text::from_str(alloc, first)?;
            let second = Text::from_str(alloc, second)?;
            let policy = Text::from_str(alloc, policy)?;
            let out = Text::from_str(alloc, out)?;
            Ok(Command::Plug(PlugWords {
                first,
                second,
                policy,
                out,
            }))
        }
        _ => Err(WordsFault::Usage),
    }
}

fn inspect_from(alloc: Global, matches: &ArgMatches<'_>) -> Result<InspectWords, WordsFault>
    ensures { Reads (inspect_from (first_value (found_of matches.now) (codes "COMPONENT")) (first_value (found_of matches.now) (codes "policy"))) result }
{
    match matches.get_str("COMPONENT") {
        Some(component) => {
            let component = Text::from_str(alloc, component)?;
            let policy = copy_of(alloc, matches.get_str("policy"))?;
            Ok(InspectWords { component, policy })
        }
        None => Err(WordsFault::Usage),
    }
}

#[tactic(auto, using(crate::proofs::Refusals::virt_reads, crate::proofs::Refusals::virt_stops))]
fn read_virt(alloc: Global, words: &[Text]) -> Result<Command, WordsFault>
    ensures { Reads (virt_words words.now) result }
{
    let Ok(command) = virt_command(alloc) else {
        return Err(WordsFault::NoMemory);
    };
    match matches_of(command, words) {
        Ok(matches) => virt_from(alloc, &matches),
        Err(fault) => Err(fault),
    }
}

#[tactic(auto, using(crate::proofs::Refusals::run_reads, crate::proofs::Refusals::run_stops))]
fn read_run(alloc: Global, words: &[Text]) -> Result<Command, WordsFault>
    ensures { Reads (run_words words.now) result }
{
    let Ok(command) = run_command(alloc) else {
        return Err(WordsFault::NoMemory);
    };
    match matches_of(command, words) {
        Ok(matches) => run_from(alloc, &matches),
        Err(fault) => Err(fault),
    }
}

#[tactic(auto, using(crate::proofs::Refusals::gen_reads, crate::proofs::Refusals::gen_stops))]
fn read_gen(alloc: Global, words: &[Text]) -> Result<Command, WordsFault>
    ensures { Reads (gen_words words.now) result }
{
    let Ok(command) = gen_command(alloc) else {
        return Err(WordsFault::NoMemory);
    };
    match matches_of(command, words) {
        Ok(matches) => gen_from(alloc, &matches),
        Err(fault) => Err(fault),
    }
}

#[tactic(auto, using(crate::proofs::Refusals::plug_reads, crate::proofs::Refusals::plug_stops))]
fn read_plug(alloc: Global, words: &[Text]) -> Result<Command, WordsFault>
    ensures { Reads (plug_words words.now) result }
{
    let Ok(command) = plug_command(alloc) else {
        return Err(WordsFault::NoMemory);
    };
    match matches_of(command, words) {
        Ok(matches) => plug_from(alloc, &matches),
        Err(fault) => Err(fault),
    }
}

/// What the words after the name of the program that inspects ask for: `COMPONENT`, and `-p POLICY` where it is wanted, read as the words
/// of an action are (`read_words`). `Usage` exactly where they are no such words.
#[tactic(auto, using(crate::proofs::Refusals::inspect_reads, crate::proofs::Refusals::inspect_stops))]
pub fn read_inspect(alloc: Global, words: &[Text]) -> Result<InspectWords, WordsFault>
    ensures { Reads (inspect_words words.now) result }
{
    let Ok(command) = inspect_command(alloc) else {
        return Err(WordsFault::NoMemory);
    };
    match matches_of(command, words) {
        Ok(matches) => inspect_from(alloc, &matches),
        Err(fault) => Err(fault),
    }
}

/// The command of the words after the program's name. The first names the action; the rest is read with `clap` as one
/// simple command, without a help or version flag: options with one value each, in any order and each at most once, and
/// the words that have to be there. `Usage` exactly where the words give no command.
pub fn read_words(alloc: Global, words: &[Text]) -> Result<Command, WordsFault>
    ensures { Reads (command_of words.now) result }
{
    let [action, rest @ ..] = words else {
        return Err(WordsFault::Usage);
    };
    match action.as_str() {
        "virt" => read_virt(alloc, rest),
        "run" => read_run(alloc, rest),
        "gen" => read_gen(alloc, rest),
        "plug" => read_plug(alloc, rest),
        _ => Err(WordsFault::Usage),
    }
}
