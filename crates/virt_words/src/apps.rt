//! The commands as `clap` is told them: the words that each takes, and its options.

ghost use Rattle.std.specs.Prelude.{◌≡◌, IfOk, false};
ghost use Rattle.clap.specs.Words.{app_of, rule_of};
ghost use Rattle.virt_words.specs.Apps.{plain_app, positional, option_named, long_option, required_option, virt_app, run_app, gen_app, plug_app, inspect_app};

use clap::{Arg, Command};
use std::alloc::{AllocError, Global};

/// A command without the program's name among its words, and without flags of `clap`'s own.
fn plain<'a>(alloc: Global, name: &'a str) -> Command<'a>
    ensures { app_of result ≡ plain_app name.entry.now }
{
    Command::new(alloc, name)
        .no_binary_name(true)
        .disable_help_flag(true)
        .disable_version_flag(true)
}

/// A word that has to be there.
fn word<'a>(alloc: Global, id: &'a str) -> Arg<'a>
    ensures rule { rule_of result ≡ positional id.entry.now }
    ensures local { result.global ≡ false }
{
    Arg::new(alloc, id).required(true)
}

/// An option with one value that has to be there.
fn needed<'a>(alloc: Global, id: &'a str, short: char) -> Arg<'a>
    ensures rule { rule_of result ≡ required_option id.entry.now short }
    ensures local { result.global ≡ false }
{
    Arg::new(alloc, id).short(short).long(id).required(true)
}

/// An option with one value.
fn allowed<'a>(alloc: Global, id: &'a str, short: char) -> Arg<'a>
    ensures rule { rule_of result ≡ option_named id.entry.now short }
    ensures local { result.global ≡ false }
{
    Arg::new(alloc, id).short(short).long(id)
}

/// An option with one value and without a short form.
fn spelled<'a>(alloc: Global, id: &'a str) -> Arg<'a>
    ensures rule { rule_of result ≡ long_option id.entry.now }
    ensures local { result.global ≡ false }
{
    Arg::new(alloc, id).long(id)
}

/// The command after `virt`.
pub fn virt_command<'a>(alloc: Global) -> Result<Command<'a>, AllocError>
    ensures { IfOk result (λ c. app_of c ≡ virt_app) }
{
    let app = word(alloc, "APP");
    let policy = needed(alloc, "policy", 'p');
    let out = needed(alloc, "out", 'o');
    plain(alloc, "virt").arg(app)?.arg(policy)?.arg(out)
}

/// The command after `run`.
pub fn run_command<'a>(alloc: Global) -> Result<Command<'a>, AllocError>
    ensures { IfOk result (λ c. app_of c ≡ run_app) }
{
    let component = word(alloc, "COMPONENT");
    let script = needed(alloc, "script", 's');
    let policy = allowed(alloc, "policy", 'p');
    let steps = spelled(alloc, "steps");
    plain(alloc, "run")
        .arg(component)?
        .arg(script)?
        .arg(policy)?
        .arg(steps)
}

/// The command after `gen`.
pub fn gen_command<'a>(alloc: Global) -> Result<Command<'a>, AllocError>
    ensures { IfOk result (λ c. app_of c ≡ gen_app) }
{
    let functions = word(alloc, "N");
    let out = word(alloc, "OUT");
    plain(alloc, "gen").arg(functions)?.arg(out)
}

/// The command of the program that inspects.
pub fn inspect_command<'a>(alloc: Global) -> Result<Command<'a>, AllocError>
    ensures { IfOk result (λ c. app_of c ≡ inspect_app) }
{
    let component = word(alloc, "COMPONENT");
    let policy = allowed(alloc, "policy", 'p');
    plain(alloc, "inspect").arg(component)?.arg(policy)
}

/// The command after `plug`.
pub fn plug_command<'a>(alloc: Global) -> Result<Command<'a>, AllocError>
    ensures { IfOk result (λ c. app_of c ≡ plug_app) }
{
    let first = word(alloc, "A");
    let second = word(alloc, "B");
    let policy = needed(alloc, "policy", 'p');
    let out = needed(alloc, "out", 'o');
    plain(alloc, "plug")
        .arg(first)?
        .arg(second)?
        .arg(policy)?
        .arg(out)
}
