//! Lines.

ghost use Rattle.std.specs.Prelude.{◌≡◌, ◌++◌, IfOk, OnOk, map, string_bytes};
ghost use Rattle.adapter_world.specs.Names.{named};
ghost use Rattle.inspect_engine.specs.Texts.{count, count_line, counts_line, fate_word, fates_text, has_word, import_text, imports_text, names_text, output_line, row_line, rows_text, word_of};

use crate::family::family_of;
use crate::fate::Fate;
use crate::rows::Row;
use adapter_world::NeededInterface;
use std::alloc::Global;
use virt_base::{NoMemory, Text};

fn fate_word(fate: Fate) -> &'static str
    ensures { result.now ≡ fate_word fate }
{
    match fate {
        Fate::Asked => "asked",
        Fate::Ruled => "ruled",
        Fate::Refused => "refused",
        Fate::Value => "value",
        Fate::Own => "own",
    }
}

fn word_of(fate: Option<Fate>) -> &'static str
    ensures { result.now ≡ word_of fate }
{
    match fate {
        None => "",
        Some(fate) => fate_word(fate),
    }
}

fn row_line(alloc: Global, row: &Row) -> Result<String, NoMemory>
    ensures { IfOk result (λ text. string_bytes text ≡ row_line row.now) }
{
    let name = row.name.as_str();
    let family = family_of(row.interface);
    match row.fate {
        None => Ok(format!(in alloc; "import {name} {family}\n")?),
        Some(fate) => {
            let word = fate_word(fate);
            Ok(format!(in alloc; "import {name} {family} {word}\n")?)
        }
    }
}

/// Adds the lines of imported functions.
pub fn push_rows(alloc: Global, rows: &[Row], text: &mut String) -> Result<(), NoMemory>
    ensures { OnOk result (string_bytes text.new ≡ string_bytes text.old ++ rows_text rows.now) }
{
    for row in rows {
        let line = row_line(alloc, row)?;
        text.push_str(line.as_str())?;
    }
    Ok(())
}

fn output_line(alloc: Global, import: &Text, name: &Text) -> Result<String, NoMemory>
    ensures { IfOk result (λ text. string_bytes text ≡ output_line import.now name.now) }
{
    let import = import.as_str();
    let name = name.as_str();
    Ok(format!(in alloc; "output {import}#{name}\n")?)
}

fn push_names(
    alloc: Global,
    import: &Text,
    names: &[Text],
    text: &mut String,
) -> Result<(), NoMemory>
    ensures { OnOk result (string_bytes text.new ≡ string_bytes text.old ++ names_text import.now names.now) }
{
    for name in names {
        let line = output_line(alloc, import, name)?;
        text.push_str(line.as_str())?;
    }
    Ok(())
}

#[tactic(auto, using(crate::proofs::Joining::import_joined))]
fn push_import(alloc: Global, one: &NeededInterface, text: &mut String) -> Result<(), NoMemory>
    ensures { OnOk result (string_bytes text.new ≡ string_bytes text.old ++ import_text (named one.now)) }
{
    push_names(alloc, &one.name, one.uses.as_slice(), text)?;
    push_names(alloc, &one.name, one.types.as_slice(), text)?;
    push_names(alloc, &one.name, one.names.as_slice(), text)
}

/// Adds the lines of what an output imports.
pub fn push_imports(
    alloc: Global,
    needed: &[NeededInterface],
    text: &mut String,
) -> Result<(), NoMemory>
    ensures { OnOk result (string_bytes text.new ≡ string_bytes text.old ++ imports_text (map named needed.now)) }
{
    for one in needed {
        push_import(alloc, one, text)?;
    }
    Ok(())
}

fn has_word(row: &Row, word: &str) -> bool
    ensures { result ≡ has_word word.now row.now }
{
    word_of(row.fate) == word
}

/// How many functions have the fate of this word.
fn count(rows: &[Row], word: &str) -> usize
    ensures { result ≡ count word.now rows.now }
{
    rows.iter().filter(|row| has_word(row, word)).count()
}

/// Adds how many functions are imported.
pub fn push_count(alloc: Global, rows: &[Row], text: &mut String) -> Result<(), NoMemory>
    ensures { OnOk result (string_bytes text.new ≡ string_bytes text.old ++ count_line rows.now) }
{
    let all = rows.len();
    let line = format!(in alloc; "functions: {all} imported\n")?;
    text.push_str(line.as_str())?;
    Ok(())
}

/// How many functions have each fate.
fn fates_text(alloc: Global, rows: &[Row]) -> Result<String, NoMemory>
    ensures { IfOk result (λ text. string_bytes text ≡ fates_text rows.now) }
{
    let asked = count(rows, "asked");
    let ruled = count(rows, "ruled");
    let refused = count(rows, "refused");
    let value = count(rows, "value");
    let own = count(rows, "own");
    Ok(format!(in alloc;
        "{asked} asked, {ruled} ruled, {refused} refused, {value} value, {own} own"
    )?)
}

fn counts_line(alloc: Global, rows: &[Row]) -> Result<String, NoMemory>
    ensures { IfOk result (λ text. string_bytes text ≡ counts_line rows.now) }
{
    let all = rows.len();
    let fates = fates_text(alloc, rows)?;
    let fates = fates.as_str();
    Ok(format!(in alloc; "functions: {all} imported, {fates}\n")?)
}

/// Adds how many functions are imported, and how many have each fate.
pub fn push_counts(alloc: Global, rows: &[Row], text: &mut String) -> Result<(), NoMemory>
    ensures { OnOk result (string_bytes text.new ≡ string_bytes text.old ++ counts_line rows.now) }
{
    let line = counts_line(alloc, rows)?;
    text.push_str(line.as_str())?;
    Ok(())
}
