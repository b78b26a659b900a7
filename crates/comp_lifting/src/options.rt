//! The options of lifted and lowered functions: none stands twice, memory and realloc are there where values need them, and functions
//! have the types that are due (Component Model, Explainer.md, "Canonical ABI").

ghost use Rattle.std.specs.Prelude.{◌≡◌, ◌||◌, not, ℕ, Option, None, Some, option_map};
ghost use Rattle.std.specs.List.{list_all, list_any};
ghost use Rattle.wasm_ast.specs.declared.component.CanonOption.TheVariants.{Realloc};
ghost use Rattle.wasm_ast.specs.declared.module.CoreFunc.{CoreFunc};
ghost use Rattle.wit_types.specs.Plain.{PlainFunc};
ghost use Rattle.comp_types.specs.Rules.{all_differ, is_memory, is_realloc, is_same_option, is_there_if_needed, lift_options, lower_options, option_is_sound, post_return_type};
ghost use Rattle.comp_facts.specs.Facts.{IsFuncFactsOf};

use crate::lifted_from::{is_post_return_of, is_realloc};
use crate::met::Met;
use comp_facts::FuncFacts;
use wasm_ast::{CanonOption, CoreFunc};

/// The types of core functions.
pub trait CoreFuncs {
    ghost at: { Self → ℕ → Option CoreFunc };

    fn at(&self, index: u32) -> Option<&CoreFunc>
        ensures { option_map (λ f. f.now) result ≡ at self.now index };
}

/// Whether no option stands twice.
fn are_apart(options: &[CanonOption]) -> bool
    ensures { result ≡ all_differ is_same_option options.now }
{
    let mut met = Met::none();
    let mut rest = options;
    while let Some((option, more)) = rest.split_first() {
        if !met.add(*option) {
            return false;
        }
        rest = more;
    }
    true
}

fn has_memory(options: &[CanonOption]) -> bool
    ensures { result ≡ list_any is_memory options.now }
{
    options.iter().any(|o| matches!(o, CanonOption::Memory(_)))
}

fn has_realloc(options: &[CanonOption]) -> bool
    ensures { result ≡ list_any is_realloc options.now }
{
    options.iter().any(|o| matches!(o, CanonOption::Realloc(_)))
}

fn realloc_is_sound<F: CoreFuncs>(funcs: &F, index: u32) -> bool
    ensures { result ≡ option_is_sound (F.at funcs.now) None (Realloc index) }
{
    match funcs.at(index) {
        None => true,
        Some(func) => is_realloc(func),
    }
}

fn lift_option<F: CoreFuncs>(funcs: &F, ty: &FuncFacts, option: CanonOption) -> bool
    ensures { (t : PlainFunc) → IsFuncFactsOf t ty.now → result ≡ option_is_sound (F.at funcs.now) (Some (post_return_type t)) option }
{
    match option {
        CanonOption::Utf8 => true,
        CanonOption::Memory(_) => true,
        CanonOption::Realloc(index) => realloc_is_sound(funcs, index),
        CanonOption::PostReturn(index) => match funcs.at(index) {
            None => true,
            Some(func) => is_post_return_of(func, ty),
        },
    }
}

fn lower_option<F: CoreFuncs>(funcs: &F, option: CanonOption) -> bool
    ensures { result ≡ option_is_sound (F.at funcs.now) None option }
{
    match option {
        CanonOption::Utf8 => true,
        CanonOption::Memory(_) => true,
        CanonOption::Realloc(index) => realloc_is_sound(funcs, index),
        CanonOption::PostReturn(_) => false,
    }
}

fn lift_each<F: CoreFuncs>(funcs: &F, ty: &FuncFacts, options: &[CanonOption]) -> bool
    ensures { (t : PlainFunc) → IsFuncFactsOf t ty.now → result ≡ list_all (option_is_sound (F.at funcs.now) (Some (post_return_type t))) options.now }
{
    let mut rest = options;
    while let Some((option, more)) = rest.split_first() {
        if !lift_option(funcs, ty, *option) {
            return false;
        }
        rest = more;
    }
    true
}

fn lower_each<F: CoreFuncs>(funcs: &F, options: &[CanonOption]) -> bool
    ensures { result ≡ list_all (option_is_sound (F.at funcs.now) None) options.now }
{
    let mut rest = options;
    while let Some((option, more)) = rest.split_first() {
        if !lower_option(funcs, *option) {
            return false;
        }
        rest = more;
    }
    true
}

/// Whether the options of a lifted function are sound.
pub fn lift_options<F: CoreFuncs>(funcs: &F, ty: &FuncFacts, options: &[CanonOption]) -> bool
    ensures { (t : PlainFunc) → IsFuncFactsOf t ty.now → result ≡ lift_options (F.at funcs.now) t options.now }
{
    let apart = are_apart(options);
    let each = lift_each(funcs, ty, options);
    let memory = !ty.needs_memory() || has_memory(options);
    let realloc = !ty.lift_needs_realloc() || has_realloc(options);
    apart && each && (memory && realloc)
}

/// Whether the options of a lowered function are sound.
pub fn lower_options<F: CoreFuncs>(funcs: &F, ty: &FuncFacts, options: &[CanonOption]) -> bool
    ensures { (t : PlainFunc) → IsFuncFactsOf t ty.now → result ≡ lower_options (F.at funcs.now) t options.now }
{
    let apart = are_apart(options);
    let each = lower_each(funcs, options);
    let memory = !ty.needs_memory() || has_memory(options);
    let realloc = !ty.lower_needs_realloc() || has_realloc(options);
    apart && each && (memory && realloc)
}
