//! Readers of values without parts (TOML 1.0): whole numbers in a range, words that stand for a choice, booleans and strings.

ghost use Rattle.std.specs.Prelude.{◌≡◌};
ghost use Rattle.toml.specs.View.{view};
ghost use Rattle.policy_toml.specs.Reading.{Gives};
ghost use Rattle.policy_toml.specs.Values.{any_text, boolean_in, is_plain, is_variable, natural, number_in, text_such, word_in};

use crate::keys::{bad_value, over_limit};
use crate::reader::Reader;
use path_names::holds_byte;
use policy_data::{ReadPolicyFault, Word};
use std::alloc::Global;
use std::marker::PhantomData;
use toml::Value;
use virt_base::Text;

/// A whole number in a range.
#[derive(Drop)]
pub struct Number {
    pub least: u32,
    pub greatest: u32,
}

impl Reader for Number {
    type Item = u32;

    ghost reads = { λ s. number_in s.least s.greatest };

    fn read(&self, alloc: Global, path: &str, value: &Value) -> Result<u32, ReadPolicyFault> {
        let number = match value.as_integer() {
            Some(number) => number,
            None => return bad_value(alloc, path),
        };
        if number < i64::from(self.least) {
            return bad_value(alloc, path);
        }
        if number > i64::from(self.greatest) {
            return over_limit(alloc, path, number as u64);
        }
        Ok(number as u32)
    }
}

/// A whole number from 0 on.
#[derive(Drop)]
pub struct Natural;

impl Reader for Natural {
    type Item = u64;

    ghost reads = { λ _. natural };

    fn read(&self, alloc: Global, path: &str, value: &Value) -> Result<u64, ReadPolicyFault> {
        match value.as_integer() {
            Some(number) if number >= 0 => Ok(number as u64),
            _ => bad_value(alloc, path),
        }
    }
}

/// A word that stands for a choice.
#[derive(Drop)]
pub struct Choice<W> {
    words: PhantomData<W>,
}

impl<W> Choice<W> {
    pub fn new() -> Self {
        Choice { words: PhantomData }
    }
}

impl<W: Word> Reader for Choice<W> {
    type Item = W;

    ghost reads = { λ _. word_in W.named };

    fn read(&self, alloc: Global, path: &str, value: &Value) -> Result<W, ReadPolicyFault> {
        let word = match value.as_str() {
            Some(word) => word,
            None => return bad_value(alloc, path),
        };
        match W::named(word) {
            Some(choice) => Ok(choice),
            None => bad_value(alloc, path),
        }
    }
}

/// A boolean.
#[derive(Drop)]
pub struct Boolean;

impl Reader for Boolean {
    type Item = bool;

    ghost reads = { λ _. boolean_in };

    fn read(&self, alloc: Global, path: &str, value: &Value) -> Result<bool, ReadPolicyFault> {
        match value.as_bool() {
            Some(boolean) => Ok(boolean),
            None => bad_value(alloc, path),
        }
    }
}

/// A name that an environment variable may have: not empty, without NUL and `=`.
pub fn is_variable(name: &str) -> bool
    ensures { result ≡ is_variable name.now }
{
    !name.is_empty() && !holds_byte(name.as_bytes(), 0) && !holds_byte(name.as_bytes(), b'=')
}

/// A string without NUL.
pub fn plain_text(alloc: Global, path: &str, value: &Value) -> Result<Text, ReadPolicyFault>
    ensures { Gives (text_such is_plain path.now (view value.now)) result }
{
    match value.as_str() {
        Some(text) if !holds_byte(text.as_bytes(), 0) => Ok(Text::from_str(alloc, text)?),
        _ => bad_value(alloc, path),
    }
}

/// A string without NUL.
#[derive(Drop)]
pub struct PlainText;

impl Reader for PlainText {
    type Item = Text;

    ghost reads = { λ _. text_such is_plain };

    fn read(&self, alloc: Global, path: &str, value: &Value) -> Result<Text, ReadPolicyFault> {
        plain_text(alloc, path, value)
    }
}

/// A name that an environment variable may have.
#[derive(Drop)]
pub struct VariableName;

impl Reader for VariableName {
    type Item = Text;

    ghost reads = { λ _. text_such is_variable };

    fn read(&self, alloc: Global, path: &str, value: &Value) -> Result<Text, ReadPolicyFault> {
        match value.as_str() {
            Some(text) if is_variable(text) => Ok(Text::from_str(alloc, text)?),
            _ => bad_value(alloc, path),
        }
    }
}

/// A string.
pub fn any_text(alloc: Global, path: &str, value: &Value) -> Result<Text, ReadPolicyFault>
    ensures { Gives (any_text path.now (view value.now)) result }
{
    match value.as_str() {
        Some(text) => Ok(Text::from_str(alloc, text)?),
        None => bad_value(alloc, path),
    }
}

/// A string.
#[derive(Drop)]
pub struct AnyText;

impl Reader for AnyText {
    type Item = Text;

    ghost reads = { λ _. any_text };

    fn read(&self, alloc: Global, path: &str, value: &Value) -> Result<Text, ReadPolicyFault> {
        any_text(alloc, path, value)
    }
}
