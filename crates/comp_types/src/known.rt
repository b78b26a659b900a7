//! Value types and types of functions with their facts and the keys of their parts, so that no walk finds these again.

ghost use Rattle.std.specs.Prelude.{◌≡◌};
ghost use Rattle.wit_types.specs.Plain.{plain, plain_func};
ghost use Rattle.comp_facts.specs.Keys.{keys_in, keys_of};

use comp_facts::{Facts, FuncFacts};
use std::marker::Model;
use virt_base::Items;
use wit_types::{FuncType, WitType};

/// A value type, with what is kept of it, and the keys of its own parts in order.
#[derive(Debug, Drop)]
pub struct KnownValue {
    ty: WitType,
    facts: Facts,
    keys: Items<u64>,
}

impl Model for KnownValue {
    ghost use Rattle.std.specs.Prelude.{◌≡◌};
    ghost use Rattle.wit_types.specs.Plain.{Plain, plain};
    ghost use Rattle.comp_types.specs.Codes.{value_code};
    ghost use Rattle.comp_facts.specs.Facts.{IsFactsOf};
    ghost use Rattle.comp_facts.specs.Keys.{keys_of};

    ghost Value = { Plain };

    ghost coded = { value_code };

    ghost view = { λ v. plain v.ty };

    ghost invariant = { λ v. IsFactsOf (plain v.ty) v.facts × (v.keys ≡ keys_of (plain v.ty)) };
}

impl KnownValue {
    ghost use Rattle.comp_facts.specs.Facts.{IsFactsOf};

    pub fn new(ty: WitType, facts: Facts, keys: Items<u64>) -> KnownValue
        requires facts { IsFactsOf (plain ty) facts }
        requires keys { keys ≡ keys_of (plain ty) }
        ensures { result ≡ plain ty }
    {
        KnownValue { ty, facts, keys }
    }

    pub fn ty(&self) -> &WitType
        ensures { plain result.now ≡ self.now }
    {
        &self.ty
    }

    pub fn facts(&self) -> &Facts
        ensures { IsFactsOf self.now result.now }
    {
        &self.facts
    }

    /// The keys of the type's own parts in order.
    pub fn keys(&self) -> &[u64]
        ensures { result.now ≡ keys_of self.now }
    {
        self.keys.as_slice()
    }
}

/// A type of a function, with what is kept of it, and the keys of its parameters in order.
#[derive(Debug, Drop)]
pub struct KnownFunc {
    ty: FuncType,
    facts: FuncFacts,
    keys: Items<u64>,
}

impl Model for KnownFunc {
    ghost use Rattle.std.specs.Prelude.{◌≡◌};
    ghost use Rattle.wit_types.specs.Plain.{PlainFunc, plain_func};
    ghost use Rattle.comp_types.specs.Codes.{func_code};
    ghost use Rattle.comp_facts.specs.Facts.{IsFuncFactsOf};
    ghost use Rattle.comp_facts.specs.Keys.{keys_in};

    ghost Value = { PlainFunc };

    ghost coded = { func_code };

    ghost view = { λ f. plain_func f.ty };

    ghost invariant = { λ f. IsFuncFactsOf (plain_func f.ty) f.facts × (f.keys ≡ keys_in (plain_func f.ty).params) };
}

impl KnownFunc {
    ghost use Rattle.comp_facts.specs.Facts.{IsFuncFactsOf};

    pub fn new(ty: FuncType, facts: FuncFacts, keys: Items<u64>) -> KnownFunc
        requires facts { IsFuncFactsOf (plain_func ty) facts }
        requires keys { keys ≡ keys_in (plain_func ty).params }
        ensures { result ≡ plain_func ty }
    {
        KnownFunc { ty, facts, keys }
    }

    pub fn ty(&self) -> &FuncType
        ensures { plain_func result.now ≡ self.now }
    {
        &self.ty
    }

    pub fn facts(&self) -> &FuncFacts
        ensures { IsFuncFactsOf self.now result.now }
    {
        &self.facts
    }

    /// The keys of the parameters in order.
    pub fn keys(&self) -> &[u64]
        ensures { result.now ≡ keys_in self.now.params }
    {
        self.keys.as_slice()
    }
}
