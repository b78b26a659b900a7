//! A linked component that can be made, by an invariant of the type, so that each step of its plans finds what it needs.

ghost use Rattle.std.specs.Prelude.{◌≡◌};
ghost use Rattle.comp_interp.specs.Sound.{CanBeMade};

use comp_link::Linked;
use std::marker::Model;

/// A linked component that can be made.
#[derive(Drop)]
pub struct Runnable {
    linked: Linked,
}

impl Model for Runnable {
    ghost use Rattle.comp_link.specs.declared.linked.Linked as plans;
    ghost use Rattle.comp_interp.specs.Sound.{CanBeMade};
    ghost use Rattle.std.specs.Coded.{codes};
    ghost use Rattle.comp_types.specs.Codes.{value_code, parts_code, func_code, entries_code};
    ghost use Rattle.comp_link.specs.contracts.linked.Linked as contract;

    ghost Value = { plans.Linked };

    ghost coded = { Prim.hlevel (codes, value_code, parts_code, func_code, entries_code, contract.the_row.coded) };

    ghost view = { λ r. r.linked };

    ghost invariant = { λ r. CanBeMade r.linked };
}

impl Runnable {
    pub fn new(linked: Linked) -> Runnable
        requires { CanBeMade linked }
        ensures { result ≡ linked }
    {
        Runnable { linked }
    }

    /// The linked component.
    pub fn linked(&self) -> &Linked
        ensures linked { result.now ≡ self.now }
        ensures can { CanBeMade result.now }
    {
        &self.linked
    }
}
