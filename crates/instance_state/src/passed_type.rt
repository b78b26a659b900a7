//! A type by which values pass, with what each call asks of it. It is found once, when the type is made, and not at each call.

#![tactic(auto, using(crate::proofs::Passing::spills_counted))]

ghost use Rattle.std.specs.Prelude.{◌≡◌, ◌≤◌};
ghost use Rattle.wit_types.specs.Plain.{plain};
ghost use Rattle.wit_types.specs.Limits.{IsSmall, parts};
ghost use Rattle.comp_worlds.specs.Passing.{most_params, most_results, spills_over};
ghost use Rattle.value_handles.specs.Whether.{has_handles as may_hold};
ghost use Rattle.instance_state.specs.Passed.{needs_memory};

use crate::ranges::has_ranges;
use abi_layout::flatten;
use value_handles::has_handles;
use wit_types::WitType;

/// A type by which values pass, and what each call asks of it.
#[derive(Debug, Drop)]
pub struct PassedType {
    pub ty: WitType,
    /// A value of more flat values goes through memory.
    pub most: u8,
    /// Its values go through memory.
    pub spills: bool,
    /// Its values go through memory, or hold what lies there.
    pub in_memory: bool,
    /// Its values may hold handles.
    pub holds: bool,
    pub ghost small: { parts (plain ty) ≤ 1000000 },
    pub ghost few: { most ≤ 16 },
    pub ghost spilled: { spills_over most (plain ty) ≡ spills },
    pub ghost needed: { needs_memory most (plain ty) ≡ in_memory },
    pub ghost held: { may_hold (plain ty) ≡ holds },
}

/// Whether values of a type go through memory.
fn spills(ty: &WitType, most: u8) -> bool
    requires { most ≤ 16 }
    ensures { result ≡ spills_over most (plain ty.now) }
{
    let flat = flatten(ty);
    flat.count > most
}

fn passed_type(ty: WitType, most: u8) -> PassedType
    requires small { IsSmall ty }
    requires few { most ≤ 16 }
    ensures ty { result.ty ≡ ty }
    ensures most { result.most ≡ most }
{
    let spills = spills(&ty, most);
    let in_memory = has_ranges(&ty) || spills;
    let holds = has_handles(&ty);
    PassedType {
        ty,
        most,
        spills,
        in_memory,
        holds,
    }
}

impl PassedType {
    /// That of parameters, as a tuple of them.
    pub fn params(ty: WitType) -> PassedType
        requires { IsSmall ty }
        ensures ty { result.ty ≡ ty }
        ensures most { result.most ≡ most_params }
    {
        passed_type(ty, 16)
    }

    /// That of a result, as a tuple of it.
    pub fn result(ty: WitType) -> PassedType
        requires { IsSmall ty }
        ensures ty { result.ty ≡ ty }
        ensures most { result.most ≡ most_results }
    {
        passed_type(ty, 1)
    }
}
