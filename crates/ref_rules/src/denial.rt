//! Whether a call is denied, by the policy or by the rules on addresses, and whose error codes a denial answers.

#![tactic(auto, using(wit_types::proofs::PlainLemmas::plains))]

ghost use Rattle.std.specs.Prelude.{◌≡◌, Some};
ghost use Rattle.wit_types.specs.Plain.{plain, plain_result};
ghost use Rattle.wit_types.specs.PlainValue.{plain_values};
ghost use Rattle.reference_step.specs.Access.{access};
ghost use Rattle.reference_step.specs.Refused.{refused};
ghost use Rattle.reference_step.specs.Rules.{by_access, of_package, is_result, is_answered};
ghost use Rattle.ref_rules.specs.Seen.{denial_of, shown_errors};
ghost use Rattle.ref_rules.specs.Denials.{errors_in};

use crate::access::{Access, function_access};
use crate::addresses::refused;
use policy_data::{Deny, Policy};
use wit_types::{Values, WitType};

/// Whether a call is denied, and by what.
#[derive(Debug, Clone, Copy, PartialEq, Eq)]
pub enum Denial {
    NotDenied,
    ByPolicy,
    /// The rules refuse the address or the name.
    ByRules,
}

/// Whose error codes a function's result has, if it has some.
#[derive(Debug, Clone, Copy, PartialEq, Eq)]
pub enum Errors {
    Filesystem,
    Sockets,
    None,
}

fn of_package(interface: u32) -> Errors
    ensures { shown_errors result ≡ of_package interface }
{
    if interface < 18 {
        Errors::None
    } else if interface < 20 {
        Errors::Filesystem
    } else {
        Errors::Sockets
    }
}

fn is_result_type(ty: &WitType) -> bool
    ensures { result ≡ is_result (Some (plain ty.now)) }
{
    match ty {
        WitType::Result(_, _) => true,
        WitType::Bool | WitType::Char | WitType::Str | WitType::Flags(_) | WitType::Enum(_) =>
            false,
        WitType::S8 | WitType::U8 | WitType::S16 | WitType::U16 => false,
        WitType::S32 | WitType::U32 | WitType::S64 | WitType::U64 => false,
        WitType::Record(_) | WitType::Tuple(_) | WitType::Variant(_) | WitType::List(_) => false,
        WitType::Option(_) | WitType::Own(_) | WitType::Borrow(_) => false,
    }
}

fn is_result(ty: &Option<WitType>) -> bool
    ensures { result ≡ is_result (plain_result ty.now) }
{
    match ty {
        Some(ty) => is_result_type(ty),
        None => false,
    }
}

/// Whose error codes the result of a function has, by the number of its interface.
pub fn errors_of(interface: u32, ty: &Option<WitType>) -> Errors
    ensures { shown_errors result ≡ errors_in interface (plain_result ty.now) }
{
    if is_result(ty) {
        of_package(interface)
    } else {
        Errors::None
    }
}

/// Whether a call is denied: by the policy first, and then by the rules on addresses.
pub fn call_denial(policy: &Policy, interface: u32, function: &str, args: &Values) -> Denial
    ensures { denial_of result ≡ by_access (access policy.now interface function.now) (refused policy.now function.now (plain_values args.now)) }
{
    match function_access(policy, interface, function) {
        Access::Denied => Denial::ByPolicy,
        Access::Hosted | Access::Virtual => {
            if refused(policy, function, args) {
                Denial::ByRules
            } else {
                Denial::NotDenied
            }
        }
    }
}

/// Whether a function that the policy denies answers access-denied, in place of a trap.
pub fn is_answered(deny: Deny, errors: Errors) -> bool
    ensures { result ≡ is_answered deny (shown_errors errors) }
{
    match deny {
        Deny::Trap => false,
        Deny::Error => match errors {
            Errors::Sockets => true,
            Errors::Filesystem => false,
            Errors::None => false,
        },
    }
}
