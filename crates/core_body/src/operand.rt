//! Operand types, among them the bottom type of unreachable code, and which may stand where another is due (core WebAssembly,
//! "Validation").

ghost use Rattle.std.specs.Prelude.{◌≡◌, Option, Some, None, MatchOption};
ghost use Rattle.core_body.specs.Machine.{below, known_of, is_number, reference_of};

use virt_base::CoreType;

/// An operand type (WebAssembly Core 2.0, section 3.3). `Any` is the bottom type, which unreachable code leaves.
#[derive(Clone, Copy)]
pub enum Operand {
    Any,
    Known(CoreType),
}

/// Whether an operand may stand where another is due.
pub fn below(found: Operand, due: Operand) -> bool
    ensures { result ≡ below found due }
{
    match found {
        Operand::Any => true,
        Operand::Known(t) => match due {
            Operand::Any => false,
            Operand::Known(u) => matches!(
                (t, u),
                (CoreType::I32, CoreType::I32)
                    | (CoreType::I64, CoreType::I64)
                    | (CoreType::Funcref, CoreType::Funcref)
                    | (CoreType::Externref, CoreType::Externref)
            ),
        },
    }
}

pub fn known_of(a: Operand, b: Operand) -> Operand
    ensures { result ≡ known_of a b }
{
    match a {
        Operand::Any => b,
        Operand::Known(_) => a,
    }
}

/// Whether a select without types takes the operand.
pub fn is_number(a: Operand) -> bool
    ensures { result ≡ is_number a }
{
    match a {
        Operand::Any => true,
        Operand::Known(CoreType::I32 | CoreType::I64) => true,
        Operand::Known(CoreType::Funcref | CoreType::Externref) => false,
    }
}

/// The reference type that an operand is taken as; none where it is a number.
pub fn reference_of(a: Operand) -> Option<CoreType>
    ensures { result ≡ reference_of a }
{
    match a {
        Operand::Any => Some(CoreType::Funcref),
        Operand::Known(CoreType::Funcref) => Some(CoreType::Funcref),
        Operand::Known(CoreType::Externref) => Some(CoreType::Externref),
        Operand::Known(CoreType::I32 | CoreType::I64) => None,
    }
}
