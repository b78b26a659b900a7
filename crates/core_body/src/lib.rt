//! Validation of code: the bodies of functions, and constant expressions.
#![tactic(auto)]

mod check;
mod conditions;
mod levels;
mod locals;
mod numbers;
mod operand;
mod parts;
mod piece;
mod promise;
mod shapes;
mod source;
mod spaces;
mod stack;
mod step;
mod types;

pub use check::{check_body, check_expression};
pub use conditions::lesser;
pub use promise::operands_are_found;
pub use shapes::{same_ref, value_of};
pub use spaces::{Arrow, Spaces};
pub use types::TypeLists;
