//! Instances of core modules; and the law between the typing rules and core evaluation: code that validation accepts runs without a
//! lack of operands.
#![tactic(auto)]

mod allocate;
mod constants;
mod copies;
mod external;
mod instance;
mod laws;
mod matching;
mod places;
mod segments;
mod sound;

pub use external::{CoreInstance, Extern, Externs, NamedExtern, NamedExterns};
pub use instance::instantiate;
pub use laws::spelled_modules_have_counts;
pub use matching::imports_match;
pub use sound::bodies_are_fine;
