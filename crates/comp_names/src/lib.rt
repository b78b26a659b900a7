//! The names of imports and exports of components: which are legal, what their annotations say, and which are alike.
#![tactic(auto)]

mod labels;
mod names;
mod seen;

pub use labels::is_label;
pub use names::{Annotation, annotation_of, is_legal};
pub use seen::{SeenNames, SeenTexts};
