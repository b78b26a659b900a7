//! Where a call leads: to a lifted function or to an import.

ghost use Rattle.std.specs.Prelude.{◌≡◌, IfOk};
ghost use Rattle.comp_worlds.specs.Groups.{type_of};
ghost use Rattle.instance_state.specs.Targets.{target_of};

use crate::CallOptions;
use crate::call_type::CallType;
use crate::import::Import;
use std::rc::Rc;
use virt_base::NoMemory;

/// A lifted function (Component Model, Explainer.md, `canon lift`): its core function, its type, its options and its post-return.
#[derive(Debug, Drop)]
pub struct Lifting {
    pub code: u32,
    pub ty: CallType,
    pub options: CallOptions,
    pub post: Option<u32>,
}

/// Where a call leads: to a lifted function of an instance, or to an import.
#[derive(Debug, Drop)]
pub enum Target {
    Mine { instance: u32, lifting: Rc<Lifting> },
    Theirs(Rc<Import>),
}

impl Target {
    /// The same target.
    pub fn share(&self) -> Result<Target, NoMemory>
        ensures { IfOk result (λ same. target_of same ≡ target_of self.now) }
    {
        match self {
            Target::Mine { instance, lifting } => Ok(Target::Mine {
                instance: *instance,
                lifting: lifting.clone()?,
            }),
            Target::Theirs(import) => Ok(Target::Theirs(import.clone()?)),
        }
    }

    /// The type by which values are passed.
    pub fn ty(&self) -> &CallType
        ensures { result.now ≡ type_of (target_of self.now) }
    {
        match self {
            Target::Mine { lifting, .. } => &lifting.ty,
            Target::Theirs(import) => import.ty(),
        }
    }
}
