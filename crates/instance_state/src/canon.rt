//! Canonical functions as core code calls them: lowered functions, and those that make, drop and read resources.

ghost use Rattle.std.specs.Prelude.{◌≡◌, IfOk};
ghost use Rattle.instance_state.specs.Targets.{func_of};

use crate::CallOptions;
use crate::target::Target;
use virt_base::NoMemory;

/// A canonical function, as core code calls it (Component Model, Explainer.md, `canon lower` and `canon resource.new`, `.drop`, `.rep`).
#[derive(Debug, Drop)]
pub enum Canon {
    Lowered {
        target: Target,
        options: CallOptions,
    },
    New(u32),
    Drop(u32),
    Rep(u32),
}

impl Canon {
    /// The same function.
    pub fn share(&self) -> Result<Canon, NoMemory>
        ensures { IfOk result (λ same. func_of same ≡ func_of self.now) }
    {
        match self {
            Canon::Lowered { target, options } => Ok(Canon::Lowered {
                target: target.share()?,
                options: *options,
            }),
            Canon::New(resource) => Ok(Canon::New(*resource)),
            Canon::Drop(resource) => Ok(Canon::Drop(*resource)),
            Canon::Rep(resource) => Ok(Canon::Rep(*resource)),
        }
    }
}
