//! What a host is called with: functions and resources under the names by which a component imports them.

use std::rc::Rc;
use virt_base::Text;
use wit_types::{Fields, Values, WitType};

/// A function of the host, by the names of an import and the types that it has there.
#[derive(Debug, Drop)]
pub struct HostFunc {
    /// With its version, as `wasi:io/poll@0.2.0`.
    pub interface: Text,
    pub function: Text,
    pub params: Fields,
    pub result: Option<WitType>,
}

/// A call of a function of the host. A handle among the arguments is the host's number.
#[derive(Debug, Drop)]
pub struct HostCall {
    /// Shared by the calls of an import, so that a call copies neither names nor types.
    pub func: Rc<HostFunc>,
    pub args: Values,
}

/// A resource of the host, by the first import in which it stands and its first name there.
#[derive(Debug, Drop)]
pub struct Resource {
    /// With its version, as `wasi:io/poll@0.2.0`.
    pub interface: Text,
    pub name: Text,
}
