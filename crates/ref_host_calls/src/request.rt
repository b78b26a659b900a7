//! A call of a listed function under a policy, with what was found of it: the listed function, the texts, lists and handles of its
//! arguments, and the weight that is left.

use host_port::HostCall;
use policy_data::Policy;
use ref_answers::Found;
use ref_guards::Atom;

/// A call of a listed function under a policy: the texts, lists and handles of its arguments, and how many bytes it may weigh beside
/// them.
#[derive(Debug, Clone, Copy)]
pub struct Request<'a> {
    pub policy: &'a Policy,
    pub found: Found<'a>,
    pub call: &'a HostCall,
    pub noted: &'a [Atom],
    pub left: u64,
}
