//! The faults of a policy.

use virt_base::Text;

/// Why a policy is refused.
#[derive(Debug, Drop)]
pub enum PolicyFault {
    /// The text is no TOML document.
    NotToml,
    /// The key at this path is unknown.
    BadKey(Text),
    /// The value at this path is of another type, or not one of those that are known.
    BadValue(Text),
    /// The name at this path can't be a file's.
    BadName(Text),
}
