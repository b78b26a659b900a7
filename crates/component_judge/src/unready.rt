//! Why a command with a component or a script does not begin: a file that can't be read, or a refusal of what it holds.

use crate::Refusal;
use virt_base::Text;

/// Why nothing is run.
#[derive(Debug, Drop)]
pub enum Unready {
    /// The file of this name could not be read.
    FileFault(Text),
    /// What a file holds is refused, or memory ran out.
    Refused(Refusal),
}
