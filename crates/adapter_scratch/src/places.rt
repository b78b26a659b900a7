//! Where the scratch folder stands in the adapter's spare bytes: the entries of its files, its blocks and its marks.

use adapter_code::Field;
use adapter_pass::Places;
use policy_data::Scratch;

/// The bytes of a number's entry.
pub const ENTRY: u32 = 272;

/// The bytes of a block.
pub const BLOCK: u32 = 4096;

/// The bits of a number of whole blocks, in bytes.
pub const WHOLE: u64 = 0xFFFF_F000;

/// In an entry, 1 where the number has a file, and else 0.
pub const LIVE: Field = Field {
    offset: 0,
    width: 4,
};

/// The length of the file, 0 where there is none.
pub const LEN: Field = Field {
    offset: 4,
    width: 4,
};

/// Where the piece of the file begins, in bytes from the first block on.
pub const START: Field = Field {
    offset: 8,
    width: 4,
};

/// The length of the file's name.
pub const NAMED: Field = Field {
    offset: 12,
    width: 4,
};

/// Where the name begins in an entry.
pub const NAME: u32 = 16;

/// The bytes of the marks after the blocks.
const MARKS: u32 = 12;

fn entries_len(scratch: &Scratch) -> u32 {
    scratch.files.saturating_mul(ENTRY)
}

fn blocks_len(scratch: &Scratch) -> u32 {
    scratch.blocks.saturating_mul(BLOCK)
}

/// How many spare bytes the scratch folder of a policy takes.
pub fn spare_bytes(scratch: &Scratch) -> u32 {
    entries_len(scratch)
        .saturating_add(blocks_len(scratch))
        .saturating_add(MARKS)
}

/// Where the scratch folder stands in the memory, and how much it may hold.
#[derive(Clone, Copy, Debug)]
pub struct ScratchAt {
    /// How many files there may be; their numbers are below it.
    pub files: u32,
    /// How many bytes the blocks have.
    pub quota: u32,
    /// Where the entry of the number 0 begins.
    pub entries: u32,
    /// Where the first block begins.
    pub blocks: u32,
    /// Where the marks begin: numbers above each place that a handle of a file has among descriptors, input streams and output
    /// streams.
    pub marks: u32,
    /// How many trees the policy has.
    pub trees: u32,
}

impl ScratchAt {
    /// The scratch folder of a policy with that many trees.
    pub fn of(scratch: &Scratch, places: &Places, trees: u32) -> ScratchAt {
        let quota = blocks_len(scratch);
        let blocks = places.spare.saturating_add(entries_len(scratch));
        ScratchAt {
            files: scratch.files,
            quota,
            entries: places.spare,
            blocks,
            marks: blocks.saturating_add(quota),
            trees,
        }
    }
}
