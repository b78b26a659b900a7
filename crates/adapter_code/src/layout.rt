//! The layout of the adapter's memory: which parts it has, where each begins, and how many pages hold them.

ghost use Rattle.std.specs.Prelude.{◌≡◌, ◌+◌, ◌*◌, ◌<◌, ◌↔◌, true};
ghost use Rattle.adapter_code.specs.Layout.{table_at as table_of, image_at as image_of, spare_at as spare_of, transfer_at as transfer_of, end_of, pages_of, padded as padded_of, Fits};

/// How the adapter's memory is cut. In order there stand 256 bytes for the flat arguments and results of host calls, the
/// slot tables of the 14 kinds, the static data, the spare bytes and the transfer area, each from a multiple of 8.
#[derive(Clone, Copy, PartialEq, Eq, Debug)]
pub struct Layout {
    /// How many places the slot table of each kind has.
    pub slots: u32,
    /// How many bytes the static data has.
    pub image_len: u32,
    /// How many spare bytes there are.
    pub spare: u32,
    /// How many bytes the transfer area has.
    pub transfer: u32,
}

const CALLS_LEN: u64 = 256;

const KINDS: u64 = 14;

const MOST: u64 = 268_435_456;

impl Layout {
    /// Whether the parts together fit 4,096 pages.
    pub fn fits(&self) -> bool
        ensures { result ≡ true ↔ Fits self.now }
    {
        self.end() <= MOST
    }

    /// Where the slot table of a kind begins.
    pub fn table_at(&self, kind: u8) -> u32
        requires fits { Fits self.now }
        requires kind { kind < 14 }
        ensures { result ≡ table_of self.now kind }
    {
        (CALLS_LEN + kind as u64 * self.table_len()) as u32
    }

    /// Where the static data begins.
    pub fn image_at(&self) -> u32
        requires { Fits self.now }
        ensures { result ≡ image_of self.now }
    {
        self.image() as u32
    }

    /// Where the spare bytes begin.
    pub fn spare_at(&self) -> u32
        requires { Fits self.now }
        ensures { result ≡ spare_of self.now }
    {
        (self.image() + padded(self.image_len)) as u32
    }

    /// Where the transfer area begins.
    pub fn transfer_at(&self) -> u32
        requires { Fits self.now }
        ensures { result ≡ transfer_of self.now }
    {
        self.transfer_place() as u32
    }

    /// The fewest pages that hold the parts.
    pub fn pages(&self) -> u32
        requires { Fits self.now }
        ensures { result ≡ pages_of self.now }
    {
        ((self.end() + 65535) / 65536) as u32
    }

    fn table_len(&self) -> u64
        ensures { result ≡ 8 + 16 * self.now.slots }
    {
        8 + 16 * self.slots as u64
    }

    fn image(&self) -> u64
        ensures { result ≡ image_of self.now }
    {
        CALLS_LEN + KINDS * self.table_len()
    }

    fn transfer_place(&self) -> u64
        ensures { result ≡ transfer_of self.now }
    {
        self.image() + padded(self.image_len) + padded(self.spare)
    }

    fn end(&self) -> u64
        ensures { result ≡ end_of self.now }
    {
        self.transfer_place() + self.transfer as u64
    }
}

// The next multiple of 8.
fn padded(len: u32) -> u64
    ensures { result ≡ padded_of len }
{
    (len as u64 + 7) / 8 * 8
}
