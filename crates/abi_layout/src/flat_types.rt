//! Lists of flat types, which are kept up to the 16 that parameters may have (Component Model, CanonicalABI.md, "Flattening").

#![tactic(auto, using(crate::proofs::FlatLemmas::flats))]

ghost use Rattle.std.specs.Prelude.{◌≡◌, ◌≤◌, ◌∷◌, [], length, Some};

use virt_base::CoreType;

/// The core types by which a value is passed, in order: the first `count` of `types`. A count of 17 says that they are more
/// than 16, and nothing of which.
#[derive(Debug, Clone, Copy)]
pub struct Flat {
    pub types: [CoreType; 16],
    pub count: u8,
    pub ghost whole: { length types ≡ 16 },
    pub ghost counted: { count ≤ 17 },
}

impl Flat {
    ghost use Rattle.abi_layout.specs.Flat.{types_of, add_within, append_within, join_within};

    /// No type.
    pub fn empty() -> Flat
        ensures { types_of result ≡ Some [] }
    {
        Flat {
            types: [CoreType::I32; 16],
            count: 0,
        }
    }

    pub(crate) fn push(&mut self, ty: CoreType)
        ensures { types_of self.new ≡ add_within (types_of self.old) (ty ∷ []) }
    {
        if self.count < 16 {
            self.types[self.count as usize] = ty;
            self.count += 1;
        } else {
            self.count = 17;
        }
    }

    /// Appends the types of the other.
    pub fn append(&mut self, other: &Flat)
        ensures { types_of self.new ≡ append_within (types_of self.old) (types_of other.now) }
    {
        if other.count > 16 {
            self.count = 17;
        } else {
            for i in 0..other.count {
                self.push(other.types[i as usize]);
            }
        }
    }
}
