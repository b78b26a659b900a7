//! What may be written or not: the trait by which each sort of item answers, and the answers of texts, numbers and lists of items.

ghost use Rattle.std.specs.Prelude.{◌<◌, ◌^◌, length, IsTrue};
ghost use Rattle.std.specs.List.{AllByRecursion};
ghost use Rattle.wasm_format.specs.Format.{name, u32_format};

use virt_base::Text;

/// The most bytes that a length can say, and the most items that a count can.
pub const MOST: usize = 0xFFFF_FFFF;

/// What may be written or not.
pub trait Fit {
    /// It may be written.
    ghost may_be: { Self → Type 0 };

    /// True only where it may be written.
    fn fits(&self) -> bool
        ensures { IsTrue result → may_be self.now };
}

/// True only where a length can say how long a text is.
#[tactic(auto, using(crate::proofs::FitLaws::text_law))]
pub fn text_fits(text: &Text) -> bool
    ensures { IsTrue result → name.Fits text.now }
{
    let bytes = text.bytes();
    if bytes.len() > MOST {
        return false;
    }
    true
}

/// Each number of 32 bits may be written.
#[tactic(auto, using(crate::proofs::FitLaws::number_law))]
pub fn number_fits(number: u32) -> bool
    ensures { IsTrue result → u32_format.Fits number }
{
    let _number = number;
    true
}

/// True only where each of these may be written, and a count can say how many there are.
pub fn all_fit<T: Fit>(items: &[T]) -> bool
    ensures few { IsTrue result → length items.now < 2 ^ 32 }
    ensures each { IsTrue result → AllByRecursion T.may_be items.now }
{
    if items.len() > MOST {
        return false;
    }
    each_fits(items)
}

fn each_fits<T: Fit>(items: &[T]) -> bool
    ensures { IsTrue result → AllByRecursion T.may_be items.now }
{
    let mut rest = items;
    while let Some((first, more)) = rest.split_first() {
        if !first.fits() {
            return false;
        }
        rest = more;
    }
    true
}
