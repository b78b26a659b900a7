//! Which post-returns the state module needs: one for each flat result that some stub has.

ghost use Rattle.std.specs.Prelude.{◌≡◌};
ghost use Rattle.std.specs.List.{list_any};
ghost use Rattle.adapter_bytes.specs.Emit.{needs, posts_in};

use adapter_state::Posts;
use adapter_stubs::Stub;
use virt_base::CoreType;

/// The flat results of a function.
#[derive(Clone, Copy, PartialEq, Eq, Debug)]
pub enum Flat {
    Bare,
    Narrow,
    Broad,
}

/// One for each of the flat results that the stubs have.
pub fn posts_of(stubs: &[Stub]) -> Posts
    ensures { result ≡ posts_in stubs.now }
{
    Posts {
        bare: is_needed(stubs, Flat::Bare),
        narrow: is_needed(stubs, Flat::Narrow),
        broad: is_needed(stubs, Flat::Broad),
    }
}

fn is_needed(stubs: &[Stub], flat: Flat) -> bool
    ensures { result ≡ list_any (needs flat) stubs.now }
{
    for stub in stubs {
        if has(stub, flat) {
            return true;
        }
    }
    false
}

fn has(stub: &Stub, flat: Flat) -> bool
    ensures { result ≡ needs flat stub.now }
{
    match (flat, stub.flat.results.as_slice()) {
        (Flat::Bare, []) => true,
        (Flat::Narrow, [CoreType::I32]) => true,
        (Flat::Broad, [CoreType::I64]) => true,
        _ => false,
    }
}
