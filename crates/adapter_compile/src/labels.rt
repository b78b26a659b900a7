//! Labels of branches: how many of the brackets around a statement a `Leave` passes.

ghost use Rattle.std.specs.Prelude.{◌≡◌, ◌≤◌, length, reverse};
ghost use Rattle.adapter_compile.specs.Instructions.{label_of as label_in};

/// The label after the innermost `Repeat` of a name, of the brackets from the outermost on.
pub fn label_of(labels: &[Option<u32>], name: u32) -> usize
    ensures label { result ≡ label_in name (reverse labels.now) }
    ensures within { result ≤ length labels.now }
{
    match labels {
        [] => 0,
        [outer @ .., around] => {
            if *around == Some(name) {
                0
            } else {
                1 + label_of(outer, name)
            }
        }
    }
}
