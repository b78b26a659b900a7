//! Methods by their WIT names, among those of one interface.

ghost use Rattle.std.specs.Prelude.{◌≡◌, map};
ghost use Rattle.std.specs.List.{find};
ghost use Rattle.std.specs.Option.{option_copied};
ghost use Rattle.std.specs.Str.{bytes_eq};
ghost use Rattle.ref_virtual.specs.Named.{method_in};

fn named_among<'a, M: Copy>(methods: &'a [(&'a str, M)], function: &str) -> Option<&'a (&'a str, M)>
    ensures { option_copied result ≡ find (λ m. bytes_eq m.0.now function.now) methods.now }
{
    methods.iter().find(|m| m.0 == function)
}

/// The first of these methods that has the name.
pub fn method_among<'a, M: Copy>(methods: &'a [(&'a str, M)], function: &str) -> Option<M>
    ensures { result ≡ method_in (map (λ m. (m.0.now, m.1)) methods.now) function.now }
{
    match named_among(methods, function) {
        Some(named) => Some(named.1),
        None => None,
    }
}
