//! A function's own name, without the resource of which it is a method.

/// A function's own name: what stands after the last dot of its WIT name, or all of it.
pub fn own_name(name: &str) -> &str {
    match name.rsplit_once(".") {
        Some((_, own)) => own,
        None => name,
    }
}
