//! What stands before the outcome of a row: a name, and what it is set to.

use crate::texts::halves;
use outside::Places;
use std::alloc::Global;
use virt_base::Items;

/// What a name was set to last.
pub fn setting<'a>(settings: &[&'a str], name: &str) -> Option<&'a str> {
    let mut last = None;
    for setting in settings {
        let (set, to) = halves(setting, " ");
        if set == name {
            last = Some(to);
        }
    }
    last
}

/// The number that a name was set to last, or else this one.
pub fn number(settings: &[&str], name: &str, or: u64) -> u64 {
    match setting(settings, name) {
        Some(text) => text.parse::<u64>().unwrap_or(or),
        None => or,
    }
}

/// The call that is to fail, if a name was set to its number.
pub fn failing(alloc: Global, settings: &[&str], name: &str) -> Option<Places> {
    let mut places = Items::empty(alloc);
    if let Some(text) = setting(settings, name) {
        places.push(text.parse::<u64>().ok()?).ok()?;
    }
    Some(places)
}
