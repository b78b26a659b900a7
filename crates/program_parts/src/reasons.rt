//! What a program says on standard error besides what its engine puts: the place where a policy is no TOML, or the machine's reason of a
//! fault. Files are read once more for it.

use std::{fs, io};
use virt_base::Text;

/// A place in a text, by its line and the character in it, both from 1.
#[derive(Clone, Copy)]
struct Place {
    line: usize,
    column: usize,
}

fn place_of(text: &[u8], offset: usize) -> Place {
    let mut place = Place { line: 1, column: 1 };
    for byte in &text[..offset.min(text.len())] {
        if *byte == b'\n' {
            place.line = place.line.saturating_add(1);
            place.column = 1;
        } else if *byte & 0xC0 != 0x80 {
            place.column = place.column.saturating_add(1);
        }
    }
    place
}

/// The bytes of a file once more; none of what can be read only once, as a pipe.
pub fn bytes_of(rt: &HostRuntime, name: &Text) -> Option<Vec<u8>> {
    match fs::metadata(rt, name.as_str()) {
        Ok(found) if found.is_file() => {}
        _ => return None,
    }
    fs::read(rt, name.as_str()).ok()
}

/// Where a policy is no TOML, and why.
pub fn say_policy(rt: &HostRuntime, program: &str, name: &Text) -> io::Result<()> {
    let Some(bytes) = bytes_of(rt, name) else {
        return Ok(());
    };
    let Err(e) = toml::table_from_slice(rt.alloc(), bytes.as_slice()) else {
        return Ok(());
    };
    let Some(span) = e.span() else {
        return Ok(());
    };
    let Place { line, column } = place_of(bytes.as_slice(), span.start);
    let (name, why) = (name.as_str(), e.message());
    eprintln!(rt; "{program}: {name}: line {line}, column {column}: {why}")
}

/// What stands before the number of the machine's error.
fn without_number(told: &str) -> &str {
    match told.split_once(" (os error") {
        None => told,
        Some(parts) => parts.0,
    }
}

/// The machine's reason for the fault of a file.
pub fn say_fault(rt: &HostRuntime, program: &str, name: &Text, e: io::Error) -> io::Result<()> {
    let told = format!(in rt.alloc(); "{e}")?;
    let reason = without_number(told.as_str());
    let name = name.as_str();
    eprintln!(rt; "{program}: {name}: {reason}")
}

/// That memory ran out.
pub fn say_no_memory(rt: &HostRuntime, program: &str) -> io::Result<()> {
    eprintln!(rt; "{program}: no result: memory ran out, or a bound on it was passed")
}
