//! The words for the fault of a policy and of an application. Each is a part of one line.

ghost use Rattle.std.specs.Prelude.{◌≡◌, ◌<◌, IfOk, string_bytes};
ghost use Rattle.virt_words.specs.FaultTexts.{hex_digit, hex_byte, policy_text, app_text};

use crate::policy_fault::PolicyFault;
use std::alloc::{AllocError, Global};
use virt_base::AppFault;

fn hex_digit_of(n: u8) -> char
    requires { n < 16 }
    ensures { result ≡ hex_digit n }
{
    if n < 10 {
        char::from(n + 48)
    } else {
        char::from(n + 87)
    }
}

/// Two hexadecimal digits in lower case.
fn hex_of(alloc: Global, byte: u8) -> Result<String, AllocError>
    ensures { IfOk result (λ text. string_bytes text ≡ hex_byte byte) }
{
    let mut text = String::new(alloc);
    text.push(hex_digit_of(byte / 16))?;
    text.push(hex_digit_of(byte % 16))?;
    Ok(text)
}

/// Why a policy is refused, and where.
pub fn policy_line(alloc: Global, fault: &PolicyFault) -> Result<String, AllocError>
    ensures { IfOk result (λ text. string_bytes text ≡ policy_text fault.now) }
{
    match fault {
        PolicyFault::NotToml => String::from_str(alloc, "not-toml"),
        PolicyFault::BadKey(path) => {
            let path = path.as_str();
            format!(in alloc; "bad-key {path}")
        }
        PolicyFault::BadValue(path) => {
            let path = path.as_str();
            format!(in alloc; "bad-value {path}")
        }
        PolicyFault::BadName(path) => {
            let path = path.as_str();
            format!(in alloc; "bad-name {path}")
        }
    }
}

/// Why an application is refused, and where.
pub fn app_line(alloc: Global, fault: &AppFault) -> Result<String, AllocError>
    ensures { IfOk result (λ text. string_bytes text ≡ app_text fault.now) }
{
    match fault {
        AppFault::Malformed(at) => format!(in alloc; "malformed at {at}"),
        AppFault::Unsupported(at, byte) => {
            let hex = hex_of(alloc, *byte)?;
            format!(in alloc; "unsupported at {at} byte {hex}")
        }
        AppFault::Invalid(rule, section) => {
            format!(in alloc; "invalid rule {rule} section {section}")
        }
        AppFault::Unlisted(name) => {
            let name = name.as_str();
            format!(in alloc; "unlisted {name}")
        }
        AppFault::WrongType(name) => {
            let name = name.as_str();
            format!(in alloc; "wrong-type {name}")
        }
        AppFault::TwoVersions(name) => {
            let name = name.as_str();
            format!(in alloc; "two-versions {name}")
        }
        AppFault::HandleExport(name) => {
            let name = name.as_str();
            format!(in alloc; "handle-export {name}")
        }
    }
}
