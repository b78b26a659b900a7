//! A test of the machine's files and standard output: what is written is read again, and a file that is too long is told from one that
//! is missing.

use outside::{FileFail, Files, Sink};
use real_outside::{RealFiles, RealSink};
use std::io;
use std::test::Fail;
use virt_base::Text;

#[test]
fn a_file_is_written_and_read(rt: HostRuntime) -> Result<(), Fail> {
    let alloc = rt.alloc();
    let mut files = RealFiles::new(&rt);
    let name = Text::from_str(alloc, "a_file_of_the_test")?;
    assert!(rt; files.create(&name).is_ok());
    assert!(rt; files.append(&name, b"ab").is_ok());
    assert!(rt; files.append(&name, b"c").is_ok());
    let read = files.read(alloc, &name, 3);
    assert!(rt; read.is_ok_and(|bytes| bytes.as_slice() == b"abc".as_slice()));
    let short = files.read(alloc, &name, 2);
    assert!(rt; matches!(short, Err(FileFail::TooLong(3))));
    let absent = files.read(alloc, &Text::from_str(alloc, "no_file_of_the_test")?, 2);
    assert!(rt; matches!(absent, Err(FileFail::Missing)));
    let here = files.list(alloc, &Text::from_str(alloc, ".")?);
    assert!(rt; here.is_ok_and(|entries| !entries.is_empty()));
    let mut out = RealSink::new(io::writer(&rt));
    assert!(rt; out.put(b"").is_ok());
    Ok(())
}
