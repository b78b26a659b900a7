//! What is found, compared with what is wanted as text.

use std::alloc::Global;
use std::fmt::Debug;
use std::process::Abort;
use std::test::Fail;

/// What is found, as it is printed for debugging.
pub fn shown<T: Debug>(alloc: Global, found: &T) -> Result<String, Fail> {
    Ok(format!(in alloc; "{found:?}")?)
}

/// What is found is what is wanted, once it is shown.
pub fn same<T: Debug>(rt: &impl Abort, alloc: Global, found: &T, wanted: &str) -> Result<(), Fail> {
    compare(rt, shown(alloc, found)?.as_str(), wanted, "");
    Ok(())
}

fn compare(rt: &impl Abort, found: &str, wanted: &str, row: &str) {
    assert_eq!(rt; found, wanted, "{row}");
}

/// Each line is a row, with what is asked, and what is wanted after ` => `; or it begins with `# ` and says what the next rows
/// are.
pub fn hold<F: FnMut(Global, &str) -> Result<String, Fail>>(
    rt: &impl Abort,
    alloc: Global,
    rows: &str,
    mut answer: F,
) -> Result<(), Fail>
    requires { F.IsAlwaysCallable answer }
{
    for row in rows.lines() {
        if row.starts_with("# ") {
            continue;
        }
        let Some((asked, wanted)) = row.split_once(" => ") else {
            return Err(Fail::from("a row without an answer"));
        };
        let found = answer(alloc, asked)?;
        compare(rt, found.as_str(), wanted, row);
    }
    Ok(())
}

/// The numbers of words.
pub fn numbers_of(alloc: Global, words: &str) -> Result<Vec<u64>, Fail> {
    let mut all = Vec::new(alloc);
    for word in words.split_whitespace() {
        all.push(word.parse::<u64>()?)?;
    }
    Ok(all)
}
