//! Rows: words of a command line, and the command that they name.

use crate::holding::hold;
use crate::shown::shown;
use std::alloc::Global;
use std::test::Fail;
use virt_base::Text;
use virt_words::read_words;

/// Words between blanks, and what they say.
const ROWS: &str = r#" => Err(Usage)
virt a -p x -o y => Ok(Virt(app: "a", policy: "x", out: "y"))
virt -p x -o y a => Ok(Virt(app: "a", policy: "x", out: "y"))
virt -o y a -p x => Ok(Virt(app: "a", policy: "x", out: "y"))
virt a --policy x --out y => Ok(Virt(app: "a", policy: "x", out: "y"))
virt a --policy=x --out=y => Ok(Virt(app: "a", policy: "x", out: "y"))
virt a -px -oy => Ok(Virt(app: "a", policy: "x", out: "y"))
virt a -p=x -o=y => Ok(Virt(app: "a", policy: "x", out: "y"))
virt - -p - -o y => Ok(Virt(app: "-", policy: "-", out: "y"))
virt -p x -o y -- -a => Ok(Virt(app: "-a", policy: "x", out: "y"))
virt a.wasm -p p.toml => Err(Usage)
virt a -p x -p z -o y => Err(Usage)
virt a -p x --policy z -o y => Err(Usage)
virt a -p -x -o y => Err(Usage)
virt a -p x -o => Err(Usage)
virt a b -p x -o y => Err(Usage)
virt -p x -o y => Err(Usage)
virt a -h -p x -o y => Err(Usage)
virt a --help -p x -o y => Err(Usage)
virt a -V -p x -o y => Err(Usage)
virt a --pol x -o y => Err(Usage)
virt => Err(Usage)
pack => Err(Usage)
pack a -p x -o y => Err(Usage)
run c -s s => Ok(Run(component: "c", script: "s", policy: None, steps: 10000000))
run -s s -p p --steps 5 c => Ok(Run(component: "c", script: "s", policy: Some("p"), steps: 5))
run c --script=s --policy=p --steps=10000000000 => Ok(Run(component: "c", script: "s", policy: Some("p"), steps: 10000000000))
run c -s s --steps 10000000001 => Err(Usage)
run c -s s --steps 0 => Err(Usage)
run c -s s --steps 05 => Err(Usage)
run c -s s --steps +5 => Err(Usage)
run c -s s --steps 1e3 => Err(Usage)
run c -s s --steps= => Err(Usage)
run c -s s --steps 18446744073709551617 => Err(Usage)
run c => Err(Usage)
run c -s s -o y => Err(Usage)
gen 12 o => Ok(Gen(functions: 12, out: "o"))
gen 1000 o => Ok(Gen(functions: 1000, out: "o"))
gen 1001 o => Err(Usage)
gen 0 o => Err(Usage)
gen 012 o => Err(Usage)
gen o => Err(Usage)
gen 12 o x => Err(Usage)
gen 12 o -p x => Err(Usage)
plug a b -p x -o y => Ok(Plug(first: "a", second: "b", policy: "x", out: "y"))
plug -oy a --policy=x b => Ok(Plug(first: "a", second: "b", policy: "x", out: "y"))
plug a -p x -o y => Err(Usage)
plug a b c -p x -o y => Err(Usage)
plug a b -o y => Err(Usage)
plug a b -p x => Err(Usage)
plug a b -p x -o y --steps 3 => Err(Usage)"#;

pub fn said(alloc: Global, line: &str) -> Result<String, Fail> {
    let mut words = Vec::new(alloc);
    for word in line.split_whitespace() {
        words.push(Text::from_str(alloc, word)?)?;
    }
    shown(alloc, &read_words(alloc, words.as_slice()))
}

#[test]
fn words_say_what_the_rows_say(rt: HostRuntime) -> Result<(), Fail> {
    hold(rt.alloc(), "words", ROWS)
}
