//! Modules spelled in words.

ghost use Rattle.std.specs.Prelude.{IfOk};
ghost use Rattle.core_instance.specs.Matching.{HasCounts};

use core_read::read_module;
use std::alloc::Global;
use std::test::Fail;
use wasm_ast::Module;

/// Bytes that have a name. The modules that run are as wabt's wat2wasm writes them.
const PIECES: &str = "\
# a module's preamble
start 0061736d01000000
# a module with one function, which takes and gives nothing, up to its code
one 0061736d0100000001040160000003020100
# sections: the types () to i32, () to () and i32 to i32; an imported constant i32; a function of the second type; a table of
# funcref; a memory; a constant i32 and a variable i64; a passive segment; a body without instructions
types 010d036000017f60000060017f017f
import 020801016d016e037f00
func 03020101
table 040401700001
memory 0503010001
globals 060b027f0041000b7e0142070b
elements 090401010000
code 0a040102000b
# these sections without the memory, up to the code, with a function of the first type, of the second, and of the third; and of
# the second with the memory
gives 0061736d01000000010d036000017f60000060017f017f020801016d016e037f0003020100040401700001060b027f0041000b7e0142070b090401010000
bare 0061736d01000000010d036000017f60000060017f017f020801016d016e037f0003020101040401700001060b027f0041000b7e0142070b090401010000
takes 0061736d01000000010d036000017f60000060017f017f020801016d016e037f0003020102040401700001060b027f0041000b7e0142070b090401010000
paged 0061736d01000000010d036000017f60000060017f017f020801016d016e037f00030201010404017000010503010001060b027f0041000b7e0142070b090401010000
# takes a function from an i64 to an i32, and a table
linked 0061736d0100000001060160017e017f020f020168016600000168017401700001
# adds the numbers from the argument down to 1, in a loop that it leaves by a branch out of its block
sum 0061736d0100000001060160017f017f03020100070501016600000a23012101017f024003402000450d01200120006a21012000417f6a21000c000b0b20010b
# the Fibonacci number at the argument, by two calls of itself
fib 0061736d0100000001060160017f017f03020100070501016600000a1e011c002000410248047f200005200041016b1000200041026b10006a0b0b
# counts down to 0 in a loop that takes and gives one operand
turns 0061736d0100000001060160017f017f03020100070501016600000a120110002000030041016b220020000d000b0b
# 5, or 6 where the argument is 0
choice 0061736d0100000001060160017f017f03020100070501016600000a0e010c002000047f41050541060b0b
# 10, 20 or 30, by a table of labels
labels 0061736d0100000001060160017f017f03020100070501016600000a1c011a0002400240024020000e020001020b410a0f0b41140f0b411e0b
# 7, the argument and 9
three 0061736d0100000001080160017f037f7f7f03020100070501016600000a0a0108004107200041090b
# traps at once
unreachable 0061736d0100000001040160000003020100070501016600000a05010300000b
# calls by a table of null, a function that answers 77, and one of another type, and adds 1
indirect 0061736d01000000010f036000017f60017e017f60017f017f030403020001040401700003070501016600000908010041010b0201020a18030a00200011000041016a0b060041cd000f0b040041050b
# only calls itself
deep 0061736d0100000001040160000003020100070501016600000a0601040010000b
# the quotient of two signed numbers
quotient 0061736d0100000001070160027f7f017f03020100070501016600000a09010700200020016d0b
# adds the argument to a global of 40, and answers the global where the argument is 0, else the argument
global 0061736d0100000001060160017e017e030201000606017e0142280b070501016600000a13011100230020007c2400230020002000501b0b
# copies bytes in a page that begins with `abcdef`, and loads four from the third on
copy 0061736d0100000001080160037f7f7f017f03020100050401010102070501016600000a13011100200020012002fc0a000041022802000b0b0c010041000b06616263646566
# grows a memory of one page, two at most, and answers what that answers times 100 and the size
grow 0061736d0100000001060160017f017f03020100050401010102070501016600000a0f010d002000400041e4006c3f006a0b
# fills a table of 4 with a function, and answers 1 where its first entry is null and 2 where its last is
fill 0061736d0100000001070160027f7f017f0302010004040170000407050101660000090501030001000a1b0119002000d2002001fc110041002500d141032500d141026c6a0b
# grows a table of one entry, 1,048,576 at most, and answers what that answers and the size
entries 0061736d0100000001060160017f017f03020100040701700101808040070501016600000a0f010d00d0702000fc0f00fc10006a0b
# calls its import with -2, and answers 5, or 6 where the import answers 0
asking 0061736d01000000010a0260017e017f6000017f02070101680166000003020101070501016600010a10010e00427e1000047f41050541060b0b
# exports its import
own 0061736d0100000001060160017e017f02070101680166000007050101660000";

/// The digits of a piece, or else of the word itself.
fn digits_of(word: &str) -> &str {
    for line in PIECES.lines() {
        if let Some(rest) = line.strip_prefix(word)
            && let Some(digits) = rest.strip_prefix(" ")
        {
            return digits;
        }
    }
    word
}

/// The bytes of words. Each is a piece or hexadecimal digits, and after a `*` how often they stand.
pub fn bytes_of(alloc: Global, words: &str) -> Result<Vec<u8>, Fail> {
    let mut all = Vec::new(alloc);
    for word in words.split_whitespace() {
        let (word, count) = word.split_once('*').unwrap_or((word, "1"));
        let bytes = hex::decode(alloc, digits_of(word).as_bytes())?;
        for _ in 0..count.parse::<u32>()? {
            all.extend_from_slice(bytes.as_slice())?;
        }
    }
    Ok(all)
}

/// The module that words spell. It is boxed, since a function that owns a module as it is costs its check ten seconds more.
#[tactic(auto, using(core_instance::proofs::CountLemmas::spelled_counts))]
pub fn module_of(alloc: Global, words: &str) -> Result<Box<Module>, Fail>
    ensures { IfOk result (λ b. HasCounts b.value) }
{
    match read_module(alloc, bytes_of(alloc, words)?.as_slice()) {
        Ok(module) => Ok(Box::new(alloc, module)?),
        Err(_) => Err(Fail::from("no module")),
    }
}
