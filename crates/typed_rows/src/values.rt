//! Values that are read of a script, and printed again.

use crate::rows::{Kind, hold};
use crate::scripts::{args_in, call_of, fault_in_words, line, script_of};
use host_port::Observation;
use std::alloc::Global;
use std::test::Fail;
use wasi_table::Interface;

/// The line of a call with these arguments, or the fault of the script that makes it.
pub fn printed(alloc: Global, interface: &Interface, args: &str) -> Result<String, Fail> {
    match script_of(alloc, interface, "", args)? {
        Ok(script) => {
            let call = call_of(alloc, interface, args_in(script.calls)?)?;
            line(alloc, &Observation::Called(call), None)
        }
        Err(fault) => fault_in_words(alloc, &fault),
    }
}

/// What is printed was compared with Python's `json.dumps` with `ensure_ascii=False`. A number that is not written as an integer is
/// none, whatever its value. A character is a text of one. `\b \f \n \r \t \" \\` and other characters below 20 in hexadecimal are
/// escaped, and no others.
const SCALARS: &str = r#"# i: truths;function f bool
true => ["call","i","f",[true]]
false => ["call","i","f",[false]]
0 => at|calls[0]
1 => at|calls[0]
"true" => at|calls[0]
null => at|calls[0]
[] => at|calls[0]
{} => at|calls[0]
# i: small integers;function f u8
0 => ["call","i","f",[0]]
255 => ["call","i","f",[255]]
256 => at|calls[0]
-1 => at|calls[0]
# i: small integers;function f s8
-128 => ["call","i","f",[-128]]
127 => ["call","i","f",[127]]
-129 => at|calls[0]
128 => at|calls[0]
# i: small integers;function f u16
0 => ["call","i","f",[0]]
65535 => ["call","i","f",[65535]]
65536 => at|calls[0]
-1 => at|calls[0]
# i: small integers;function f s16
-32768 => ["call","i","f",[-32768]]
32767 => ["call","i","f",[32767]]
-32769 => at|calls[0]
32768 => at|calls[0]
# i: wide integers;function f u32
0 => ["call","i","f",[0]]
4294967295 => ["call","i","f",[4294967295]]
4294967296 => at|calls[0]
-1 => at|calls[0]
# i: wide integers;function f s32
-2147483648 => ["call","i","f",[-2147483648]]
2147483647 => ["call","i","f",[2147483647]]
-2147483649 => at|calls[0]
2147483648 => at|calls[0]
# i: widest integers;function f u64
0 => ["call","i","f",[0]]
18446744073709551615 => ["call","i","f",[18446744073709551615]]
18446744073709551616 => at|calls[0]
-1 => at|calls[0]
# i: widest integers;function f s64
-9223372036854775808 => ["call","i","f",[-9223372036854775808]]
9223372036854775807 => ["call","i","f",[9223372036854775807]]
-9223372036854775809 => at|calls[0]
9223372036854775808 => at|calls[0]
# i: no integers;function f u8
1.0 => at|calls[0]
1e2 => at|calls[0]
-0 => at|calls[0]
0.5 => at|calls[0]
1e0 => at|calls[0]
100000000000000000000 => at|calls[0]
"1" => at|calls[0]
true => at|calls[0]
null => at|calls[0]
[1] => at|calls[0]
# i: no integers;function f s64
1.0 => at|calls[0]
1e2 => at|calls[0]
-0 => at|calls[0]
0.5 => at|calls[0]
1e0 => at|calls[0]
100000000000000000000 => at|calls[0]
"1" => at|calls[0]
true => at|calls[0]
null => at|calls[0]
[1] => at|calls[0]
# i: no integers;function f u64
1.0 => at|calls[0]
1e2 => at|calls[0]
-0 => at|calls[0]
0.5 => at|calls[0]
1e0 => at|calls[0]
100000000000000000000 => at|calls[0]
"1" => at|calls[0]
true => at|calls[0]
null => at|calls[0]
[1] => at|calls[0]
# i: no handles;resource error;function f own error
1.0 => at|calls[0]
1e2 => at|calls[0]
-0 => at|calls[0]
0.5 => at|calls[0]
1e0 => at|calls[0]
100000000000000000000 => at|calls[0]
"1" => at|calls[0]
true => at|calls[0]
null => at|calls[0]
[1] => at|calls[0]
# i: handles;resource output-stream;function f own output-stream
0 => ["call","i","f",[0]]
3 => ["call","i","f",[3]]
4294967295 => ["call","i","f",[4294967295]]
4294967296 => at|calls[0]
-1 => at|calls[0]
"3" => at|calls[0]
# i: handles;resource output-stream;function f borrow output-stream
0 => ["call","i","f",[0]]
3 => ["call","i","f",[3]]
4294967295 => ["call","i","f",[4294967295]]
4294967296 => at|calls[0]
-1 => at|calls[0]
"3" => at|calls[0]
# i: characters;function f char
"a" => ["call","i","f",["a"]]
"é" => ["call","i","f",["é"]]
"😀" => ["call","i","f",["😀"]]
"\"" => ["call","i","f",["\""]]
"\u0041" => ["call","i","f",["A"]]
"\ud83d\ude00" => ["call","i","f",["😀"]]
"" => at|calls[0]
"ab" => at|calls[0]
"e\u0301" => at|calls[0]
97 => at|calls[0]
null => at|calls[0]
# i: texts;function f string
"" => ["call","i","f",[""]]
"x/y" => ["call","i","f",["x/y"]]
"\b\f\n\r\t\"\\" => ["call","i","f",["\b\f\n\r\t\"\\"]]
"\u0000\u001f\u000b" => ["call","i","f",["\u0000\u001f\u000b"]]
"\/" => ["call","i","f",["/"]]
"\u001F" => ["call","i","f",["\u001f"]]
"\u0008\u000a" => ["call","i","f",["\b\n"]]
"\u00e9\u20ac" => ["call","i","f",["é€"]]
1 => at|calls[0]
null => at|calls[0]
["a"] => at|calls[0]
{} => at|calls[0]"#;

/// Characters that are not escaped, though no one sees them.
const UNSEEN: &str = "\
# i: texts;function f string
\"\u{7f}\u{80}\u{2028}\" => [\"call\",\"i\",\"f\",[\"\u{7f}\u{80}\u{2028}\"]]";

/// Lists, records, variants and flags.
const PARTS: &str = r#"# i: lists of bytes;function f list u8
[] => ["call","i","f",[[]]]
[0] => ["call","i","f",[[0]]]
[65,61,49,10] => ["call","i","f",[[65,61,49,10]]]
[ 1 ,  2 ] => ["call","i","f",[[1,2]]]
[256] => at|calls[0]
[1,-1] => at|calls[0]
[[1]] => at|calls[0]
{} => at|calls[0]
"a" => at|calls[0]
null => at|calls[0]
# i: lists of texts;function f list string
[] => ["call","i","f",[[]]]
["a","","a"] => ["call","i","f",[["a","","a"]]]
["a",1] => at|calls[0]
[null] => at|calls[0]
# i: lists of lists;function f list list s8
[[],[-1],[1,2]] => ["call","i","f",[[[],[-1],[1,2]]]]
[[],1] => at|calls[0]
# i: tuples;function f tuple2 u8 string
[1,"a"] => ["call","i","f",[[1,"a"]]]
[] => at|calls[0]
[1] => at|calls[0]
[1,"a",2] => at|calls[0]
["a",1] => at|calls[0]
{"0":1,"1":"a"} => at|calls[0]
# i: records, whose fields are printed in byte order;record t,b u8,a-b bool,a string;function f t
{"b":1,"a-b":true,"a":"x"} => ["call","i","f",[{"a":"x","a-b":true,"b":1}]]
{"a":"x","a-b":true,"b":2} => ["call","i","f",[{"a":"x","a-b":true,"b":2}]]
{"b":1,"a-b":true,"a":"x","b":9} => ["call","i","f",[{"a":"x","a-b":true,"b":9}]]
{} => at|calls[0]
{"b":1,"a-b":true} => at|calls[0]
{"b":1,"a-b":true,"a":"x","c":1} => at|calls[0]
{"b":1,"a-b":1,"a":"x"} => at|calls[0]
{"B":1,"a-b":true,"a":"x"} => at|calls[0]
[1,true,"x"] => at|calls[0]
# i: variants;variant t,none,some-of u8;function f t
{"none":null} => ["call","i","f",[{"none":null}]]
{"some-of":7} => ["call","i","f",[{"some-of":7}]]
{"none":1} => at|calls[0]
{"some-of":null} => at|calls[0]
{"some-of":256} => at|calls[0]
{} => at|calls[0]
{"none":null,"some-of":7} => at|calls[0]
{"other":null} => at|calls[0]
"none" => at|calls[0]
null => at|calls[0]
# i: enums;enum t first second;function f t
"first" => ["call","i","f",["first"]]
"second" => ["call","i","f",["second"]]
"third" => at|calls[0]
"" => at|calls[0]
0 => at|calls[0]
{"first":null} => at|calls[0]
null => at|calls[0]
# i: options;function f option u8
null => ["call","i","f",[null]]
{"some":1} => ["call","i","f",[{"some":1}]]
1 => at|calls[0]
{"none":null} => at|calls[0]
{"some":null} => at|calls[0]
{} => at|calls[0]
{"some":1,"x":1} => at|calls[0]
# i: options of options;function f option option string
null => ["call","i","f",[null]]
{"some":null} => ["call","i","f",[{"some":null}]]
{"some":{"some":"a"}} => ["call","i","f",[{"some":{"some":"a"}}]]
# i: results;function f result u8 _
{"ok":1} => ["call","i","f",[{"ok":1}]]
{"err":null} => ["call","i","f",[{"err":null}]]
{"ok":null} => at|calls[0]
{"err":1} => at|calls[0]
null => at|calls[0]
{} => at|calls[0]
{"error":null} => at|calls[0]
# i: results of nothing;function f result _ _
{"ok":null} => ["call","i","f",[{"ok":null}]]
{"err":null} => ["call","i","f",[{"err":null}]]
{"ok":1} => at|calls[0]
# i: flags, which are the labels that are set, in the order of the type;flags t read write sync;function f t
[] => ["call","i","f",[[]]]
["read"] => ["call","i","f",[["read"]]]
["sync"] => ["call","i","f",[["sync"]]]
["read","sync"] => ["call","i","f",[["read","sync"]]]
["read","write","sync"] => ["call","i","f",[["read","write","sync"]]]
["write","read"] => at|calls[0]
["read","read"] => at|calls[0]
["other"] => at|calls[0]
[0] => at|calls[0]
{"read":true} => at|calls[0]
"read" => at|calls[0]
["sync",null] => at|calls[0]
[null] => at|calls[0]
# wasi:io/streams@0.2.0: a method;resource output-stream,blocking-write-and-flush list u8
3,[65,61,49,10] => ["call","wasi:io/streams@0.2.0","[method]output-stream.blocking-write-and-flush",[3,[65,61,49,10]]]"#;

#[test]
fn values_are_printed(rt: HostRuntime) -> Result<(), Fail> {
    hold(&rt, rt.alloc(), Kind::Printed, SCALARS)?;
    hold(&rt, rt.alloc(), Kind::Printed, UNSEEN)?;
    hold(&rt, rt.alloc(), Kind::Printed, PARTS)
}
