//! Rows: the numeric instructions on integers, over edge values.

use crate::rows::{hold, same, shown};
use core_integer::integer;
use std::alloc::Global;
use std::test::Fail;
use virt_base::CoreType;
use wasm_ast::numeric_of;

const EDGES: [u64; 21] = [
    0,
    1,
    2,
    7,
    31,
    32,
    63,
    64,
    0x7F,
    0x80,
    0xFF,
    0x8000,
    0x1234_5678,
    0x7FFF_FFFF,
    0x8000_0000,
    0xFFFF_FFFF,
    0x1_0000_0000,
    0x1234_5678_9ABC_DEF0,
    0x7FFF_FFFF_FFFF_FFFF,
    0x8000_0000_0000_0000,
    0xFFFF_FFFF_FFFF_FFFF,
];

/// What another engine answers for each opcode, as hashes (tools/integer_table.mjs).
const ANSWERS: &str = "\
45 => Some(14381754613730345698)
46 => Some(606181925256296832)
47 => Some(1621525929180211403)
48 => Some(15619829214012944743)
49 => Some(13126724993711301011)
4a => Some(2711559858783900783)
4b => Some(5728308949880798751)
4c => Some(2024707329370430672)
4d => Some(14268361575923411312)
4e => Some(12308690321295257936)
4f => Some(10416097941719575556)
50 => Some(16501647704014391228)
51 => Some(8456301139078429936)
52 => Some(597966532112220611)
53 => Some(3859329501421023659)
54 => Some(2417060011552230059)
55 => Some(4239358008905353011)
56 => Some(3306742019124574683)
57 => Some(8988233164974763476)
58 => Some(11647954693296641564)
59 => Some(3239214910849102436)
5a => Some(16651351976587204036)
67 => Some(8378305134916596580)
68 => Some(11880030565157966035)
69 => Some(7032270980711078158)
6a => Some(4586325808605297371)
6b => Some(5279244108789799555)
6c => Some(1906849927559551607)
6d => Some(9478544087802106958)
6e => Some(4356586198525123454)
6f => Some(11786878929532979004)
70 => Some(7613862109702523880)
71 => Some(7935142099382528351)
72 => Some(8569867920148254503)
73 => Some(470965175396065107)
74 => Some(207339240647930191)
75 => Some(6172460757759317017)
76 => Some(14324339868818880321)
77 => Some(1222092310487555614)
78 => Some(15864152738793957297)
79 => Some(11108838009780477861)
7a => Some(10674063884952907912)
7b => Some(18113700527133288214)
7c => Some(15589961750997367515)
7d => Some(17528492889976167043)
7e => Some(15343551015973198455)
7f => Some(4900804463423037050)
80 => Some(17946448653272389525)
81 => Some(7136398092364680683)
82 => Some(5457616965178543298)
83 => Some(14370081106927118687)
84 => Some(4343613903246446375)
85 => Some(13493091509021433683)
86 => Some(17394133366949098639)
87 => Some(13169901086396721049)
88 => Some(17571987740734158441)
89 => Some(14488659595307668011)
8a => Some(15481140875424660469)
a7 => Some(4710961485116888143)
ac => Some(13814153435017139279)
ad => Some(4710961485116888143)
c0 => Some(17418848407079908687)
c1 => Some(18427915099049972815)
c2 => Some(1992665475852563791)
c3 => Some(7066833900767433807)
c4 => Some(13814153435017139279)";

fn answer(op: u8, a: u64, b: u64) -> Option<u64> {
    let numeric = numeric_of(op)?;
    let result = match numeric.from {
        CoreType::I32 => integer(op, a % 0x1_0000_0000, b % 0x1_0000_0000),
        _ => integer(op, a, b),
    };
    Some(result.map_or(0x5452_4150, |value| value ^ 1))
}

fn hash_of(op: u8) -> Option<u64> {
    let mut hash: u64 = 0;
    for a in EDGES {
        for b in EDGES {
            hash = (hash ^ answer(op, a, b)?).wrapping_mul(0x100_0000_01B3);
        }
    }
    Some(hash)
}

/// The hash of an opcode in hexadecimal digits.
fn hash_at(alloc: Global, digits: &str) -> Result<String, Fail> {
    match hex::decode(alloc, digits.as_bytes())?.as_slice() {
        [op] => shown(alloc, &hash_of(*op)),
        _ => Err(Fail::from("no opcode")),
    }
}

#[test]
fn numeric_instructions(rt: HostRuntime) -> Result<(), Fail> {
    hold(&rt, rt.alloc(), ANSWERS, hash_at)?;
    // divisions at the edges
    let edges = (
        integer(0x6D, 7, 0),
        integer(0x6D, 0x8000_0000, 0xFFFF_FFFF),
        integer(0x6F, 0x8000_0000, 0xFFFF_FFFF),
    );
    same(&rt, rt.alloc(), &edges, "(Err(Trap), Err(Trap), Ok(0))")
}
