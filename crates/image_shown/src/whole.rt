// An image with every kind of node and of literal, and what damage to one or two of its fields does.
//
// In it v, o and w are the names 1, 2 and 3, and 'l is the label 1:
//
//     fn sum(x, y) { x + y }          function 0: the names 1022 and 1023
//     fn none() {}                    function 1
//     {
//         let v = [(), true, 7u, 1.5, 'é', b"\xFF\0"];
//         let o = #{ "k": (1, v), "é = ": none() };
//         o.k.0 = 1;
//         o.k.0 -= 1;
//         'l: while let w = v { break 'l }
//         if true { v } else if let _ = 1 {} else { () };
//         `é = ${o.k}k`;
//         sum(1, 1 << 1)
//     }
use crate::show::show_start;
use fields::put;
use std::io;

// A line of bytes is a record: the header, 2 functions, 59 nodes, 9 literals, and the text.
const WHOLE: [u8; 586] = *b"\x10\x20\x3B\x00\x90\x00\x80\x01\
      \x03\x72\xFF\x80\
      \x03\xB0\x00\x00\
      \x08\x00\x00\x04\x06\x40\x00\x00\
      \x18\x00\x20\x06\x00\x00\x14\x00\
      \x68\x00\x00\x08\x00\x00\x00\x00\
      \x48\x00\x00\x00\x00\x00\x0A\x00\
      \x48\x00\x00\x02\x00\x00\x0C\x00\
      \x48\x00\x00\x04\x00\x00\x0E\x00\
      \x48\x00\x00\x08\x00\x00\x10\x00\
      \x48\x00\x00\x0A\x00\x00\x12\x00\
      \x48\x00\x00\x10\x00\x00\x00\x00\
      \x18\x00\x40\x16\x00\x00\x24\x00\
      \x78\x00\x00\x18\x00\x00\x00\x00\
      \x98\x00\x00\x0C\x01\xA0\x20\x00\
      \x70\x00\x00\x1C\x00\x00\x00\x00\
      \x48\x00\x00\x06\x00\x00\x1E\x00\
      \x38\x00\x20\x00\x00\x00\x00\x00\
      \x98\x00\x00\x0E\x02\x20\x00\x00\
      \x80\x00\x20\x00\x00\x00\x00\x00\
      \x20\x00\x00\x26\x02\xC0\x2E\x00\
      \xB8\x00\x00\x28\x00\x00\x00\x00\
      \xB0\x00\x00\x2A\x00\xC0\x00\x00\
      \xA8\x00\x40\x00\x00\x00\x00\x00\
      \x48\x00\x00\x06\x00\x00\x00\x00\
      \x28\x80\x00\x30\x03\x60\x38\x00\
      \xB8\x00\x00\x32\x00\x00\x00\x00\
      \xB0\x00\x00\x34\x00\xC0\x00\x00\
      \xA8\x00\x40\x00\x00\x00\x00\x00\
      \x48\x00\x00\x06\x00\x00\x00\x00\
      \x58\x00\x20\x3A\x03\xE0\x42\x00\
      \xA0\x80\x60\x3C\x00\x00\x00\x00\
      \x38\x00\x20\x00\x00\x00\x00\x00\
      \x08\x00\x00\x40\x00\x00\x00\x00\
      \x60\x00\x20\x00\x00\x00\x00\x00\
      \x50\x00\x00\x44\x05\x40\x58\x00\
      \x90\x00\x00\x46\x04\x80\x4C\x00\
      \x48\x00\x00\x02\x00\x00\x00\x00\
      \x08\x00\x00\x00\x04\xA0\x00\x00\
      \x38\x00\x20\x00\x00\x00\x00\x00\
      \x90\x00\x00\x4E\x05\x20\x00\x00\
      \xA0\x00\x00\x50\x00\x00\x00\x00\
      \x48\x00\x00\x06\x00\x00\x00\x00\
      \x08\x00\x00\x00\x00\x00\x00\x00\
      \x08\x00\x00\x00\x05\x60\x00\x00\
      \x48\x00\x00\x00\x00\x00\x00\x00\
      \x30\x00\x00\x5A\x00\x00\x00\x00\
      \x88\x00\x00\x0E\x00\x00\x5C\x00\
      \x40\x00\x00\x5E\x00\x00\x62\x00\
      \xB0\x00\x00\x60\x00\xC0\x00\x00\
      \xA8\x00\x40\x00\x00\x00\x00\x00\
      \x88\x00\x00\x0C\x00\x00\x00\x00\
      \x80\x00\x00\x66\x00\x00\x00\x00\
      \x48\x00\x00\x06\x00\x00\x68\x00\
      \x12\x00\x00\x6A\x06\xC0\x00\x00\
      \x48\x00\x00\x06\x00\x00\x00\x00\
      \x48\x00\x00\x06\x00\x00\x00\x00\
      \x08\x00\x00\x00\x07\x00\x00\x00\
      \x10\x00\x00\x72\x07\x40\x00\x00\
      \x38\x7F\xC0\x00\x00\x00\x00\x00\
      \x38\x7F\xE0\x00\x00\x00\x00\x00\
      \x08\x00\x00\x00\x00\x00\x00\x00\
      \x00\x00\x00\x00\x00\x00\x00\x00\x00\x00\
      \x10\x00\x00\x00\x00\x00\x00\x00\x00\x01\
      \x20\x00\x00\x00\x00\x00\x00\x00\x00\x07\
      \x30\x00\x00\x00\x00\x00\x00\x00\x00\x01\
      \x40\x00\x3F\xF8\x00\x00\x00\x00\x00\x00\
      \x50\x00\x00\x00\x00\x00\x00\x00\x00\xE9\
      \x60\x00\x00\x00\x00\x00\x00\x00\x00\x01\
      \x60\x00\x00\x00\x00\x00\x00\x01\x00\x05\
      \x70\x00\x00\x00\x00\x00\x00\x06\x00\x02\
      \x6B\xC3\xA9\x20\x3D\x20\xFF\x00";

// A field of a record: its first bit in the record, and how many bits it has.
#[derive(Clone, Copy)]
struct Field {
    bit: u8,
    width: u32,
}

// Of a header.
const EDITION: Field = Field { bit: 0, width: 4 };

const NODES: Field = Field { bit: 12, width: 12 };

const ROOT: Field = Field { bit: 52, width: 12 };
// Of a function.
const BODY: Field = Field { bit: 0, width: 12 };

const COUNT: Field = Field { bit: 12, width: 4 };

const FIRST: Field = Field { bit: 16, width: 10 };

const ZERO_6: Field = Field { bit: 26, width: 6 };
// Of a node.
const KIND: Field = Field { bit: 0, width: 5 };

const OP: Field = Field { bit: 5, width: 4 };

const TAG: Field = Field { bit: 9, width: 10 };

const A: Field = Field { bit: 19, width: 12 };

const B: Field = Field { bit: 31, width: 12 };

const NEXT: Field = Field { bit: 43, width: 12 };

const ZERO_9: Field = Field { bit: 55, width: 9 };
// Of a literal; 6 and 7 have their payload in three.
const LITERAL_KIND: Field = Field { bit: 0, width: 4 };

const ZERO_12: Field = Field { bit: 4, width: 12 };

const PAYLOAD: Field = Field { bit: 16, width: 64 };

const ZERO_32: Field = Field { bit: 16, width: 32 };

const START: Field = Field { bit: 48, width: 16 };

const LENGTH: Field = Field { bit: 64, width: 16 };

// Another value for a field of the image: its first bit in the image, its bits, and the value.
#[derive(Clone, Copy)]
struct Damage {
    bit: usize,
    width: u32,
    value: u64,
}

fn header(field: Field, value: u64) -> Damage {
    Damage {
        bit: field.bit as usize,
        width: field.width,
        value,
    }
}

fn function(f: u8, field: Field, value: u64) -> Damage {
    Damage {
        bit: 64 + 32 * f as usize + field.bit as usize,
        width: field.width,
        value,
    }
}

fn node(n: u8, field: Field, value: u64) -> Damage {
    Damage {
        bit: 64 + 64 * n as usize + field.bit as usize,
        width: field.width,
        value,
    }
}

fn literal(l: u8, field: Field, value: u64) -> Damage {
    Damage {
        bit: 3904 + 80 * l as usize + field.bit as usize,
        width: field.width,
        value,
    }
}

// The first n bytes of the image with two damages, which may be the same.
fn damaged(rt: &impl Print, label: &[u8], d: Damage, e: Damage, n: usize) -> io::Result<()> {
    let mut image = WHOLE;
    put(&mut image, d.bit, d.width, d.value);
    put(&mut image, e.bit, e.width, e.value);
    show_start(rt, label, &image, n)
}

fn start(rt: &impl Print, label: &[u8], d: Damage, n: usize) -> io::Result<()> {
    damaged(rt, label, d, d, n)
}

fn two(rt: &impl Print, label: &[u8], d: Damage, e: Damage) -> io::Result<()> {
    damaged(rt, label, d, e, 586)
}

fn one(rt: &impl Print, label: &[u8], d: Damage) -> io::Result<()> {
    damaged(rt, label, d, d, 586)
}

fn in_header(rt: &impl Print, label: &[u8], field: Field, value: u64) -> io::Result<()> {
    one(rt, label, header(field, value))
}

fn in_function(rt: &impl Print, label: &[u8], f: u8, field: Field, value: u64) -> io::Result<()> {
    one(rt, label, function(f, field, value))
}

fn in_node(rt: &impl Print, label: &[u8], n: u8, field: Field, value: u64) -> io::Result<()> {
    one(rt, label, node(n, field, value))
}

fn in_literal(rt: &impl Print, label: &[u8], l: u8, field: Field, value: u64) -> io::Result<()> {
    one(rt, label, literal(l, field, value))
}

// Refusals 1 and 2 in 01's order: edition, length, root. Edition 1 is no damage.
fn headers(rt: &impl Print) -> io::Result<()> {
    in_header(rt, b"every kind", EDITION, 1)?;
    in_header(rt, b"edition 0", EDITION, 0)?;
    in_header(rt, b"edition 2", EDITION, 2)?;
    in_header(rt, b"root 0", ROOT, 0)?;
    in_header(rt, b"root N + 1", ROOT, 60)?;
    in_header(rt, b"a node less", NODES, 58)?;
    start(rt, b"edition 0, 7 bytes", header(EDITION, 0), 7)?;
    start(rt, b"a header alone", header(EDITION, 1), 8)?;
    start(rt, b"edition 0, a byte short", header(EDITION, 0), 585)?;
    start(rt, b"root 0, a byte short", header(ROOT, 0), 585)?;
    two(rt, b"root 0, kind 0", header(ROOT, 0), node(1, KIND, 0))
}

// Refusal 3, functions. Their names stay below 1,024: the first and the count are at most that together.
fn functions(rt: &impl Print) -> io::Result<()> {
    in_function(rt, b"body 0", 0, BODY, 0)?;
    in_function(rt, b"body N + 1", 1, BODY, 60)?;
    in_function(rt, b"2 names from 1,022", 0, COUNT, 2)?;
    in_function(rt, b"3 names from 1,022", 0, COUNT, 3)?;
    two(
        rt,
        b"15 names from 1,009",
        function(1, COUNT, 15),
        function(1, FIRST, 1009),
    )?;
    two(
        rt,
        b"15 names from 1,010",
        function(1, COUNT, 15),
        function(1, FIRST, 1010),
    )?;
    in_function(rt, b"no names from 1,023", 1, FIRST, 1023)?;
    in_function(rt, b"zero bits", 1, ZERO_6, 1)?;
    two(
        rt,
        b"two functions",
        function(1, BODY, 0),
        function(0, ZERO_6, 32),
    )
}

// Refusal 3, the numbers of a node: kind, op, tag, index, zero bits.
fn nodes(rt: &impl Print) -> io::Result<()> {
    in_node(rt, b"kind 0", 2, KIND, 0)?;
    in_node(rt, b"kind 24", 2, KIND, 24)?;
    in_node(rt, b"binary op 10", 52, OP, 10)?;
    in_node(rt, b"binary op 11", 52, OP, 11)?;
    in_node(rt, b"assign op 5", 23, OP, 5)?;
    in_node(rt, b"assign op 6", 23, OP, 6)?;
    in_node(rt, b"scope op 1", 1, OP, 1)?;
    in_node(rt, b"let op 0 with a tag", 39, TAG, 1)?;
    in_node(rt, b"function F", 17, TAG, 2)?;
    in_node(rt, b"index 4,095", 19, B, 4095)?;
    in_node(rt, b"first zero bit", 59, ZERO_9, 256)?;
    in_node(rt, b"last zero bit", 59, ZERO_9, 1)
}

// Refusal 3, the literals that a node names. Literal 8 is bytes, 7 is text.
fn literal_numbers(rt: &impl Print) -> io::Result<()> {
    in_node(rt, b"value of L - 1", 4, A, 8)?;
    in_node(rt, b"value of L", 4, A, 9)?;
    in_node(rt, b"text of bytes", 45, A, 8)?;
    in_node(rt, b"entry of bytes", 12, A, 8)?;
    in_node(rt, b"field of bytes", 20, B, 8)?;
    in_literal(rt, b"text of kind 15: its node", 7, LITERAL_KIND, 15)?;
    in_literal(rt, b"value of kind 15: its record", 0, LITERAL_KIND, 15)
}

// Refusal 3, references that are needed.
fn needed(rt: &impl Print) -> io::Result<()> {
    in_node(rt, b"decl a 0", 2, A, 0)?;
    in_node(rt, b"entry b 0", 12, B, 0)?;
    in_node(rt, b"tuple a 0", 13, A, 0)?;
    in_node(rt, b"set a 0", 18, A, 0)?;
    in_node(rt, b"set b 0", 18, B, 0)?;
    in_node(rt, b"index a 0", 19, A, 0)?;
    in_node(rt, b"field a 0", 20, A, 0)?;
    in_node(rt, b"assign a 0", 23, A, 0)?;
    in_node(rt, b"assign b 0", 23, B, 0)?;
    in_node(rt, b"loop b 0", 28, B, 0)?;
    in_node(rt, b"let a 0", 29, A, 0)?;
    in_node(rt, b"arm a 0", 34, A, 0)?;
    in_node(rt, b"arm b 0", 34, B, 0)?;
    in_node(rt, b"read a 0", 46, A, 0)?;
    in_node(rt, b"binary a 0", 52, A, 0)?;
    in_node(rt, b"binary b 0", 52, B, 0)
}

// Refusal 3, references above N, and fields that are not listed.
fn ranges(rt: &impl Print) -> io::Result<()> {
    in_node(rt, b"a N + 1", 1, A, 60)?;
    in_node(rt, b"b N + 1", 1, B, 60)?;
    in_node(rt, b"next N + 1", 2, NEXT, 60)?;
    in_node(rt, b"vec b", 3, B, 4)?;
    in_node(rt, b"name a", 15, A, 2)?;
    in_node(rt, b"vec tag", 3, TAG, 1)
}

// References that may be 0: none names then what they named, which is refusal 4.
fn not_needed(rt: &impl Print) -> io::Result<()> {
    in_node(rt, b"scope a 0", 1, A, 0)?;
    in_node(rt, b"scope b 0", 1, B, 0)?;
    in_node(rt, b"template a 0", 44, A, 0)?;
    in_node(rt, b"branches a 0", 33, A, 0)?;
    in_node(rt, b"branches b 0", 33, B, 0)?;
    in_node(rt, b"loop a 0", 28, A, 0)?;
    in_node(rt, b"vec a 0", 3, A, 0)?;
    in_node(rt, b"object a 0", 11, A, 0)?;
    in_node(rt, b"call a 0", 50, A, 0)
}

// Refusal 3, literals.
fn literals(rt: &impl Print) -> io::Result<()> {
    in_literal(rt, b"unit 1", 0, PAYLOAD, 1)?;
    in_literal(rt, b"bool 2", 1, PAYLOAD, 2)?;
    in_literal(rt, b"char D7FF", 5, PAYLOAD, 0xD7FF)?;
    in_literal(rt, b"char D800", 5, PAYLOAD, 0xD800)?;
    in_literal(rt, b"char DFFF", 5, PAYLOAD, 0xDFFF)?;
    in_literal(rt, b"char E000", 5, PAYLOAD, 0xE000)?;
    in_literal(rt, b"char 10FFFF", 5, PAYLOAD, 0x10FFFF)?;
    in_literal(rt, b"char 110000", 5, PAYLOAD, 0x110000)?;
    in_literal(rt, b"literal kind 8", 2, LITERAL_KIND, 8)?;
    in_literal(rt, b"first zero bit", 2, ZERO_12, 2048)?;
    in_literal(rt, b"last zero bit", 2, ZERO_12, 1)
}

// Refusal 3, the parts of the 8 bytes of text: "k", "é = " in UTF-8, FF 00.
fn parts(rt: &impl Print) -> io::Result<()> {
    in_literal(rt, b"bytes 6 to 8", 8, LENGTH, 2)?;
    in_literal(rt, b"bytes 6 to 9", 8, LENGTH, 3)?;
    in_literal(rt, b"bytes 8 to 8", 8, PAYLOAD, 0x80000)?;
    in_literal(rt, b"bytes 9 to 9", 8, PAYLOAD, 0x90000)?;
    in_literal(rt, b"text 8 to 8", 6, PAYLOAD, 0x80000)?;
    in_literal(rt, b"text 9 to 9", 6, PAYLOAD, 0x90000)?;
    in_literal(rt, b"text 0 to 6", 6, LENGTH, 6)?;
    in_literal(rt, b"text 0 to 7, with FF", 6, LENGTH, 7)?;
    in_literal(rt, b"text 0 to 2, in a character", 6, LENGTH, 2)?;
    in_literal(rt, b"text 2 to 7, in a character", 7, START, 2)?;
    in_literal(rt, b"bytes 2 to 4, in a character", 8, START, 2)?;
    in_literal(rt, b"first zero bit of 32", 7, ZERO_32, 2147483648)?;
    in_literal(rt, b"last zero bit of 32", 7, ZERO_32, 1)
}

// The first of two bad records: functions, nodes, literals. All of them before the tree.
fn orders(rt: &impl Print) -> io::Result<()> {
    two(
        rt,
        b"function 1 and node 1",
        function(1, ZERO_6, 1),
        node(1, KIND, 0),
    )?;
    two(
        rt,
        b"nodes 59 and 40",
        node(59, KIND, 0),
        node(40, NEXT, 60),
    )?;
    two(
        rt,
        b"node 59 and literal 0",
        literal(0, PAYLOAD, 1),
        node(59, KIND, 31),
    )?;
    two(
        rt,
        b"literals 8 and 7",
        literal(8, ZERO_12, 1),
        literal(7, ZERO_12, 1),
    )?;
    two(
        rt,
        b"tree and literal 8",
        node(2, NEXT, 0),
        literal(8, LENGTH, 3),
    )
}

// Refusal 4, what is named: by whom, how often, and as what.
fn names(rt: &impl Print) -> io::Result<()> {
    in_header(rt, b"root within", ROOT, 31)?;
    in_function(rt, b"body no scope", 0, BODY, 56)?;
    in_function(rt, b"body is root", 1, BODY, 1)?;
    in_function(rt, b"two bodies one", 1, BODY, 55)?;
    in_node(rt, b"a to itself", 44, A, 44)?;
    in_node(rt, b"a back", 44, A, 43)?;
    in_node(rt, b"b to itself", 36, B, 36)?;
    in_node(rt, b"next to itself", 16, NEXT, 16)?;
    in_node(rt, b"next back", 16, NEXT, 12)?;
    in_node(rt, b"a past a node", 3, A, 5)?;
    in_node(rt, b"next past a node", 4, NEXT, 6)?;
    in_node(rt, b"a and b one", 52, B, 53)
}

// Refusal 4, what names: kinds that do not fit.
fn kinds(rt: &impl Print) -> io::Result<()> {
    in_node(rt, b"arm's scope a vec", 41, KIND, 13)?;
    in_node(rt, b"loop's scope a template", 31, KIND, 6)?;
    in_node(rt, b"default branches", 42, KIND, 10)?;
    in_node(rt, b"condition a target", 39, KIND, 23)?;
    in_node(rt, b"last a target", 37, KIND, 21)?;
    in_node(rt, b"target a name", 21, KIND, 7)?;
    in_node(rt, b"let of a target", 30, KIND, 21)?;
    in_node(rt, b"target in a tuple", 15, KIND, 21)?;
    in_node(rt, b"text in a vec", 44, KIND, 13)?;
    in_node(rt, b"values in a template", 3, KIND, 6)?;
    in_node(rt, b"entries in branches", 11, KIND, 10)?;
    in_node(rt, b"entries in a vec", 11, KIND, 13)
}

// Refusal 4, a stray next, and the lowest of several nodes at fault.
fn several(rt: &impl Print) -> io::Result<()> {
    in_node(rt, b"next of a condition", 30, NEXT, 31)?;
    in_node(rt, b"next of the root", 1, NEXT, 2)?;
    in_node(rt, b"next of a target", 48, NEXT, 49)?;
    in_node(rt, b"next of a body", 55, NEXT, 59)?;
    two(
        rt,
        b"nexts of 57 and 22",
        node(57, NEXT, 58),
        node(22, NEXT, 23),
    )?;
    two(
        rt,
        b"5 not named, 53 twice",
        node(4, NEXT, 6),
        node(52, B, 53),
    )?;
    two(
        rt,
        b"53 twice, next of 30",
        node(52, B, 53),
        node(30, NEXT, 31),
    )
}

pub fn all(rt: &impl Print) -> io::Result<()> {
    headers(rt)?;
    functions(rt)?;
    nodes(rt)?;
    literal_numbers(rt)?;
    needed(rt)?;
    ranges(rt)?;
    not_needed(rt)?;
    literals(rt)?;
    parts(rt)?;
    orders(rt)?;
    names(rt)?;
    kinds(rt)?;
    several(rt)
}
