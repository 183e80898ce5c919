// Every operation of `numbers` over the limits of its operands, a line for each pair. What it writes is held to what
// oracle/numbers.rs writes.
#![tactic(auto)]

use numbers::decimal::put_decimal;
use numbers::word::{float_to_word, int_to_word, word_to_float, word_to_int};
use numbers::{Number, OpError};
use std::io;

// The limits, and the shift operands 63, 64 and 4294967295; -1, 0 and 4294967296 are among the limits.
const INTS: [i64; 15] = [
    i64::MIN,
    i64::MIN + 1,
    -1,
    0,
    1,
    i64::MAX - 1,
    i64::MAX,
    2147483648,
    4294967296,
    -4294967296,
    3037000499,
    3037000500,
    63,
    64,
    4294967295,
];

const FLOATS: [f64; 9] = [
    0.0,
    -0.0,
    1.0,
    -1.0,
    1e308,
    5e-324,
    f64::INFINITY,
    f64::NEG_INFINITY,
    f64::NAN,
];

// Words at the ends of each kind of float: zeros, subnormals, ones, infinities, and the first and last NaN of each sign.
const WORDS: [u64; 12] = [
    0x0000_0000_0000_0000,
    0x8000_0000_0000_0000,
    0x0000_0000_0000_0001,
    0x3ff0_0000_0000_0000,
    0x7fef_ffff_ffff_ffff,
    0x7ff0_0000_0000_0000,
    0xfff0_0000_0000_0000,
    0x7ff0_0000_0000_0001,
    0x7ff8_0000_0000_0000,
    0x7fff_ffff_ffff_ffff,
    0xfff0_0000_0000_0001,
    0xffff_ffff_ffff_ffff,
];

// By `put_decimal`, which is held to the oracle here.
fn print_int(rt: &impl Print, x: i64) -> io::Result<()> {
    let mut text = [0u8; 20];
    let Some(n) = put_decimal(&mut text, 0, x) else {
        return Ok(());
    };
    rt.write_all(&text[..n])
}

fn print_word(rt: &impl Print, w: u64) -> io::Result<()> {
    print!(rt; "{w:016x}")
}

// A refusal by its number; 0, which none has, stands for an op that is not listed.
fn print_refused(rt: &impl Print, why: OpError) -> io::Result<()> {
    let number = match why {
        OpError::Arithmetic(why) => why.number(),
        OpError::NotConst => 12,
        OpError::Unlisted => 0,
    };
    print!(rt; "!{number}")
}

fn print_assigned(rt: &impl Print, given: Result<i64, OpError>) -> io::Result<()> {
    rt.write_all(b" ")?;
    match given {
        Ok(z) => print_int(rt, z),
        Err(why) => print_refused(rt, why),
    }
}

fn print_number(rt: &impl Print, given: Result<Number, OpError>) -> io::Result<()> {
    rt.write_all(b" ")?;
    match given {
        Ok(Number::Signed(z)) => print_int(rt, z),
        Ok(Number::Float(z)) => print_word(rt, float_to_word(z)),
        Ok(Number::Bool(z)) => print!(rt; "{z}"),
        Err(why) => print_refused(rt, why),
    }
}

fn int_line(rt: &impl Print, x: i64, y: i64) -> io::Result<()> {
    print_int(rt, x)?;
    rt.write_all(b" ")?;
    print_int(rt, y)?;
    rt.write_all(b":")?;
    for op in 0..11 {
        print_number(rt, numbers::binary_int(op, x, y))?;
    }
    rt.write_all(b" assign")?;
    for op in 0..6 {
        print_assigned(rt, numbers::assign_int(op, x, y))?;
    }
    rt.write_all(b"\n")
}

fn float_line(rt: &impl Print, x: f64, y: f64) -> io::Result<()> {
    print_word(rt, float_to_word(x))?;
    rt.write_all(b" ")?;
    print_word(rt, float_to_word(y))?;
    rt.write_all(b":")?;
    for op in 0..11 {
        print_number(rt, numbers::binary_float(op, x, y))?;
    }
    rt.write_all(b"\n")
}

// A word as an i64, that as a word again, and the word as an f64 and as a word again.
fn word_line(rt: &impl Print, w: u64) -> io::Result<()> {
    print_word(rt, w)?;
    rt.write_all(b": ")?;
    let x = word_to_int(w);
    print_int(rt, x)?;
    rt.write_all(b" ")?;
    print_word(rt, int_to_word(x))?;
    rt.write_all(b" ")?;
    print_word(rt, float_to_word(word_to_float(w)))?;
    rt.write_all(b"\n")
}

// The lines of the pairs of integers, of the pairs of floats, and of the words: those of the integers, and then the others.
fn main(rt: HostRuntime) -> io::Result<()> {
    for x in INTS {
        for y in INTS {
            int_line(&rt, x, y)?;
        }
    }
    for x in FLOATS {
        for y in FLOATS {
            float_line(&rt, x, y)?;
        }
    }
    for x in INTS {
        word_line(&rt, int_to_word(x))?;
    }
    for w in WORDS {
        word_line(&rt, w)?;
    }
    Ok(())
}
