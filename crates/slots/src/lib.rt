// A value in two words: its kind, as literals and the output number it, and its payload, as a literal has it.
#![tactic(auto)]

ghost use Rattle.std.specs.Prelude.{◌≡◌, ◌+◌, ◌*◌, ◌/◌, ◌%◌, ◌^◌, ◌≤◌, length};
ghost use Rattle.rules.specs.Building.{literal_of};
ghost use Rattle.slots.specs.Slot.{slot_of, value_of, Put};

use numbers::word::{float_to_word, int_to_word, word_to_float, word_to_int};
use rules::Value;

pub mod literals; // literals of the image

#[derive(Clone, Copy, Debug, PartialEq, Eq)]
pub struct Slot {
    pub kind: u64,
    pub payload: u64,
}

// A place and a length, as the payload of a text literal has them.
fn part(start: u32, length: u16) -> u64
    ensures { result ≡ start * 2 ^ 16 + length }
{
    u64::from(start) * 65536 + u64::from(length)
}

pub fn start_of(payload: u64) -> u32
    ensures { result ≡ payload / 2 ^ 16 % 2 ^ 32 }
{
    (payload / 65536 % 4294967296) as u32
}

pub fn length_of(payload: u64) -> u16
    ensures { result ≡ payload % 2 ^ 16 }
{
    (payload % 65536) as u16
}

fn low(payload: u64) -> u32
    ensures { result ≡ payload % 2 ^ 32 }
{
    (payload % 4294967296) as u32
}

impl From<Value> for Slot {
    ghost from_gives = { λ v slot. (slot ≡ slot_of v) × (value_of (slot_of v).kind (slot_of v).payload ≡ v) };

    fn from(v: Value) -> Slot {
        let (kind, payload) = match v {
            Value::Unit => (0, 0),
            Value::Bool(b) => (1, u64::from(b)),
            Value::Unsigned(x) => (2, x),
            Value::Signed(x) => (3, int_to_word(x)),
            Value::Float(x) => (4, float_to_word(x)),
            Value::Char(c) => (5, u64::from(c)),
            Value::Text(start, length) => (6, part(start, length)),
            Value::Bytes(start, length) => (7, part(start, length)),
            Value::Vec(c) => (8, u64::from(c)),
            Value::Tuple(c) => (9, u64::from(c)),
            Value::Object(c) => (10, u64::from(c)),
        };
        Slot { kind, payload }
    }
}

// The value of a literal's kind and payload. The kind is a number, as the image has it.
#[tactic(auto, unfolding(rules::specs::Building::literal_of))]
pub fn literal_of(kind: u64, payload: u64) -> Value
    ensures { result ≡ literal_of kind payload }
{
    match kind {
        1 => Value::Bool(payload == 1),
        2 => Value::Unsigned(payload),
        3 => Value::Signed(word_to_int(payload)),
        4 => Value::Float(word_to_float(payload)),
        5 => Value::Char(low(payload)),
        6 => Value::Text(start_of(payload), length_of(payload)),
        7 => Value::Bytes(start_of(payload), length_of(payload)),
        _ => Value::Unit,
    }
}

// The value of a kind and a payload: a handle, or a literal's. The kind is a number, as the words of a store have it.
#[tactic(auto, unfolding(crate::specs::Slot::value_of))]
pub fn value_of(kind: u64, payload: u64) -> Value
    ensures { result ≡ value_of kind payload }
{
    match kind {
        8 => Value::Vec(low(payload)),
        9 => Value::Tuple(low(payload)),
        10 => Value::Object(low(payload)),
        _ => literal_of(kind, payload),
    }
}

// A value written to the words at `at` and after it.
pub fn put_slot(words: &mut [u64], at: usize, v: Value)
    requires { at + 2 ≤ length words.old }
    ensures { Put v at words.old words.new }
{
    let slot = Slot::from(v);
    words[at] = slot.payload;
    words[at + 1] = slot.kind;
}
