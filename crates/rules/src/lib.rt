// What the rules of document 01 speak of: values, refusals and answers. The rules themselves are definitions, in specs/.
#![tactic(auto)]

ghost use Rattle.std.specs.Prelude.{◌≡◌};
ghost use Rattle.rules.specs.Answer.{refusal_number, number_of, place_of, steps_of};

use image::LoadError;
use numbers::ArithRefusal;

// A value while a constant is worked out. Text is a place and a length in the image's text and, after it, the text that was built in this
// run; bytes stand in the image's text. A vec, a tuple and an object are shared: the value is the number of the cell that heads them.
// It derives no equality, since a NaN is not equal to itself.
#[derive(Clone, Copy)]
pub enum Value {
    Unit,
    Bool(bool),
    Char(u32),
    Unsigned(u64),
    Signed(i64),
    Float(f64),
    Text(u32, u16),
    Bytes(u32, u16),
    Vec(u32),
    Tuple(u32),
    Object(u32),
}

// Why evaluation or output is refused. The budget is not among them: the rules know none.
#[derive(Clone, Copy, Debug, PartialEq, Eq)]
pub enum Refusal {
    // 7 to 11: depth, cells, text bytes, bindings, pending items
    Depth,
    Cells,
    TextBytes,
    Bindings,
    Pending,
    // 12 to 15: not const, break outside, break with value, not bool
    NotConst,
    BreakOutside,
    BreakWithValue,
    NotBool,
    // 16 to 18
    Arithmetic(ArithRefusal),
    // 19 to 25: operands, no such name, field, index, type, argument count, float in template
    Operands,
    MissingName,
    MissingField,
    MissingIndex,
    ExpectedType,
    ArgumentCount,
    FloatInTemplate,
    // 26 and 27: nesting, room
    Nesting,
    Room,
}

// Why a target that is read, or a node of its operands, gives no value, and the node at which that is told.
#[derive(Clone, Copy, Debug, PartialEq, Eq)]
pub struct Refused {
    pub why: Refusal,
    pub place: u16,
}

// Where a target being written stands: a binding, a cell, or a field that its object (by its head) does not have yet.
#[derive(Clone, Copy, Debug, PartialEq, Eq)]
pub enum Place {
    Binding(usize),
    Cell(usize),
    Absent(u32),
}

impl Refusal {
    pub fn number(self) -> u8
        ensures { result ≡ refusal_number self }
    {
        match self {
            Refusal::Depth => 7,
            Refusal::Cells => 8,
            Refusal::TextBytes => 9,
            Refusal::Bindings => 10,
            Refusal::Pending => 11,
            Refusal::NotConst => 12,
            Refusal::BreakOutside => 13,
            Refusal::BreakWithValue => 14,
            Refusal::NotBool => 15,
            Refusal::Arithmetic(why) => why.number(),
            Refusal::Operands => 19,
            Refusal::MissingName => 20,
            Refusal::MissingField => 21,
            Refusal::MissingIndex => 22,
            Refusal::ExpectedType => 23,
            Refusal::ArgumentCount => 24,
            Refusal::FloatInTemplate => 25,
            Refusal::Nesting => 26,
            Refusal::Room => 27,
        }
    }
}

// The answer of one call.
#[derive(Clone, Copy, Debug, PartialEq, Eq)]
pub enum Answer {
    // a value was written: its length in bytes, and the steps taken
    Value(usize, u64),
    // 7 to 27: the place, and the steps taken
    Refused(Refusal, usize, u64),
    // 6: the node being entered, and the steps taken
    Spent(usize, u64),
    // 1 to 4, and the place
    NotLoaded(LoadError),
    // 5
    StoreTooShort,
}

impl Answer {
    // 01's number of the refusal, 0 for a value.
    pub fn number(self) -> u8
        ensures { result ≡ number_of self }
    {
        match self {
            Answer::Value(_, _) => 0,
            Answer::Refused(why, _, _) => why.number(),
            Answer::Spent(_, _) => 6,
            Answer::NotLoaded(error) => error.number(),
            Answer::StoreTooShort => 5,
        }
    }

    pub fn place(self) -> usize
        ensures { result ≡ place_of self }
    {
        match self {
            Answer::Refused(_, place, _) | Answer::Spent(place, _) => place,
            Answer::NotLoaded(error) => error.place(),
            Answer::Value(_, _) | Answer::StoreTooShort => 0,
        }
    }

    pub fn steps(self) -> u64
        ensures { result ≡ steps_of self }
    {
        match self {
            Answer::Value(_, steps) | Answer::Refused(_, _, steps) | Answer::Spent(_, steps) =>
                steps,
            Answer::NotLoaded(_) | Answer::StoreTooShort => 0,
        }
    }
}
