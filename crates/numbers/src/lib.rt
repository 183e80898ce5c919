// The numbers of the constant evaluator: operations on i64 that refuse instead of overflowing, operations on f64, both as
// words of 64 bits, and decimal digits.
#![tactic(auto)]

pub mod decimal;
pub mod int;
pub mod word;

ghost use Rattle.std.specs.Prelude.{◌≡◌};
ghost use Rattle.numbers.specs.declared.OpError.TheVariants.{Arithmetic};
ghost use Rattle.numbers.specs.Ints.{assign_of, binary_int_of, number_of};
ghost use Rattle.numbers.specs.Floats.{binary_float_of};

use int::{checked_add, checked_div, checked_mul, checked_shl, checked_shr, checked_sub};

// An arithmetic refusal: 16, 17 and 18.
#[derive(Clone, Copy, Debug, PartialEq, Eq)]
pub enum ArithRefusal {
    Overflow,
    Division,
    ShiftOperand,
}

impl ArithRefusal {
    pub fn number(self) -> u8
        ensures { result ≡ number_of self }
    {
        match self {
            ArithRefusal::Overflow => 16,
            ArithRefusal::Division => 17,
            ArithRefusal::ShiftOperand => 18,
        }
    }
}

// Why an operation gives no number. `NotConst` is 12. `Unlisted` answers an op that no loaded image has: an assigning one
// above 5, and a binary one above 10.
#[derive(Clone, Copy, Debug, PartialEq, Eq)]
pub enum OpError {
    Arithmetic(ArithRefusal),
    NotConst,
    Unlisted,
}

impl From<ArithRefusal> for OpError {
    ghost from_gives = { λ why e. e ≡ Arithmetic why };

    fn from(why: ArithRefusal) -> OpError {
        OpError::Arithmetic(why)
    }
}

// What a binary operation on two numbers gives. It derives no equality, since a NaN is not equal to itself.
#[derive(Clone, Copy)]
pub enum Number {
    Signed(i64),
    Float(f64),
    Bool(bool),
}

// The assigning operation `op` on a target and an operand: + - * / << >>.
#[tactic(auto, unfolding(crate::specs::Ints::assign_of))]
pub fn assign_int(op: u8, target: i64, operand: i64) -> Result<i64, OpError>
    ensures { result ≡ assign_of op target operand }
{
    let value = match op {
        0 => checked_add(target, operand)?,
        1 => checked_sub(target, operand)?,
        2 => checked_mul(target, operand)?,
        3 => checked_div(target, operand)?,
        4 => checked_shl(target, operand)?,
        5 => checked_shr(target, operand)?,
        _ => return Err(OpError::Unlisted),
    };
    Ok(value)
}

// The binary operation `op` on two signed operands: + - * / << >> < <= == > >=.
#[tactic(auto, unfolding(crate::specs::Ints::binary_int_of))]
pub fn binary_int(op: u8, x: i64, y: i64) -> Result<Number, OpError>
    ensures { result ≡ binary_int_of op x y }
{
    match op {
        0..=5 => Ok(Number::Signed(assign_int(op, x, y)?)),
        6 => Ok(Number::Bool(x < y)),
        7 => Ok(Number::Bool(x <= y)),
        8 => Ok(Number::Bool(x == y)),
        9 => Ok(Number::Bool(x > y)),
        10 => Ok(Number::Bool(x >= y)),
        _ => Err(OpError::Unlisted),
    }
}

// The binary operation `op` on two float operands. Shifts of floats are not const. The comparisons stand here and above, since one function
// over PartialOrd would go by `partial_cmp`, of which each answer had to be told from an ordering, with a law for each op and type.
#[tactic(auto, unfolding(crate::specs::Floats::binary_float_of))]
pub fn binary_float(op: u8, x: f64, y: f64) -> Result<Number, OpError>
    ensures { result ≡ binary_float_of op x y }
{
    match op {
        0 => Ok(Number::Float(x + y)),
        1 => Ok(Number::Float(x - y)),
        2 => Ok(Number::Float(x * y)),
        3 => Ok(Number::Float(x / y)),
        4 | 5 => Err(OpError::NotConst),
        6 => Ok(Number::Bool(x < y)),
        7 => Ok(Number::Bool(x <= y)),
        8 => Ok(Number::Bool(x == y)),
        9 => Ok(Number::Bool(x > y)),
        10 => Ok(Number::Bool(x >= y)),
        _ => Err(OpError::Unlisted),
    }
}
