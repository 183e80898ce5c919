// The operations on two i64, each done only where its exact result is an i64.
ghost use Rattle.std.specs.Prelude.{◌≡◌};
ghost use Rattle.numbers.specs.Ints.{add_of, sub_of, mul_of, div_of, shift_of, shl_of, shr_of};

use crate::ArithRefusal;

pub fn checked_add(x: i64, y: i64) -> Result<i64, ArithRefusal>
    ensures { result ≡ add_of x y }
{
    x.checked_add(y).ok_or(ArithRefusal::Overflow)
}

pub fn checked_sub(x: i64, y: i64) -> Result<i64, ArithRefusal>
    ensures { result ≡ sub_of x y }
{
    x.checked_sub(y).ok_or(ArithRefusal::Overflow)
}

pub fn checked_mul(x: i64, y: i64) -> Result<i64, ArithRefusal>
    ensures { result ≡ mul_of x y }
{
    x.checked_mul(y).ok_or(ArithRefusal::Overflow)
}

// Zero divides nothing, and the least i64 has no quotient by -1.
pub fn checked_div(x: i64, y: i64) -> Result<i64, ArithRefusal>
    ensures { result ≡ div_of x y }
{
    x.checked_div(y).ok_or(ArithRefusal::Division)
}

// The shift operand y, from 0 to 63, or why it is refused.
fn shift_operand(y: i64) -> Result<i64, ArithRefusal>
    ensures { result ≡ shift_of y y }
{
    if u32::try_from(y).is_err() {
        return Err(ArithRefusal::ShiftOperand);
    }
    if y >= 64 {
        return Err(ArithRefusal::Overflow);
    }
    Ok(y)
}

pub fn checked_shl(x: i64, y: i64) -> Result<i64, ArithRefusal>
    ensures { result ≡ shl_of x y }
{
    let k = shift_operand(y)?;
    Ok(x << k)
}

pub fn checked_shr(x: i64, y: i64) -> Result<i64, ArithRefusal>
    ensures { result ≡ shr_of x y }
{
    let k = shift_operand(y)?;
    Ok(x >> k)
}
