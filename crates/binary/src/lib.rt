// The operation of a binary node, once both operands are there.
#![tactic(auto)]

ghost use Rattle.std.specs.Prelude.{◌≡◌, [], ◌∷◌};
ghost use Rattle.rules.specs.Building.{binary_of};
ghost use Rattle.rules.specs.Machine.{Frame};
ghost use Rattle.stores.specs.Lent.{SameSlices, StoresMade};
ghost use Rattle.outcomes.specs.Outcomes.{IsNode};
ghost use Rattle.binary.specs.Binary.{place_of, not_const, got_of_numbers, text_pair, float_pair};
ghost use Rattle.outcomes.specs.Lent.{StoresAfter};

use numbers::{ArithRefusal, Number, OpError, binary_float, binary_int};
use outcomes::Outcome;
use packed::image::Image;
use rules::{Refusal, Refused, Value};
use stores::lent::Stores;
use texts::join;

// "16, 17: binary; 18: right operand"
fn arith_place(n: u16, right: u16, why: ArithRefusal) -> u16
    ensures { result ≡ place_of n right why }
{
    match why {
        ArithRefusal::ShiftOperand => right,
        _ => n,
    }
}

fn of_numbers(n: u16, right: u16, res: Result<Number, OpError>) -> Result<Value, Refused>
    ensures { result ≡ got_of_numbers n right res }
{
    match res {
        Ok(Number::Signed(z)) => Ok(Value::Signed(z)),
        Ok(Number::Float(x)) => Ok(Value::Float(x)),
        Ok(Number::Bool(b)) => Ok(Value::Bool(b)),
        Err(OpError::Arithmetic(why)) => Err(Refused {
            why: Refusal::Arithmetic(why),
            place: arith_place(n, right, why),
        }),
        Err(_) => Err(not_const(n)),
    }
}

// "Anything else is 12."
fn not_const(n: u16) -> Refused
    ensures { result ≡ not_const n }
{
    Refused {
        why: Refusal::NotConst,
        place: n,
    }
}

// "both text, + joins. Anything else is 12".
fn text_pair(
    image: &Image,
    stores: &mut Stores,
    n: u16,
    left: Value,
    right: Value,
) -> Result<Value, Refused>
    requires { IsNode image.now.bytes.now image.now.header n }
    ensures store { StoresMade result (text_pair image.now.bytes.now image.now.header n left right) stores.old stores.new }
    ensures words { stores.new.words.now ≡ stores.old.words.now }
    ensures same { SameSlices stores.old stores.new }
{
    let Value::Text(start, len) = left else {
        return Err(not_const(n));
    };
    let Value::Text(start2, len2) = right else {
        return Err(not_const(n));
    };
    let node = image.node(n as usize);
    if node.op != 0 {
        return Err(not_const(n));
    }
    join(
        image,
        stores.bytes,
        &mut stores.run,
        n,
        start,
        len,
        start2,
        len2,
    )
}

// "if both are float, all but shifts". Of one shape with `binary_of`, but another case comes after it and another operation stands in it: one function for both
// would be no plainer.
fn float_pair(
    image: &Image,
    stores: &mut Stores,
    n: u16,
    left: Value,
    right: Value,
) -> Result<Value, Refused>
    requires { IsNode image.now.bytes.now image.now.header n }
    ensures store { StoresMade result (float_pair image.now.bytes.now image.now.header n left right) stores.old stores.new }
    ensures words { stores.new.words.now ≡ stores.old.words.now }
    ensures same { SameSlices stores.old stores.new }
{
    let Value::Float(x) = left else {
        return text_pair(image, stores, n, left, right);
    };
    let Value::Float(y) = right else {
        return Err(not_const(n));
    };
    let node = image.node(n as usize);
    of_numbers(n, node.b, binary_float(node.op, x, y))
}

// The operation of node n on both values: "If both operands are signed, all ops".
#[tactic(auto, unfolding(rules::specs::Building::binary_of))]
fn binary_of(
    image: &Image,
    stores: &mut Stores,
    n: u16,
    left: Value,
    right: Value,
) -> Result<Value, Refused>
    requires { IsNode image.now.bytes.now image.now.header n }
    ensures store { StoresMade result (binary_of image.now.bytes.now image.now.header n left right) stores.old stores.new }
    ensures words { stores.new.words.now ≡ stores.old.words.now }
    ensures same { SameSlices stores.old stores.new }
{
    let Value::Signed(x) = left else {
        return float_pair(image, stores, n, left, right);
    };
    let Value::Signed(y) = right else {
        return Err(not_const(n));
    };
    let node = image.node(n as usize);
    of_numbers(n, node.b, binary_int(node.op, x, y))
}

// After the right operand of node n.
pub fn finish_binary(
    image: &Image,
    stores: &mut Stores,
    n: u16,
    left: Value,
    one: Outcome,
) -> Outcome
    requires { IsNode image.now.bytes.now image.now.header n }
    ensures store { StoresAfter image.now.bytes.now image.now.header (Frame.right_of n left ∷ []) one stores.old stores.new result }
    ensures words { stores.new.words.now ≡ stores.old.words.now }
    ensures same { SameSlices stores.old stores.new }
{
    let Outcome::Done(right) = one else {
        return one;
    };
    Outcome::from(binary_of(image, stores, n, left, right))
}
